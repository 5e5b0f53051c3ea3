// One step of the reader from a symbol's inputs on: its data bits, its bytes, its answer and the state after it.
ghost use Rattle.std.specs.Prelude.{◌≡◌, ◌&&◌, ◌<◌, ltb, get_or};
ghost use Rattle.acceptance.specs.Accepted.{scrambler_for, accepted_with, moved_with, bytes_left, part_left};
ghost use Rattle.acceptance.specs.Asked.{bit_numbered, framed_in, ScramblerAsked, MovedAsked, RightAsked, PutBytesAsked, HearInputsAsked, HeardInputs};

use assembler::bytes::put_payload;
use chain::plan::MOST_DATA;
use deframer::bits::{descramble, is_framed, seed_of};
use reader_state::state::{Reader, ended};
use scrambler::register::jump;
use settings::settings::{Refusal, Settings, plan_of};
use symbols::count::symbols_of;

// Why a symbol is refused: the first point that fails, by its stream and subcarrier, or a refusal without a place.
#[derive(Clone, Copy)]
pub enum StepRefusal {
    BadPoint(u8, i32),
    Refused(Refusal),
}

// An accepted symbol's answer has the seed where it is the frame's first. There is a state in either case.
#[derive(Clone, Copy)]
pub struct Stepped {
    pub answer: Result<Option<u8>, StepRefusal>,
    pub state: Reader,
}

// The scrambler at the symbol's first bit: the state's, or at symbol 0 the seed that the inputs show.
fn scrambler_for(reader: Reader, inputs: &[u8]) -> u8
    requires { ScramblerAsked reader inputs.now }
    ensures { (result ≡ scrambler_for reader (λ d. get_or inputs.now d 0)) × (result < 128) }
{
    if reader.symbol == 0 {
        return seed_of(inputs);
    }
    reader.scrambler
}

// An accepted symbol's answer.
fn accepted_as(reader: Reader, scrambler: u8) -> Result<Option<u8>, StepRefusal>
    ensures { result ≡ accepted_with reader scrambler }
{
    if reader.symbol == 0 {
        return Ok(Some(scrambler));
    }
    Ok(None)
}

// The state after an accepted symbol.
fn moved(reader: Reader, s: Settings, histories: [u8; 2], scrambler: u8, part: u8) -> Reader
    requires { MovedAsked s reader scrambler }
    ensures { result ≡ moved_with s reader histories scrambler part }
{
    let plan = plan_of(s);
    let settings = reader.settings;
    let next = reader.symbol + 1;
    Reader {
        settings,
        symbol: next,
        ended: next == symbols_of(s),
        histories,
        scrambler: jump(scrambler, plan.dbps),
        part,
    }
}

// Whether the symbol's service, tail and pad bits are right and its seed is not 0.
fn is_right(s: Settings, symbol: u64, scrambler: u8, inputs: &[u8], plain: &[u8]) -> bool
    requires { RightAsked s symbol inputs.now plain.now }
    ensures { result ≡ (ltb 0 scrambler && framed_in s symbol inputs.now plain.now) }
{
    let plan = plan_of(s);
    let framed = is_framed(
        inputs,
        plain,
        s.length as usize,
        plan.encoders,
        symbol as usize * plan.dbps,
        plan.dbps,
    );
    (scrambler > 0) & framed
}

// The bytes that the symbol completes, and the part of a byte that it leaves.
fn put_bytes(payload: &mut [u8], s: Settings, symbol: u64, part: u8, plain: &[u8]) -> u8
    requires { PutBytesAsked payload.old s symbol part plain.now }
    ensures payload_after { payload.new ≡ bytes_left s symbol part (bit_numbered plain.now) payload.old }
    ensures value { result ≡ part_left s symbol part (bit_numbered plain.now) }
{
    let plan = plan_of(s);
    put_payload(
        payload,
        plain,
        part,
        s.length as usize,
        symbol as usize * plan.dbps,
        plan.dbps,
    )
}

// From the symbol's inputs on: 11, or the symbol is accepted and its bytes are written.
pub fn hear_inputs(
    reader: Reader,
    s: Settings,
    inputs: &[u8],
    histories: [u8; 2],
    payload: &mut [u8],
) -> Stepped
    requires { HearInputsAsked s reader inputs.now payload.old }
    ensures { HeardInputs s reader (bit_numbered inputs.now) histories result payload.old payload.new }
{
    let plan = plan_of(s);
    let scrambler = scrambler_for(reader, inputs);
    let mut plain = [0u8; MOST_DATA];
    descramble(&mut plain[..plan.dbps], inputs, scrambler);
    let right = is_right(s, reader.symbol, scrambler, inputs, &plain);
    if right {
        let part = put_bytes(payload, s, reader.symbol, reader.part, &plain);
        return Stepped {
            answer: accepted_as(reader, scrambler),
            state: moved(reader, s, histories, scrambler, part),
        };
    }
    Stepped {
        answer: Err(StepRefusal::Refused(Refusal::Frame)),
        state: ended(reader),
    }
}
