// One step of the reader: a symbol's points, its label bits, and its inputs, which `acceptance` goes on from.
ghost use Rattle.std.specs.Prelude.{◌≡◌, length, Err};
ghost use Rattle.settings.specs.Settings.{plan_for};
ghost use Rattle.detector.specs.Detected.{search_of, shown_bit};
ghost use Rattle.deinterleaver.specs.Deinterleaved.{label_bit_in};
ghost use Rattle.acceptance.specs.Accepted.{answered, bytes_into, step_into_by};
ghost use Rattle.acceptance.specs.declared.accept.StepRefusal.TheVariants.{Refused as StepRefused};
ghost use Rattle.reader.specs.Step.{by_code, heard_input, by_search, step_of, step_into};
ghost use Rattle.reader.specs.Asked.{HearBitsAsked, PointsAsked};

use acceptance::accept::{StepRefusal, Stepped, hear_inputs};
use chain::plan::{MOST_CODED, MOST_DATA};
use decoder::forced::symbol_inputs;
use detector::search::symbol_bits;
use frame::points::floats_of;
use reader_state::state::{Reader, ended, is_closed};
use settings::settings::{Refusal, Settings, check, plan_of};
use subcarriers::layout::subcarrier_of;

// From the symbol's label bits on: 10, and what the inputs give.
fn hear_bits(reader: Reader, s: Settings, bits: &[u8], payload: &mut [u8]) -> Stepped
    requires { HearBitsAsked s reader bits.now payload.old }
    ensures value { result ≡ by_code s reader (label_bit_in (plan_for s) bits.now) }
    ensures payload_after { payload.new ≡ step_into_by result.answer (bytes_into s reader (heard_input s reader (label_bit_in (plan_for s) bits.now)) payload.old) payload.old }
{
    let mut inputs = [0u8; MOST_DATA];
    let histories = reader.histories;
    let decoded = symbol_inputs(&mut inputs, bits, plan_of(s), histories);
    let sound = decoded.sound;
    if sound {
        let after = decoded.histories;
        return hear_inputs(reader, s, &inputs, after, payload);
    }
    Stepped {
        answer: Err(StepRefusal::Refused(Refusal::Code)),
        state: ended(reader),
    }
}

// From the symbol's points on: 9 with its place, and what the label bits give.
fn hear_points(reader: Reader, s: Settings, points: &[f32], payload: &mut [u8]) -> Stepped
    requires { PointsAsked s reader points.now payload.old }
    ensures value { result ≡ by_search (search_of (plan_for s) points.now s.format reader.symbol) s reader points.now }
    ensures payload_after { payload.new ≡ step_into_by result.answer (bytes_into s reader (heard_input s reader (shown_bit (plan_for s) points.now)) payload.old) payload.old }
{
    let mut bits = [0u8; MOST_CODED];
    let found = symbol_bits(
        &mut bits,
        points,
        plan_of(s),
        s.format as usize,
        reader.symbol as usize,
    );
    if let Some((i, f)) = found {
        return Stepped {
            answer: Err(StepRefusal::BadPoint(i as u8, subcarrier_of(s.width as usize, f))),
            state: ended(reader),
        };
    }
    hear_bits(reader, s, &bits, payload)
}

// A refusal that leaves the state as it is given.
fn refused(reader: Reader, r: Refusal) -> Stepped
    ensures { result ≡ answered (Err (StepRefused r)) reader }
{
    Stepped {
        answer: Err(StepRefusal::Refused(r)),
        state: reader,
    }
}

// The public step: the symbol's points judged, and its complete bytes written only where it is accepted.
pub fn step(reader: Reader, points: &[f32], payload: &mut [u8]) -> Stepped
    ensures value { result ≡ step_of reader points.now (length payload.old) }
    ensures payload_after { payload.new ≡ step_into reader points.now payload.old }
{
    let Ok(s) = check(reader.settings.into()) else {
        return refused(reader, Refusal::Closed);
    };
    if is_closed(reader, s) {
        return refused(reader, Refusal::Closed);
    }
    let small = (points.len() < floats_of(s)) | (payload.len() < s.length as usize);
    if small {
        return refused(reader, Refusal::Room);
    }
    hear_points(reader, s, points, payload)
}
