// The reader's settings, states and answers as the numbers of the C calls.
#![tactic(auto)]

ghost use Rattle.std.specs.Prelude.{◌≡◌, ◌*◌, ◌<◌, pos, ◌+ℤ◌};
ghost use Rattle.subcarriers.specs.Subcarriers.{Inside};
ghost use Rattle.reader.specs.Step.{step_number, step_seed};
ghost use Rattle.reader_numbers.specs.Numbers.{open_of, state_number, reader_of, stepped_number, placed_result, PlaceRight};

use acceptance::accept::{StepRefusal, Stepped};
use conversions::refused;
use reader_state::state::{OpenSettings, Reader};
use settings::settings::{Refusal, number};
use subcarriers::layout::index;

// The settings of a call: a flag is off at 0 and on at any other number.
pub fn open_settings(
    width: u32,
    mcs: u32,
    format: u32,
    length: u32,
    smoothing: u32,
    not_sounding: u32,
    aggregation: u32,
    short_guard: u32,
) -> OpenSettings
    ensures { result ≡ open_of width mcs format length smoothing not_sounding aggregation short_guard }
{
    OpenSettings {
        width: width as u64,
        mcs: mcs as u64,
        format: format as u64,
        length: length as u64,
        smoothing: smoothing != 0,
        not_sounding: not_sounding != 0,
        aggregation: aggregation != 0,
        short_guard: short_guard != 0,
    }
}

// A state as a number.
pub fn state_number(reader: Reader) -> u64
    requires { reader.symbol < 65536 }
    ensures { (result ≡ state_number reader) × (result < 562949953421312) }
{
    let [first, second] = reader.histories;
    let low = reader.symbol + 65536 * u64::from(first) + 16777216 * u64::from(second);
    low + 4294967296 * u64::from(reader.scrambler)
        + 1099511627776 * u64::from(reader.part)
        + 281474976710656 * u64::from(reader.ended)
}

// The state that a number is.
pub fn reader_of(settings: OpenSettings, state: u64) -> Reader
    ensures { result ≡ reader_of settings state }
{
    Reader {
        settings,
        symbol: state % 65536,
        ended: state / 281474976710656 % 2 == 1,
        histories: [(state / 65536 % 256) as u8, (state / 16777216 % 256) as u8],
        scrambler: (state / 4294967296 % 256) as u8,
        part: (state / 1099511627776 % 256) as u8,
    }
}

fn answer_number(answer: Result<Option<u8>, StepRefusal>) -> u64
    ensures { (result ≡ step_number answer) × (result < 16) }
{
    match answer {
        Ok(_) => 0,
        Err(StepRefusal::BadPoint(_, _)) => number(Refusal::Point),
        Err(StepRefusal::Refused(r)) => number(r),
    }
}

fn answer_seed(answer: Result<Option<u8>, StepRefusal>) -> u64
    ensures { (result ≡ step_seed answer) × (result < 256) }
{
    match answer {
        Ok(Some(seed)) => u64::from(seed),
        Ok(None) | Err(_) => 0,
    }
}

// What a step gives back, as one number.
pub fn stepped_number(stepped: Stepped) -> u64
    requires { stepped.state.symbol < 65536 }
    ensures { (result ≡ stepped_number stepped) × (result < 4611686018427387904) }
{
    let answer = stepped.answer;
    let state = stepped.state;
    answer_number(answer) + 32 * answer_seed(answer) + 4096 * state_number(state)
}

// A place as a number: 256 for each stream, and the subcarrier counted from -128 on.
fn found_number(stream: u8, subcarrier: i32) -> u64
    requires { Inside 40 subcarrier }
    ensures { (pos result ≡ pos (256 * stream) +ℤ (subcarrier +ℤ pos 128)) × (result < 65536) }
{
    256 * u64::from(stream) + (index(subcarrier) as u64 + 64)
}

// The place of a point, 65,535 where there is none, or the refusal's number negated.
pub fn place_number(answer: Result<Option<(u8, i32)>, Refusal>) -> i64
    requires { PlaceRight answer }
    ensures { result ≡ placed_result answer }
{
    match answer {
        Ok(None) => 65535,
        Ok(Some((i, z))) => found_number(i, z) as i64,
        Err(r) => refused(r),
    }
}
