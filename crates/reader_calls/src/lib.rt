// The reader's calls as C callers see them: a state and an answer as one number, a refusal as its number negated or beside the state.
#![tactic(auto)]

ghost use Rattle.std.specs.Prelude.{◌≡◌, ◌<◌, length, pos};
ghost use Rattle.reader_state.specs.State.{start_of};
ghost use Rattle.reader_numbers.specs.Numbers.{start_result, closed_number, step_result, step_result_into, place_result};

use conversions::refused;
use reader::step;
use reader_numbers::{place_number, reader_of, state_number, stepped_number};
use reader_place::place;
use reader_state::state;
use reader_state::state::OpenSettings;
use settings::settings::{Refusal, number};

// The reader's state before symbol 0.
pub fn start_call(settings: OpenSettings) -> i64
    ensures { result ≡ start_result (start_of settings) }
{
    let started = state::start(settings);
    match started.answer {
        Ok(()) => state_number(started.state) as i64,
        Err(r) => refused(r),
    }
}

// What comes back for a number that is no state: its end is marked, so that no step from it is ever open.
fn closed_number(state: u64) -> u64
    ensures { (result ≡ closed_number state) × (result < 562949953421312) }
{
    state % 281474976710656 + 281474976710656
}

// One symbol read: the refusal's number, the seed and the state in one number.
pub fn step_call(settings: OpenSettings, state: u64, points: &[f32], payload: &mut [u8]) -> i64
    ensures value { result ≡ pos (step_result settings state points.now (length payload.old)) }
    ensures payload_after { payload.new ≡ step_result_into settings state points.now payload.old }
{
    let no_state = state >= 562949953421312;
    if no_state {
        return (number(Refusal::Closed) + 4096 * closed_number(state)) as i64;
    }
    let stepped = step::step(reader_of(settings, state), points, payload);
    stepped_number(stepped) as i64
}

// The place of the first point that a step from this state refuses.
pub fn place_call(settings: OpenSettings, state: u64, points: &[f32]) -> i64
    ensures { result ≡ place_result settings state points.now }
{
    let no_state = state >= 562949953421312;
    if no_state {
        return refused(Refusal::Closed);
    }
    place_number(place::place(reader_of(settings, state), points))
}
