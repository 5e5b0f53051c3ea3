// The place of the first failing point, for a caller that a step has told of one.
ghost use Rattle.std.specs.Prelude.{◌≡◌};
ghost use Rattle.reader_place.specs.Place.{place_of};

use chain::plan::MOST_CODED;
use detector::search::symbol_bits;
use frame::points::floats_of;
use reader_state::state::{Reader, is_closed};
use settings::settings::{Refusal, check, plan_of};
use subcarriers::layout::subcarrier_of;

// The public place call: the first point that does not pass, by its stream and its subcarrier's own number; none where every point passes.
pub fn place(reader: Reader, points: &[f32]) -> Result<Option<(u8, i32)>, Refusal>
    ensures { result ≡ place_of reader points.now }
{
    let Ok(s) = check(reader.settings.into()) else {
        return Err(Refusal::Closed);
    };
    if is_closed(reader, s) {
        return Err(Refusal::Closed);
    }
    if points.len() < floats_of(s) {
        return Err(Refusal::Room);
    }
    let mut bits = [0u8; MOST_CODED];
    let found = symbol_bits(
        &mut bits,
        points,
        plan_of(s),
        s.format as usize,
        reader.symbol as usize,
    );
    match found {
        None => Ok(None),
        Some((i, f)) => Ok(Some((i as u8, subcarrier_of(s.width as usize, f)))),
    }
}
