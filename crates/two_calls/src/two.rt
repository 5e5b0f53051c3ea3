// Demand 3 of two calls: each function makes the same call for two frames. It promises that what came back is what the calls give (so that nothing
// is met by refusing), and the demand's sentences of the answers and of the lent slices.
ghost use Rattle.std.specs.Prelude.{◌≡◌, length};
ghost use Rattle.settings.specs.Settings.{check_of};
ghost use Rattle.symbols.specs.Symbols.{count_of};
ghost use Rattle.signal.specs.HtSig.{written_of, written_into};
ghost use Rattle.frame.specs.Points.{points_of, points_into};
ghost use Rattle.query.specs.Query.{query_of};
ghost use Rattle.demands.specs.Demand3.{SameCount, SameSignal, SamePoints, SameQuery, LocalPoints, LocalQuery, DifferingPoints, SeedPoints};

use frame::points::points;
use query::query::{Carried, subcarrier};
use settings::settings::{RawSettings, Refusal};
use signal::ht_sig::write;
use symbols::count::symbol_count;

// The answers of two calls.
#[derive(Clone, Copy)]
pub struct Two<T> {
    pub one: Result<T, Refusal>,
    pub other: Result<T, Refusal>,
}

pub fn two_counts(raw: RawSettings, other_raw: RawSettings) -> Two<u64>
    ensures made { (result.one ≡ count_of (check_of raw)) × (result.other ≡ count_of (check_of other_raw)) }
    ensures alike { SameCount raw other_raw result.one result.other }
{
    let one = symbol_count(raw);
    let other = symbol_count(other_raw);
    Two { one, other }
}

pub fn two_signals(
    raw: RawSettings,
    other_raw: RawSettings,
    out: &mut [u8],
    other_out: &mut [u8],
) -> Two<()>
    ensures made { (result.one ≡ written_of (check_of raw) (length out.old)) × (result.other ≡ written_of (check_of other_raw) (length other_out.old)) }
    ensures left { (out.new ≡ written_into (check_of raw) out.old) × (other_out.new ≡ written_into (check_of other_raw) other_out.old) }
    ensures alike { SameSignal raw other_raw out.old other_out.old result.one result.other out.new other_out.new }
{
    let one = write(raw, out);
    let other = write(other_raw, other_out);
    Two { one, other }
}

pub fn two_points(
    raw: RawSettings,
    other_raw: RawSettings,
    payload: &[u8],
    other_payload: &[u8],
    symbol: u64,
    out: &mut [f32],
    other_out: &mut [f32],
) -> Two<u64>
    ensures made { (result.one ≡ points_of (check_of raw) (length payload.now) symbol (length out.old)) × (result.other ≡ points_of (check_of other_raw) (length other_payload.now) symbol (length other_out.old)) }
    ensures left { (out.new ≡ points_into (check_of raw) payload.now symbol out.old) × (other_out.new ≡ points_into (check_of other_raw) other_payload.now symbol other_out.old) }
    ensures alike { SamePoints raw other_raw payload.now other_payload.now symbol out.old other_out.old result.one result.other out.new other_out.new }
    ensures local { LocalPoints raw other_raw payload.now other_payload.now symbol out.old other_out.old result.one result.other out.new other_out.new }
    ensures differing { DifferingPoints raw other_raw payload.now other_payload.now symbol out.old other_out.old result.one result.other out.new other_out.new }
    ensures seeded { SeedPoints raw other_raw payload.now other_payload.now symbol out.old other_out.old result.one result.other out.new other_out.new }
{
    let one = points(raw, payload, symbol, out);
    let other = points(other_raw, other_payload, symbol, other_out);
    Two { one, other }
}

pub fn two_queries(
    raw: RawSettings,
    other_raw: RawSettings,
    payload: &[u8],
    other_payload: &[u8],
    symbol: u64,
    stream: u64,
    at: i32,
) -> Two<Carried>
    ensures made { (result.one ≡ query_of (check_of raw) payload.now symbol stream at) × (result.other ≡ query_of (check_of other_raw) other_payload.now symbol stream at) }
    ensures alike { SameQuery raw other_raw payload.now other_payload.now symbol result.one result.other }
    ensures local { LocalQuery raw other_raw payload.now other_payload.now symbol result.one result.other }
{
    let one = subcarrier(raw, payload, symbol, stream, at);
    let other = subcarrier(other_raw, other_payload, symbol, stream, at);
    Two { one, other }
}
