// The calls of the sending side as C callers see them: one number for each answer, a refusal as its number negated.
#![tactic(auto)]

ghost use Rattle.std.specs.Prelude.{◌≡◌, length};
ghost use Rattle.settings.specs.Settings.{check_of};
ghost use Rattle.symbols.specs.Symbols.{count_of};
ghost use Rattle.signal.specs.HtSig.{written_of, written_into, read_of};
ghost use Rattle.frame.specs.Points.{points_of, points_into};
ghost use Rattle.query.specs.Query.{query_of};
ghost use Rattle.conversions.specs.Results.{count_result, written_result, read_result, points_result, carrier_result, carrier_into};

use conversions::{fields_number, put_carried, refused};
use frame::points;
use settings::settings::{RawSettings, Refusal};
use signal::ht_sig;
use symbols::count;

// The symbol count.
pub fn count_call(raw: RawSettings) -> i64
    ensures { result ≡ count_result (count_of (check_of raw)) }
{
    match count::symbol_count(raw) {
        Ok(symbols) => symbols as i64,
        Err(r) => refused(r),
    }
}

// The HT-SIG bytes, written.
pub fn sig_write_call(raw: RawSettings, out: &mut [u8]) -> i64
    ensures value { result ≡ written_result (written_of (check_of raw) (length out.old)) }
    ensures out_after { out.new ≡ written_into (check_of raw) out.old }
{
    match ht_sig::write(raw, out) {
        Ok(()) => 0,
        Err(r) => refused(r),
    }
}

// The HT-SIG bytes, read.
pub fn sig_read_call(sig: &[u8]) -> i64
    ensures { result ≡ read_result (read_of sig.now) }
{
    match ht_sig::read(sig) {
        Ok(fields) => fields_number(fields) as i64,
        Err(r) => refused(r),
    }
}

// The points of one data symbol.
pub fn points_call(raw: RawSettings, payload: &[u8], symbol: u64, out: &mut [f32]) -> i64
    ensures value { result ≡ points_result (points_of (check_of raw) (length payload.now) symbol (length out.old)) }
    ensures out_after { out.new ≡ points_into (check_of raw) payload.now symbol out.old }
{
    match points::points(raw, payload, symbol, out) {
        Ok(floats) => floats as i64,
        Err(r) => refused(r),
    }
}

// What one subcarrier carries.
pub fn carrier_call(
    raw: RawSettings,
    payload: &[u8],
    symbol: u64,
    stream: u64,
    subcarrier: i32,
    out: &mut [f32],
) -> i64
    ensures value { result ≡ carrier_result (query_of (check_of raw) payload.now symbol stream subcarrier) (length out.old) }
    ensures out_after { out.new ≡ carrier_into (query_of (check_of raw) payload.now symbol stream subcarrier) out.old }
{
    match query::query::subcarrier(raw, payload, symbol, stream, subcarrier) {
        Ok(_) if out.len() < 2 => refused(Refusal::Room),
        Ok(carried) => put_carried(carried, out),
        Err(r) => refused(r),
    }
}
