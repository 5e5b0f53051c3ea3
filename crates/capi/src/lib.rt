// The calls over the C convention: numbers and slices in, one i64 out, a refusal as its number negated. Each gathers its settings and calls on.
#![tactic(auto)]

ghost use Rattle.std.specs.Prelude.{◌≡◌, length as length_of, pos};
ghost use Rattle.abi.specs.Abi.{abi_number};
ghost use Rattle.settings.specs.Settings.{check_of};
ghost use Rattle.symbols.specs.Symbols.{count_of};
ghost use Rattle.signal.specs.HtSig.{written_of, written_into, read_of};
ghost use Rattle.frame.specs.Points.{points_of, points_into};
ghost use Rattle.query.specs.Query.{query_of};
ghost use Rattle.reader_state.specs.State.{start_of};
ghost use Rattle.reader_numbers.specs.Numbers.{open_of, start_result, step_result, step_result_into, place_result};
ghost use Rattle.frame_steps.specs.WholeFrame.{read_frame_of, read_frame_into};
ghost use Rattle.frame_reader.specs.Result.{frame_result};
ghost use Rattle.conversions.specs.Results.{raw_of, count_result, written_result, read_result, points_result, carrier_result, carrier_into};

use abi::abi;
use calls::{carrier_call, count_call, points_call, sig_read_call, sig_write_call};
use conversions::raw_settings;
use frame_reader::call::read_frame_call;
use reader_calls::{place_call, start_call, step_call};
use reader_numbers::open_settings;

// The number of this set of calls.
#[unsafe(no_mangle)]
pub extern "C" fn ht_abi() -> i64
    ensures { result ≡ pos abi_number }
{
    abi()
}

// The symbol count.
#[unsafe(no_mangle)]
pub extern "C" fn ht_symbol_count(
    width: u32,
    mcs: u32,
    format: u32,
    length: u32,
    seed: u32,
    smoothing: u32,
    not_sounding: u32,
    aggregation: u32,
    short_guard: u32,
) -> i64
    ensures { result ≡ count_result (count_of (check_of (raw_of width mcs format length seed smoothing not_sounding aggregation short_guard))) }
{
    let raw = raw_settings(
        width,
        mcs,
        format,
        length,
        seed,
        smoothing,
        not_sounding,
        aggregation,
        short_guard,
    );
    count_call(raw)
}

// The HT-SIG bytes, written.
#[unsafe(no_mangle)]
pub extern "C" fn ht_sig_write(
    width: u32,
    mcs: u32,
    format: u32,
    length: u32,
    seed: u32,
    smoothing: u32,
    not_sounding: u32,
    aggregation: u32,
    short_guard: u32,
    out: &mut [u8],
) -> i64
    ensures value { result ≡ written_result (written_of (check_of (raw_of width mcs format length seed smoothing not_sounding aggregation short_guard)) (length_of out.old)) }
    ensures out_after { out.new ≡ written_into (check_of (raw_of width mcs format length seed smoothing not_sounding aggregation short_guard)) out.old }
{
    let raw = raw_settings(
        width,
        mcs,
        format,
        length,
        seed,
        smoothing,
        not_sounding,
        aggregation,
        short_guard,
    );
    sig_write_call(raw, out)
}

// The HT-SIG bytes, read.
#[unsafe(no_mangle)]
pub extern "C" fn ht_sig_read(sig: &[u8]) -> i64
    ensures { result ≡ read_result (read_of sig.now) }
{
    sig_read_call(sig)
}

// The points of one data symbol.
#[unsafe(no_mangle)]
pub extern "C" fn ht_points(
    width: u32,
    mcs: u32,
    format: u32,
    length: u32,
    seed: u32,
    smoothing: u32,
    not_sounding: u32,
    aggregation: u32,
    short_guard: u32,
    payload: &[u8],
    symbol: u32,
    out: &mut [f32],
) -> i64
    ensures value { result ≡ points_result (points_of (check_of (raw_of width mcs format length seed smoothing not_sounding aggregation short_guard)) (length_of payload.now) symbol (length_of out.old)) }
    ensures out_after { out.new ≡ points_into (check_of (raw_of width mcs format length seed smoothing not_sounding aggregation short_guard)) payload.now symbol out.old }
{
    let raw = raw_settings(
        width,
        mcs,
        format,
        length,
        seed,
        smoothing,
        not_sounding,
        aggregation,
        short_guard,
    );
    points_call(raw, payload, symbol as u64, out)
}

// What one subcarrier carries.
#[unsafe(no_mangle)]
pub extern "C" fn ht_carrier(
    width: u32,
    mcs: u32,
    format: u32,
    length: u32,
    seed: u32,
    smoothing: u32,
    not_sounding: u32,
    aggregation: u32,
    short_guard: u32,
    payload: &[u8],
    symbol: u32,
    stream: u32,
    subcarrier: i32,
    out: &mut [f32],
) -> i64
    ensures value { result ≡ carrier_result (query_of (check_of (raw_of width mcs format length seed smoothing not_sounding aggregation short_guard)) payload.now symbol stream subcarrier) (length_of out.old) }
    ensures out_after { out.new ≡ carrier_into (query_of (check_of (raw_of width mcs format length seed smoothing not_sounding aggregation short_guard)) payload.now symbol stream subcarrier) out.old }
{
    let raw = raw_settings(
        width,
        mcs,
        format,
        length,
        seed,
        smoothing,
        not_sounding,
        aggregation,
        short_guard,
    );
    carrier_call(raw, payload, symbol as u64, stream as u64, subcarrier, out)
}

// The reader's state before symbol 0.
#[unsafe(no_mangle)]
pub extern "C" fn ht_reader_start(
    width: u32,
    mcs: u32,
    format: u32,
    length: u32,
    smoothing: u32,
    not_sounding: u32,
    aggregation: u32,
    short_guard: u32,
) -> i64
    ensures { result ≡ start_result (start_of (open_of width mcs format length smoothing not_sounding aggregation short_guard)) }
{
    let open = open_settings(
        width,
        mcs,
        format,
        length,
        smoothing,
        not_sounding,
        aggregation,
        short_guard,
    );
    start_call(open)
}

// One symbol read: the refusal's number, the seed and the state in one number.
#[unsafe(no_mangle)]
pub extern "C" fn ht_reader_step(
    width: u32,
    mcs: u32,
    format: u32,
    length: u32,
    smoothing: u32,
    not_sounding: u32,
    aggregation: u32,
    short_guard: u32,
    state: u64,
    points: &[f32],
    payload: &mut [u8],
) -> i64
    ensures value { result ≡ pos (step_result (open_of width mcs format length smoothing not_sounding aggregation short_guard) state points.now (length_of payload.old)) }
    ensures payload_after { payload.new ≡ step_result_into (open_of width mcs format length smoothing not_sounding aggregation short_guard) state points.now payload.old }
{
    let open = open_settings(
        width,
        mcs,
        format,
        length,
        smoothing,
        not_sounding,
        aggregation,
        short_guard,
    );
    step_call(open, state, points, payload)
}

// The place of the first point that a step from this state refuses.
#[unsafe(no_mangle)]
pub extern "C" fn ht_reader_place(
    width: u32,
    mcs: u32,
    format: u32,
    length: u32,
    smoothing: u32,
    not_sounding: u32,
    aggregation: u32,
    short_guard: u32,
    state: u64,
    points: &[f32],
) -> i64
    ensures { result ≡ place_result (open_of width mcs format length smoothing not_sounding aggregation short_guard) state points.now }
{
    let open = open_settings(
        width,
        mcs,
        format,
        length,
        smoothing,
        not_sounding,
        aggregation,
        short_guard,
    );
    place_call(open, state, points)
}

// A whole frame read: the seed, or the refusal's number negated.
#[unsafe(no_mangle)]
pub extern "C" fn ht_read_frame(
    width: u32,
    mcs: u32,
    format: u32,
    length: u32,
    smoothing: u32,
    not_sounding: u32,
    aggregation: u32,
    short_guard: u32,
    points: &[f32],
    payload: &mut [u8],
) -> i64
    ensures value { result ≡ frame_result (read_frame_of (open_of width mcs format length smoothing not_sounding aggregation short_guard) points.now (length_of payload.old)) }
    ensures payload_after { payload.new ≡ read_frame_into (open_of width mcs format length smoothing not_sounding aggregation short_guard) points.now payload.old }
{
    let open = open_settings(
        width,
        mcs,
        format,
        length,
        smoothing,
        not_sounding,
        aggregation,
        short_guard,
    );
    read_frame_call(open, points, payload)
}
