// The row of a line.
ghost use Rattle.std.specs.Prelude.{◌≡◌, ◌<◌, ◌≤◌, Some, length};
ghost use Rattle.parsing.specs.Parsing.{FiveDigits};
ghost use Rattle.text.specs.Printing.{empty_row, pushed_all, row_holding};
ghost use Rattle.listing.specs.Rows.{zeros, raw_for, inputs_text, refused_text, accepted_text, row_for, row_of};
ghost use Rattle.signal.specs.HtSig.{written_into};
ghost use Rattle.settings.specs.Settings.{check_of};

use parsing::numbers::{Numbers, parse};
use settings::settings::{RawSettings, Refusal, number};
use signal::ht_sig;
use symbols::count;
use text::printing::Row;

// The settings that a line means: format 0 and seed 1; smoothing and not sounding on, the other flags off.
fn raw_for(given: Numbers) -> RawSettings
    ensures { result ≡ raw_for given.mcs given.width given.length }
{
    RawSettings {
        width: given.width,
        mcs: given.mcs,
        format: 0,
        length: given.length,
        seed: 1,
        smoothing: true,
        not_sounding: true,
        aggregation: false,
        short_guard: false,
    }
}

// The three inputs without leading zeros, each with a space after it.
fn inputs_row(given: Numbers) -> Row
    requires { FiveDigits (Some given) }
    ensures { (result ≡ pushed_all empty_row (inputs_text given.mcs given.width given.length)) × (result.len ≤ 18) }
{
    let Numbers { mcs, width, length } = given;
    let mut row = Row::new();
    row.push_decimal(mcs);
    row.push(32);
    row.push_decimal(width);
    row.push(32);
    row.push_decimal(length);
    row.push(32);
    row
}

fn refused_row(inputs: Row, r: Refusal) -> Row
    requires { inputs.len ≤ 18 }
    ensures { result ≡ pushed_all inputs (refused_text r) }
{
    let mut row = inputs;
    row.push_text(b"refused ");
    row.push_decimal(number(r));
    row.push(10);
    row
}

fn accepted_row(inputs: Row, symbols: u64, sig: &[u8]) -> Row
    requires { (inputs.len ≤ 18) × ((symbols < 100000) × (length sig.now ≡ 6)) }
    ensures { result ≡ pushed_all inputs (accepted_text symbols sig.now) }
{
    let mut row = inputs;
    row.push_decimal(symbols);
    row.push(32);
    row.push_hex(sig);
    row.push(10);
    row
}

// The six signal bytes of settings, all 0 where they are refused.
fn sig_bytes(raw: RawSettings) -> [u8; 6]
    ensures { result ≡ written_into (check_of raw) zeros }
{
    let mut sig = [0u8; 6];
    // Refused settings leave the zeros.
    let _ = ht_sig::write(raw, &mut sig);
    sig
}

fn answered_row(given: Numbers) -> Row
    requires { FiveDigits (Some given) }
    ensures { result ≡ pushed_all empty_row (row_for given.mcs given.width given.length) }
{
    let inputs = inputs_row(given);
    let raw = raw_for(given);
    match count::symbol_count(raw) {
        Err(r) => refused_row(inputs, r),
        Ok(n) => {
            let sig = sig_bytes(raw);
            accepted_row(inputs, n, &sig)
        }
    }
}

// The public row: what is printed for a line, its line feed included.
pub fn row(line: &[u8]) -> Row
    ensures { result ≡ row_holding (row_of line.now) }
{
    let Some(given) = parse(line) else {
        let mut row = Row::new();
        row.push_text(b"malformed\n");
        return row;
    };
    answered_row(given)
}
