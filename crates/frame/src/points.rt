// The points of any one data symbol (document 01, 'From payload to points').
ghost use Rattle.std.specs.Prelude.{◌≡◌, ◌≤◌, length};
ghost use Rattle.std.specs.Float.{nan};
ghost use Rattle.laws.specs.Filled.{Filled};
ghost use Rattle.settings.specs.Settings.{check_of, Right};
ghost use Rattle.frame.specs.Points.{point_float, floats_of, points_of, points_into};
ghost use Rattle.frame.specs.Asked.{InFrame, WriteAsked, LabelsHeld};

use chain::plan::MOST_HALVES;
use coding::labels::half_labels;
use modulator::symbol::symbol_points;
use settings::settings::{RawSettings, Refusal, Settings, check, plan_of};
use subcarriers::layout::places_of;
use symbols::count::symbols_of;

// The half labels of symbol n of a frame.
pub fn labels_of(halves: &mut [u8], payload: &[u8], s: Settings, n: usize)
    requires { InFrame s payload.now n × (864 ≤ length halves.old) }
    ensures { LabelsHeld s payload.now n halves.new }
{
    half_labels(
        halves,
        &payload[..s.length as usize],
        s.seed as u8,
        plan_of(s),
        n,
    );
}

// The floats of a symbol.
pub fn floats_of(s: Settings) -> usize
    requires { Right s }
    ensures { (result ≡ floats_of s) × (result ≤ 912) }
{
    let plan = plan_of(s);
    plan.streams * (2 * places_of(plan.width))
}

// Symbol n of accepted settings, where there is room for it.
fn write_symbol(out: &mut [f32], payload: &[u8], s: Settings, n: usize)
    requires { WriteAsked out.old s payload.now n }
    ensures { Filled nan 0 (point_float s payload.now n) (floats_of s) out.old out.new }
{
    let mut halves = [0u8; MOST_HALVES];
    labels_of(&mut halves, payload, s, n);
    symbol_points(out, &halves, plan_of(s), s.format as usize, n);
}

// The public points call: the symbol's floats and the rest of the slice as it was, or a refusal and nothing written.
pub fn points(
    raw: RawSettings,
    payload: &[u8],
    symbol: u64,
    out: &mut [f32],
) -> Result<u64, Refusal>
    ensures value { result ≡ points_of (check_of raw) (length payload.now) symbol (length out.old) }
    ensures out_after { out.new ≡ points_into (check_of raw) payload.now symbol out.old }
{
    let checked = check(raw);
    let Ok(s) = checked else {
        return Err(checked.unwrap_err());
    };
    let short = payload.len() < s.length as usize;
    if short {
        return Err(Refusal::Source);
    }
    let past = symbol >= symbols_of(s);
    if past {
        return Err(Refusal::Place);
    }
    let floats = floats_of(s);
    let small = out.len() < floats;
    if small {
        return Err(Refusal::Room);
    }
    write_symbol(out, payload, s, symbol as usize);
    Ok(floats as u64)
}
