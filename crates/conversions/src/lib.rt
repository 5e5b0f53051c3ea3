// What the C calls take and return: settings from numbers, answers as one number, and what a subcarrier carries as floats.
#![tactic(auto)]

ghost use Rattle.std.specs.Prelude.{◌≡◌, ◌<◌, ◌≤◌, pos, length as length_of};
ghost use Rattle.sig_words.specs.Words.{SigFits};
ghost use Rattle.conversions.specs.Results.{raw_of, refused_result, fields_number, carried_number, carried_into};

use query::query::Carried;
use settings::settings::{RawSettings, Refusal, number};
use sig_words::words::SigFields;

// The settings of a call: a flag is off at 0 and on at any other number.
pub fn raw_settings(
    width: u32,
    mcs: u32,
    format: u32,
    length: u32,
    seed: u32,
    smoothing: u32,
    not_sounding: u32,
    aggregation: u32,
    short_guard: u32,
) -> RawSettings
    ensures { result ≡ raw_of width mcs format length seed smoothing not_sounding aggregation short_guard }
{
    RawSettings {
        width: width as u64,
        mcs: mcs as u64,
        format: format as u64,
        length: length as u64,
        seed: seed as u64,
        smoothing: smoothing != 0,
        not_sounding: not_sounding != 0,
        aggregation: aggregation != 0,
        short_guard: short_guard != 0,
    }
}

pub fn refused(r: Refusal) -> i64
    ensures { result ≡ refused_result r }
{
    -(number(r) as i64)
}

// The fields as one number.
pub fn fields_number(g: SigFields) -> u64
    requires { SigFits g }
    ensures { (result ≡ fields_number g) × (result < 268435456) }
{
    let flags = u64::from(g.smoothing)
        + 2 * u64::from(g.not_sounding)
        + 4 * u64::from(g.aggregation)
        + 8 * u64::from(g.short_guard);
    g.mcs + 128 * u64::from(g.width == 40) + 256 * g.length + 16777216 * flags
}

// Puts what a subcarrier carries into the lent floats: 0 for nothing, 1 for a pilot's sign, 2 for a data point.
pub fn put_carried(carried: Carried, out: &mut [f32]) -> i64
    requires { 2 ≤ length_of out.old }
    ensures { (result ≡ pos (carried_number carried)) × (out.new ≡ carried_into carried out.old) }
{
    match carried {
        Carried::Silent => 0,
        Carried::Pilot(sign) => {
            out[0] = sign;
            1
        }
        Carried::Data(p) => {
            out[0] = p.first;
            out[1] = p.second;
            2
        }
    }
}
