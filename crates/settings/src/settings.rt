// Settings: the numbers of a call as they come, and what is accepted of them (document 01, 'Settings').
ghost use Rattle.std.specs.Prelude.{◌≡◌, ltb};
ghost use Rattle.chain.specs.Plan.{streams_of};
ghost use Rattle.settings.specs.Settings.{bad_width, bad_mcs, bad_format, bad_length, bad_seed};
ghost use Rattle.settings.specs.Settings.{number_of, check_of, encoders_of, plan_for, Right};

use chain::plan;
use chain::plan::Plan;

// The refusals of document 01's table, each with its number.
#[derive(Clone, Copy, PartialEq, Eq)]
pub enum Refusal {
    Width = 1,
    Mcs = 2,
    Format = 3,
    Length = 4,
    Seed = 5,
    Source = 6,
    Place = 7,
    Room = 8,
    Point = 9,
    Code = 10,
    Frame = 11,
    Closed = 12,
    SigCrc = 13,
    SigForm = 14,
}

// The settings as a caller passes them, as wide as any caller has them: nothing is narrowed before it is tested.
// A further setting that is tested after the format, such as an edition, has its place after `format`.
#[derive(Clone, Copy)]
pub struct RawSettings {
    pub width: u64,
    pub mcs: u64,
    pub format: u64,
    pub length: u64,
    pub seed: u64,
    pub smoothing: bool,
    pub not_sounding: bool,
    pub aggregation: bool,
    pub short_guard: bool,
}

// Accepted settings.
#[derive(Clone, Copy)]
pub struct Settings {
    pub width: u64,
    pub mcs: u64,
    pub format: u64,
    pub length: u64,
    pub seed: u64,
    pub smoothing: bool,
    pub not_sounding: bool,
    pub aggregation: bool,
    pub short_guard: bool,
}

// Document 01's number of a refusal.
pub fn number(r: Refusal) -> u64
    ensures { result ≡ number_of r }
{
    r as u64
}

// The tests of refusals 1 to 5, each over all settings, in the table's order.
fn bad_width(raw: RawSettings) -> bool
    ensures { result ≡ bad_width raw }
{
    !((raw.width == 20) | (raw.width == 40))
}

fn bad_mcs(raw: RawSettings) -> bool
    ensures { result ≡ bad_mcs raw }
{
    raw.mcs > 31
}

fn bad_format(raw: RawSettings) -> bool
    ensures { result ≡ bad_format raw }
{
    raw.format > 1
}

fn bad_length(raw: RawSettings) -> bool
    ensures { result ≡ bad_length raw }
{
    (raw.length == 0) | (raw.length > 65535)
}

fn bad_seed(raw: RawSettings) -> bool
    ensures { result ≡ bad_seed raw }
{
    (raw.seed == 0) | (raw.seed > 127)
}

// The settings, or the first refusal of 1 to 5 that applies.
pub fn check(raw: RawSettings) -> Result<Settings, Refusal>
    ensures { result ≡ check_of raw }
{
    if bad_width(raw) {
        return Err(Refusal::Width);
    }
    if bad_mcs(raw) {
        return Err(Refusal::Mcs);
    }
    if bad_format(raw) {
        return Err(Refusal::Format);
    }
    if bad_length(raw) {
        return Err(Refusal::Length);
    }
    if bad_seed(raw) {
        return Err(Refusal::Seed);
    }
    Ok(Settings {
        width: raw.width,
        mcs: raw.mcs,
        format: raw.format,
        length: raw.length,
        seed: raw.seed,
        smoothing: raw.smoothing,
        not_sounding: raw.not_sounding,
        aggregation: raw.aggregation,
        short_guard: raw.short_guard,
    })
}

// Whether an MCS has one stream or two.
fn few_streams(mcs: u64) -> bool
    ensures { result ≡ ltb (streams_of mcs) 3 }
{
    mcs / 8 + 1 < 3
}

// Encoders of the consortium's edition: 1 for one and two streams, else 2.
pub fn encoders(mcs: u64) -> u64
    ensures { result ≡ encoders_of mcs }
{
    if few_streams(mcs) { 1 } else { 2 }
}

// The plan of accepted settings.
pub fn plan_of(s: Settings) -> Plan
    requires { Right s }
    ensures { result ≡ plan_for s }
{
    plan::plan_for(s.width as usize, s.mcs as usize, encoders(s.mcs) as usize)
}
