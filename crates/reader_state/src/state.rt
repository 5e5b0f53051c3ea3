// The reader's state, its start, and whether a state is closed.
ghost use Rattle.std.specs.Prelude.{◌≡◌, ◌%◌, ◌<◌};
ghost use Rattle.settings.specs.Settings.{Right};
ghost use Rattle.reader_state.specs.State.{open_raw, blank, start_of, bad_histories, bad_scrambler, bad_part, closed_of, ended_of};

use assembler::bytes::payload_before;
use settings::settings::{RawSettings, Refusal, Settings, check, plan_of};
use symbols::count::symbols_of;

// Settings without a seed, as wide as any caller has them.
#[derive(Clone, Copy)]
pub struct OpenSettings {
    pub width: u64,
    pub mcs: u64,
    pub format: u64,
    pub length: u64,
    pub smoothing: bool,
    pub not_sounding: bool,
    pub aggregation: bool,
    pub short_guard: bool,
}

// What the reader carries from symbol to symbol. Any number may stand in any field: a step tests them.
#[derive(Clone, Copy)]
pub struct Reader {
    pub settings: OpenSettings,
    // The next symbol's number.
    pub symbol: u64,
    // Set by refusals 9, 10 and 11, and by the last symbol.
    pub ended: bool,
    // The last six inputs of each encoder, by its number, the newest in bit 0.
    pub histories: [u8; 2],
    // The scrambler at the next symbol's first bit, as a seed: bit 0 is x1. Unused before symbol 0.
    pub scrambler: u8,
    // The bits of the payload byte that is not complete yet, the first in bit 0.
    pub part: u8,
}

// Whether the settings are accepted, and a state in either case: a closed one where they are refused.
#[derive(Clone, Copy)]
pub struct Started {
    pub answer: Result<(), Refusal>,
    pub state: Reader,
}

// With seed 1, so that only a refusal of the others can come.
impl From<OpenSettings> for RawSettings {
    ghost from_gives = { λ o raw. raw ≡ open_raw o };

    fn from(o: OpenSettings) -> RawSettings {
        RawSettings {
            width: o.width,
            mcs: o.mcs,
            format: o.format,
            length: o.length,
            seed: 1,
            smoothing: o.smoothing,
            not_sounding: o.not_sounding,
            aggregation: o.aggregation,
            short_guard: o.short_guard,
        }
    }
}

// A state before symbol 0.
fn blank(o: OpenSettings, ended: bool) -> Reader
    ensures { result ≡ blank o ended }
{
    Reader {
        settings: o,
        symbol: 0,
        ended,
        histories: [0, 0],
        scrambler: 0,
        part: 0,
    }
}

// The public start: a state before symbol 0, or a refusal and a closed state.
pub fn start(o: OpenSettings) -> Started
    ensures { result ≡ start_of o }
{
    let checked = check(o.into());
    let Ok(_) = checked else {
        return Started {
            answer: Err(checked.unwrap_err()),
            state: blank(o, true),
        };
    };
    Started {
        answer: Ok(()),
        state: blank(o, false),
    }
}

// Histories are six bits, encoder by encoder.
fn bad_histories(histories: [u8; 2]) -> bool
    ensures { result ≡ bad_histories histories }
{
    histories.iter().any(|&h| h >= 64)
}

// From symbol 1 on a scrambler is 1 to 127.
fn bad_scrambler(symbol: u64, scrambler: u8) -> bool
    ensures { result ≡ bad_scrambler symbol scrambler }
{
    (symbol != 0) & ((scrambler == 0) | (scrambler > 127))
}

// A part of a byte has as many bits as the payload bits before the symbol leave.
fn bad_part(s: Settings, symbol: u64, part: u8) -> bool
    requires { Right s × (symbol < 32768) }
    ensures { result ≡ bad_part s symbol part }
{
    let plan = plan_of(s);
    let before = payload_before(s.length as usize, symbol as usize * plan.dbps);
    part >= 1 << (before % 8)
}

// Whether a state is finished, ended or outside its ranges, its settings being accepted.
pub fn is_closed(reader: Reader, s: Settings) -> bool
    requires { Right s }
    ensures { result ≡ closed_of s reader }
{
    let past = reader.ended | (reader.symbol >= symbols_of(s));
    if past {
        return true;
    }
    bad_histories(reader.histories)
        | (bad_scrambler(reader.symbol, reader.scrambler) | bad_part(s, reader.symbol, reader.part))
}

// The state given, its end marked.
pub fn ended(reader: Reader) -> Reader
    ensures { result ≡ ended_of reader }
{
    Reader {
        ended: true,
        ..reader
    }
}
