// The sign of a pilot (document 01 step 7).
ghost use Rattle.std.specs.Prelude.{◌≡◌, ◌+◌, ◌%◌, ◌<◌, ◌≤◌, ◌*ℤ◌};
ghost use Rattle.mapper.specs.Levels.{whole};
ghost use Rattle.subcarriers.specs.Subcarriers.{pilots_of};
ghost use Rattle.pilots.specs.Pilots.{sign_of, pattern_of, polarity_bit, PilotAsked};

use scrambler::register::{jump, output_of};

// Tables 11 and 12: for one stream, two, three and four, the row of each stream, then 0.
// Bit k of a row is 1 where value k is a minus sign.
static MINUS_20: [[u8; 4]; 4] = [[8, 0, 0, 0], [12, 6, 0, 0], [12, 10, 9, 0], [8, 4, 2, 1]];

static MINUS_40: [[u8; 4]; 4] = [
    [24, 0, 0, 0],
    [60, 8, 0, 0],
    [60, 8, 26, 0],
    [60, 8, 26, 17],
];

// 1 where value k of a stream's row is a minus sign.
fn pattern_minus(width: usize, streams: usize, i: usize, k: usize) -> u8
    requires { PilotAsked width streams i k }
    ensures { (sign_of result ≡ pattern_of width streams i k) × (result < 2) }
{
    let table = if width == 40 { &MINUS_40 } else { &MINUS_20 };
    (table[streams - 1][i] >> k) % 2
}

// 1 where the pilots of symbol n are all inverted: the scrambler's output of seed 127, 3 steps on for a mixed frame and 2 for green field.
pub fn polarity_bit(format: usize, n: usize) -> u8
    requires { n ≤ 32768 }
    ensures { (result ≡ polarity_bit format n) × (result < 2) }
{
    let start = if format == 1 { 2 } else { 3 };
    output_of(jump(127, n + start))
}

// Which value of its row the pilot at place q has in symbol n.
fn pattern_index(width: usize, n: usize, q: usize) -> usize
    requires { (n ≤ 32768) × (q < pilots_of width) }
    ensures { (result ≡ (n + q) % pilots_of width) × (result < pilots_of width) }
{
    if width == 40 {
        (n + q) % 6
    } else {
        (n + q) % 4
    }
}

// The pilot at place q of stream i in symbol n, with the symbol's polarity at hand.
pub fn pilot_sign(width: usize, streams: usize, n: usize, i: usize, q: usize, polarity: u8) -> f32
    requires pilot_asked { PilotAsked width streams i q }
    requires n_bound { (n ≤ 32768) × (polarity < 2) }
    ensures { result ≡ whole (pattern_of width streams i ((n + q) % pilots_of width) *ℤ sign_of polarity) }
{
    let k = pattern_index(width, n, q);
    let minus = (pattern_minus(width, streams, i, k) + polarity) % 2;
    if minus == 0 { 1.0 } else { -1.0 }
}
