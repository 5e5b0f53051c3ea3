// The subcarriers' uses (document 01 step 7).
ghost use Rattle.std.specs.Prelude.{◌≡◌, ◌*◌, ◌<◌, T};
ghost use Rattle.laws.specs.Test.{among};
ghost use Rattle.chain.specs.Plan.{widths};
ghost use Rattle.subcarriers.specs.Subcarriers.{used_subcarriers, place_found, use_of, places_of, subcarrier_at, subcarrier_from, outside};
ghost use Rattle.subcarriers.specs.Subcarriers.{Inside};
ghost use Rattle.subcarriers.specs.Runs.{half_runs, run_of};

// Nothing, the pilot at a place, or the data carrier of a number, both counted from 0 with the subcarriers rising.
#[derive(Clone, Copy)]
pub enum Use {
    Silent,
    Pilot(usize),
    Data(usize),
}

// A run of data carriers at neighbouring places, and the pilot after it.
#[derive(Clone, Copy)]
pub struct Run {
    pub place: usize,
    pub carrier: usize,
    pub count: usize,
    pub pilot: Option<usize>,
    pub turned: bool,
}

// Whether a subcarrier is none of the channel's: those are -32 to 31 at 20 MHz and -64 to 63 at 40.
pub fn is_outside(width: usize, subcarrier: i32) -> bool
    ensures { result ≡ outside width subcarrier }
{
    let (first, last) = if width == 40 { (-64, 63) } else { (-32, 31) };
    (subcarrier < first) | (subcarrier > last)
}

// The runs below 0 and then those above: the first place, the first data carrier, the number of carriers, the pilot after them.
// A static, of which a read takes one row: the array of a const would be built for each.
static RUNS_20: [(usize, usize, usize, Option<usize>); 6] = [
    (0, 0, 7, Some(0)),
    (8, 7, 13, Some(1)),
    (22, 20, 6, None),
    (28, 26, 6, Some(2)),
    (35, 32, 13, Some(3)),
    (49, 45, 7, None),
];

static RUNS_40: [(usize, usize, usize, Option<usize>); 8] = [
    (0, 0, 5, Some(0)),
    (6, 5, 27, Some(1)),
    (34, 32, 13, Some(2)),
    (48, 45, 9, None),
    (57, 54, 9, Some(3)),
    (67, 63, 13, Some(4)),
    (81, 76, 27, Some(5)),
    (109, 103, 5, None),
];

// Run r of a stream's places.
pub fn run_of(width: usize, r: usize) -> Run
    requires { r < 2 * half_runs width }
    ensures { result ≡ run_of width r }
{
    let wide = width == 40;
    let (place, carrier, count, pilot) = if wide { RUNS_40[r] } else { RUNS_20[r] };
    Run {
        place,
        carrier,
        count,
        pilot,
        turned: wide & (r >= 4),
    }
}

// A subcarrier's number as an index, from -64 on: the one conversion.
pub fn index(subcarrier: i32) -> usize
    requires { Inside 40 subcarrier }
    ensures { (subcarrier_from result ≡ subcarrier) × (result < 128) }
{
    (subcarrier + 64) as usize
}

// The place of a subcarrier among the used ones, by its index. Used are those from low up to gap, and from above up to top,
// which have so many skipped below them.
fn place_of(width: usize, k: usize) -> Option<usize>
    requires { k < 128 }
    ensures { result ≡ place_found (used_subcarriers width) (subcarrier_from k) }
{
    let (low, gap, above, top, skipped) = if width == 40 {
        (6, 63, 66, 123, 9)
    } else {
        (36, 64, 65, 93, 37)
    };
    if low <= k && k < gap {
        return Some(k - low);
    }
    if above <= k && k < top {
        return Some(k - skipped);
    }
    None
}

// Places of a stream's points.
pub fn places_of(width: usize) -> usize
    ensures { result ≡ places_of width }
{
    if width == 40 { 114 } else { 56 }
}

// Runs of a stream's places.
pub fn runs_of(width: usize) -> usize
    ensures { result ≡ 2 * half_runs width }
{
    if width == 40 { 8 } else { 6 }
}

// What the subcarrier at place f is used for: a carrier of the last run that begins there or before, or the pilot after it.
fn use_at(width: usize, f: usize) -> Use
    requires t { T (among widths width) }
    requires f_bound { f < places_of width }
    ensures { result ≡ use_of width (subcarrier_at width f) }
{
    for r in (0..runs_of(width)).rev() {
        let run = run_of(width, r);
        if run.place <= f {
            let k = f - run.place;
            return match run.pilot {
                Some(pilot) if k >= run.count => Use::Pilot(pilot),
                _ => Use::Data(run.carrier + k),
            };
        }
    }
    unreachable!()
}

// The subcarrier at place f, by its own number: so much less than the place, below 0 and above it.
pub fn subcarrier_of(width: usize, f: usize) -> i32
    requires t { T (among widths width) }
    requires f_bound { f < places_of width }
    ensures { result ≡ subcarrier_at width f }
{
    let (half, below, above) = if width == 40 {
        (57, 58, 55)
    } else {
        (28, 28, 27)
    };
    let shift = if f < half { below } else { above };
    f as i32 - shift
}

// What a subcarrier of the channel is used for.
pub fn use_of(width: usize, subcarrier: i32) -> Use
    requires t { T (among widths width) }
    requires inside { Inside width subcarrier }
    ensures { result ≡ use_of width subcarrier }
{
    match place_of(width, index(subcarrier)) {
        Some(f) => use_at(width, f),
        None => Use::Silent,
    }
}
