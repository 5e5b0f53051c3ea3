// The points of a symbol, stream by stream: label bits, and the first point that fails.
ghost use Rattle.std.specs.Prelude.{◌≡◌, ◌&&◌, ◌<◌, ◌≤◌, eqb, leb};
ghost use Rattle.chain.specs.Plan.{Fits};
ghost use Rattle.demapper.specs.Asked.{PointTables};
ghost use Rattle.detector.specs.Detected.{search_of};
ghost use Rattle.detector.specs.Asked.{PlacesNumbered, HearPlaceAsked, PlaceGiven, PlaceHeard, SymbolBitsAsked, BitsShown};

use crate::uses::uses_of;
use chain::plan::{Plan, axis_bits};
use demapper::level::{label_keys, level_keys};
use demapper::point::{hear_data, hear_pilot};
use pilots::pilot::{pilot_sign, polarity_bit};
use subcarriers::layout::places_of;

// Whether place f is above 0 at 40 MHz.
fn is_turned(width: usize, f: usize) -> bool
    ensures { result ≡ (eqb width 40 && leb 57 f) }
{
    (width == 40) & (f >= 57)
}

// What the points of a symbol are heard with: its plan, number and polarity, and the tables of levels, labels and uses.
#[derive(Clone, Copy)]
struct Hearing<'a> {
    plan: Plan,
    s: usize,
    polarity: u8,
    n: usize,
    levels: &'a [u32],
    labels: &'a [u8],
    uses: &'a [u8],
    ghost fits: { Fits plan },
    ghost tables: { PointTables plan.bits s levels.now labels.now },
    ghost numbered: { PlacesNumbered plan.width uses.now },
    ghost near: { n ≤ 32768 },
    ghost polar: { polarity < 2 },
}

impl Hearing<'_> {
    // Stream i's point at place f: whether it is one the rules give, and a data carrier's label bits.
    fn hear_place(&self, bits: &mut [u8], points: &[f32], i: usize, f: usize) -> bool
        requires { HearPlaceAsked bits.old points.now self.now.plan i f }
        ensures given { PlaceGiven self.now.plan points.now self.now.polarity self.now.n i f result }
        ensures heard { PlaceHeard self.now.plan points.now i f bits.old bits.new }
    {
        let plan = self.plan;
        let floats = 2 * places_of(plan.width);
        let at = i * floats + 2 * f;
        let x = points[at];
        let y = points[at + 1];
        let turned = is_turned(plan.width, f);
        let used = usize::from(self.uses[f]);
        if used < 128 {
            let to = i * plan.block + used * plan.bits;
            return hear_data(
                bits,
                to,
                self.levels,
                self.labels,
                plan.bits,
                self.s,
                turned,
                x,
                y,
            );
        }
        let sign = pilot_sign(
            plan.width,
            plan.streams,
            self.n,
            i,
            used - 128,
            self.polarity,
        );
        hear_pilot(sign, turned, x, y)
    }
}

// The label bits of all streams, stream i's block from i·block on, or the first point that is none the rules give: its stream and its
// place among the used subcarriers.
pub fn symbol_bits(
    bits: &mut [u8],
    points: &[f32],
    plan: Plan,
    format: usize,
    n: usize,
) -> Option<(usize, usize)>
    requires { SymbolBitsAsked bits.old points.now plan n }
    ensures value { result ≡ search_of plan points.now format n }
    ensures bits_shown { BitsShown plan points.now result bits.old bits.new }
{
    let s = axis_bits(plan.bits);
    let levels = level_keys();
    let labels = label_keys(s);
    let uses = uses_of(plan.width);
    let hearing = Hearing {
        plan,
        s,
        polarity: polarity_bit(format, n),
        n,
        levels: &levels,
        labels: &labels,
        uses: &uses,
    };
    let places = places_of(plan.width);
    let mut found = None;
    'streams: for i in 0..plan.streams {
        for f in 0..places {
            if !hearing.hear_place(bits, points, i, f) {
                found = Some((i, f));
                break 'streams;
            }
        }
    }
    found
}
