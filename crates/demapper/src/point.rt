// A point's two labels from its two floats, its label bits, and the test of a pilot.
ghost use Rattle.std.specs.Prelude.{◌≡◌, cond, ◌+◌, ◌≤◌, length};
ghost use Rattle.laws.specs.Filled.{Filled};
ghost use Rattle.demapper.specs.Demapped.{bit_of_label, second_label};
ghost use Rattle.demapper.specs.Asked.{PointTables, PointRead, DataHeard, pilot_heard};

use crate::level::{bits_of, level_label, negated_label};
use modulator::symbol::pilot_point;

// The labels of a point's levels, and whether it is a point of the constellation.
#[derive(Clone, Copy)]
pub struct PointLabels {
    pub first: u8,
    pub second: u8,
    pub given: bool,
}

// One of two floats.
fn either(turned: bool, a: f32, b: f32) -> f32
    ensures { result ≡ cond turned a b }
{
    if turned { a } else { b }
}

// The points of so many bits, with the tables of their levels and labels at hand.
#[derive(Clone, Copy)]
struct Constellation<'a> {
    levels: &'a [u32],
    labels: &'a [u8],
    bits: usize,
    s: usize,
    ghost tables: { PointTables bits s levels.now labels.now },
}

impl Constellation<'_> {
    // The label of the second level, which the turn has put first and negated. At B = 1 there is one label, of level 0.
    fn second_label(&self, turned: bool, x: f32, y: f32) -> u8
        ensures { result ≡ second_label self.now.bits turned x y }
    {
        if self.bits == 1 {
            return u8::from(bits_of(either(turned, x, y)) != 0);
        }
        if turned {
            negated_label(self.levels, self.labels, self.s, x)
        } else {
            level_label(self.levels, self.labels, self.s, y)
        }
    }

    // The labels of the point (x, y) as it was sent, the turn undone without changing a float.
    #[tactic(auto, using(crate::proofs::LabelLaws::keys_sized))]
    fn point_labels(&self, turned: bool, x: f32, y: f32) -> PointLabels
        ensures { PointRead self.now.bits turned x y result }
    {
        let first = level_label(self.levels, self.labels, self.s, either(turned, y, x));
        let second = self.second_label(turned, x, y);
        let all = self.labels[0];
        let seconds = if self.bits == 1 { 1 } else { all };
        let given = (first < all) & (second < seconds);
        PointLabels {
            first,
            second,
            given,
        }
    }
}

// The bits of a label, the first the highest.
fn put_label(out: &mut [u8], at: usize, s: usize, label: u8)
    requires { (s ≤ 3) × (at + s ≤ length out.old) }
    ensures { Filled 0 at (bit_of_label s label) s out.old out.new }
{
    for t in 0..s {
        out[at + t] = (label >> (s - 1 - t)) % 2;
    }
}

// A data carrier's point: its label bits from `at` on, and whether it is a point of the constellation. Bits are stored either way: no branch goes by the data.
pub fn hear_data(
    out: &mut [u8],
    at: usize,
    levels: &[u32],
    labels: &[u8],
    bits: usize,
    s: usize,
    turned: bool,
    x: f32,
    y: f32,
) -> bool
    requires { PointTables bits s levels.now labels.now × (at + bits ≤ length out.old) }
    ensures { DataHeard bits turned x y at result out.old out.new }
{
    let constellation = Constellation {
        levels,
        labels,
        bits,
        s,
    };
    let p = constellation.point_labels(turned, x, y);
    put_label(out, at, s, p.first);
    if bits == 1 {
        return p.given;
    }
    put_label(out, at + s, s, p.second);
    p.given
}

// Whether (x, y) is the one point that a pilot of this sign has.
pub fn hear_pilot(sign: f32, turned: bool, x: f32, y: f32) -> bool
    ensures { result ≡ pilot_heard sign turned x y }
{
    let p = pilot_point(sign, turned);
    (bits_of(x) == bits_of(p.first)) & (bits_of(y) == bits_of(p.second))
}
