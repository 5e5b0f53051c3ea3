// Points from half labels (document 01 step 6), and the quarter turn of step 8.
ghost use Rattle.std.specs.Prelude.{◌≡◌, ◌+◌, ◌≤◌, T, length, get_or};
ghost use Rattle.std.specs.Float.{nan};
ghost use Rattle.laws.specs.Test.{among};
ghost use Rattle.laws.specs.Filled.{Filled};
ghost use Rattle.chain.specs.Plan.{axis_counts};
ghost use Rattle.mapper.specs.Levels.{carrier_levels, point_of};
ghost use Rattle.mapper.specs.Mapped.{LevelTable, PointAsked, negated_level, turned_point, axis_of};

// Two levels: exact whole numbers, zero with a clear sign bit.
#[derive(Clone, Copy)]
pub struct Point {
    pub first: f32,
    pub second: f32,
}

// The levels of one, two and three bits of an axis, by their label with the first bit highest. A static: a read takes one row of it.
static LEVELS: [[f32; 8]; 3] = [
    [-1.0, 1.0, 0.0, 0.0, 0.0, 0.0, 0.0, 0.0],
    [-3.0, -1.0, 3.0, 1.0, 0.0, 0.0, 0.0, 0.0],
    [-7.0, -5.0, -1.0, -3.0, 7.0, 5.0, 1.0, 3.0],
];

// The levels of s bits: one table for a symbol, so that no branch goes by its data.
pub fn level_table(s: usize) -> [f32; 8]
    requires { T (among axis_counts s) }
    ensures { LevelTable s result }
{
    LEVELS[s - 1]
}

// The point of data carrier c of the stream whose half labels stand from `from` on.
pub fn data_point(halves: &[u8], table: &[f32], bits: usize, from: usize, c: usize) -> Point
    requires { PointAsked halves.now table.now bits from c }
    ensures { result ≡ point_of (carrier_levels bits (λ m. get_or halves.now (from + m) 0) c) }
{
    if bits == 1 {
        return Point {
            first: table[usize::from(halves[from + c])],
            second: 0.0,
        };
    }
    let m = from + 2 * c;
    Point {
        first: table[usize::from(halves[m])],
        second: table[usize::from(halves[m + 1])],
    }
}

// The negative of a level. Zero keeps its clear sign bit; any other float has its sign bit flipped, which rounds nothing.
fn negated(x: f32) -> f32
    ensures { result ≡ negated_level x }
{
    if x == 0.0 { 0.0 } else { -x }
}

// (a, b) becomes (-b, a).
pub fn turn(p: Point) -> Point
    ensures { result ≡ turned_point p }
{
    Point {
        first: negated(p.second),
        second: p.first,
    }
}

// Puts a point's two floats into a slice.
pub fn put_point(out: &mut [f32], at: usize, p: Point)
    requires { at + 2 ≤ length out.old }
    ensures { Filled nan at (axis_of p) 2 out.old out.new }
{
    out[at] = p.first;
    out[at + 1] = p.second;
}
