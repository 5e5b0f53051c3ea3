// The points of one symbol, written in runs between the pilots.
ghost use Rattle.std.specs.Prelude.{◌≡◌, ◌*◌, ◌<◌};
ghost use Rattle.std.specs.Float.{nan};
ghost use Rattle.laws.specs.Filled.{Filled};
ghost use Rattle.chain.specs.Labels.{halves_of};
ghost use Rattle.mapper.specs.Levels.{carrier_levels, point_of};
ghost use Rattle.mapper.specs.Mapped.{PointAsked};
ghost use Rattle.subcarriers.specs.Runs.{half_runs};
ghost use Rattle.modulator.specs.Symbol.{turned_if, stream_floats, symbol_float};
ghost use Rattle.modulator.specs.Asked.{own_half, halves_in, RunAsked, CarriersFilled, pilot_point, StreamAsked, SegmentFilled};
ghost use Rattle.modulator.specs.Asked.{StreamFilled, SymbolAsked};

use chain::plan::{Plan, axis_bits};
use mapper::point::{Point, data_point, level_table, put_point, turn};
use pilots::pilot::{pilot_sign, polarity_bit};
use subcarriers::layout::{Run, places_of, run_of, runs_of};

// A pilot's point as it is sent: its sign on the first level before the turn.
pub fn pilot_point(sign: f32, turned: bool) -> Point
    ensures { result ≡ pilot_point sign turned }
{
    let p = Point {
        first: sign,
        second: 0.0,
    };
    if turned { turn(p) } else { p }
}

// What the points of stream i in symbol n are made of: half labels from place `from` on, their levels, the polarity of the symbol's pilots.
// They are written from place `base` on.
#[derive(Clone, Copy)]
struct Stream<'a> {
    plan: Plan,
    halves: &'a [u8],
    table: &'a [f32],
    polarity: u8,
    n: usize,
    i: usize,
    from: usize,
    base: usize,
}

impl Stream<'_> {
    // A data carrier's point as it is sent.
    fn sent_point(&self, c: usize, turned: bool) -> Point
        requires { PointAsked self.now.halves.now self.now.table.now self.now.plan.bits self.now.from c }
        ensures { result ≡ point_of (turned_if turned (carrier_levels self.now.plan.bits (own_half self.now) c)) }
    {
        let p = data_point(self.halves, self.table, self.plan.bits, self.from, c);
        if turned { turn(p) } else { p }
    }

    // The points of a run's data carriers, from place `to` on.
    fn put_carriers(&self, out: &mut [f32], to: usize, run: Run)
        requires { RunAsked out.old self.now to run }
        ensures { CarriersFilled self.now to run out.old out.new }
    {
        for k in 0..run.count {
            put_point(
                out,
                to + 2 * k,
                self.sent_point(run.carrier + k, run.turned),
            );
        }
    }

    // Run r of the stream's points, and the pilot after it.
    fn put_run(&self, out: &mut [f32], r: usize)
        requires { StreamAsked out.old self.now × ((self.now.polarity < 2) × (r < 2 * half_runs self.now.plan.width)) }
        ensures { SegmentFilled self.now r out.old out.new }
    {
        let run = run_of(self.plan.width, r);
        let to = self.base + 2 * run.place;
        self.put_carriers(out, to, run);
        if let Some(pilot) = run.pilot {
            let sign = pilot_sign(
                self.plan.width,
                self.plan.streams,
                self.n,
                self.i,
                pilot,
                self.polarity,
            );
            put_point(out, to + 2 * run.count, pilot_point(sign, run.turned));
        }
    }

    // All the stream's points.
    fn put_points(&self, out: &mut [f32])
        requires { StreamAsked out.old self.now × (self.now.polarity < 2) }
        ensures { StreamFilled self.now out.old out.new }
    {
        for r in 0..runs_of(self.plan.width) {
            self.put_run(out, r);
        }
    }
}

// The points of symbol n of a frame from its half labels, stream by stream.
pub fn symbol_points(out: &mut [f32], halves: &[u8], plan: Plan, format: usize, n: usize)
    requires { SymbolAsked out.old halves.now plan n }
    ensures { Filled nan 0 (symbol_float plan (halves_in halves.now (halves_of plan)) format n) (plan.streams * stream_floats plan.width) out.old out.new }
{
    let s = axis_bits(plan.bits);
    let table = level_table(s);
    let polarity = polarity_bit(format, n);
    let count = plan.block / s;
    let floats = 2 * places_of(plan.width);
    for i in 0..plan.streams {
        let stream = Stream {
            plan,
            halves,
            table: &table,
            polarity,
            n,
            i,
            from: i * count,
            base: i * floats,
        };
        stream.put_points(out);
    }
}
