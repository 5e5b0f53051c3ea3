// What one subcarrier of one stream carries in a symbol (document 01, the one-subcarrier question).
ghost use Rattle.std.specs.Prelude.{◌≡◌, ◌<◌, ◌≤◌, length};
ghost use Rattle.mapper.specs.Levels.{whole, carrier_levels, point_of};
ghost use Rattle.subcarriers.specs.Subcarriers.{pilots_of, Inside};
ghost use Rattle.pilots.specs.Pilots.{pilot_sign};
ghost use Rattle.settings.specs.Settings.{check_of, plan_for, Right};
ghost use Rattle.frame.specs.Points.{labels_of};
ghost use Rattle.frame.specs.Asked.{InFrame};
ghost use Rattle.query.specs.Query.{carried_of, not_in_frame, query_of};

use chain::plan::{MOST_HALVES, axis_bits};
use frame::points::labels_of;
use mapper::point::{Point, data_point, level_table};
use pilots::pilot::{pilot_sign, polarity_bit};
use settings::settings::{RawSettings, Refusal, Settings, check, plan_of};
use subcarriers::layout::{Use, is_outside, use_of};
use symbols::count::symbols_of;

// Nothing, a pilot's sign, or a data point before the upper half's turn.
#[derive(Clone, Copy)]
pub enum Carried {
    Silent,
    Pilot(f32),
    Data(Point),
}

// The pilot at place q.
fn pilot_at(s: Settings, n: usize, i: usize, q: usize) -> f32
    requires { Right s × ((n ≤ 32768) × ((i < (plan_for s).streams) × (q < pilots_of (plan_for s).width))) }
    ensures { result ≡ whole (pilot_sign (plan_for s).width (plan_for s).streams s.format n i q) }
{
    let plan = plan_of(s);
    let polarity = polarity_bit(s.format as usize, n);
    pilot_sign(plan.width, plan.streams, n, i, q, polarity)
}

// The point of data carrier c.
fn point_at(payload: &[u8], s: Settings, n: usize, i: usize, c: usize) -> Point
    requires { InFrame s payload.now n × ((i < (plan_for s).streams) × (c < (plan_for s).carriers)) }
    ensures { result ≡ point_of (carrier_levels (plan_for s).bits (labels_of s payload.now n i) c) }
{
    let mut halves = [0u8; MOST_HALVES];
    labels_of(&mut halves, payload, s, n);
    let plan = plan_of(s);
    let bits_of_axis = axis_bits(plan.bits);
    let table = level_table(bits_of_axis);
    data_point(
        &halves,
        &table,
        plan.bits,
        i * (plan.block / bits_of_axis),
        c,
    )
}

// What is carried where symbol, stream and subcarrier are in the frame.
fn carried_at(payload: &[u8], s: Settings, n: usize, i: usize, subcarrier: i32) -> Carried
    requires { InFrame s payload.now n × ((i < (plan_for s).streams) × Inside (plan_for s).width subcarrier) }
    ensures { result ≡ carried_of s payload.now n i subcarrier }
{
    let used = use_of(s.width as usize, subcarrier);
    match used {
        Use::Silent => Carried::Silent,
        Use::Pilot(q) => Carried::Pilot(pilot_at(s, n, i, q)),
        Use::Data(c) => Carried::Data(point_at(payload, s, n, i, c)),
    }
}

// Whether symbol, stream or subcarrier is not in the frame.
fn not_in_frame(s: Settings, symbol: u64, stream: u64, subcarrier: i32) -> bool
    requires { Right s }
    ensures { result ≡ not_in_frame s symbol stream subcarrier }
{
    let plan = plan_of(s);
    (symbol >= symbols_of(s))
        | ((stream >= plan.streams as u64) | is_outside(plan.width, subcarrier))
}

// The public one-subcarrier call.
pub fn subcarrier(
    raw: RawSettings,
    payload: &[u8],
    symbol: u64,
    stream: u64,
    subcarrier: i32,
) -> Result<Carried, Refusal>
    ensures { result ≡ query_of (check_of raw) payload.now symbol stream subcarrier }
{
    let checked = check(raw);
    let Ok(s) = checked else {
        return Err(checked.unwrap_err());
    };
    let short = payload.len() < s.length as usize;
    if short {
        return Err(Refusal::Source);
    }
    let elsewhere = not_in_frame(s, symbol, stream, subcarrier);
    if elsewhere {
        return Err(Refusal::Place);
    }
    Ok(carried_at(payload, s, symbol as usize, stream as usize, subcarrier))
}
