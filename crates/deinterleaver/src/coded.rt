// The coded bits of a symbol from its label bits: each label bit goes to the place that the table of the sending side reads it from.
ghost use Rattle.std.specs.Prelude.{◌+◌, length, get_or};
ghost use Rattle.laws.specs.Scattered.{Scattered};
ghost use Rattle.deinterleaver.specs.Deinterleaved.{label_bit_in, slot_of};
ghost use Rattle.deinterleaver.specs.Asked.{CodedRunAsked, CodedStreamAsked, SymbolCodedAsked, Placed};

use chain::plan::{MOST_BLOCK, Plan, axis_bits};
use coding::labels::rotated_carriers;
use sources::sources::label_sources;

// Label bits, each to its place, `shift` places on.
fn put_run(coded: &mut [u8], bits: &[u8], places: &[u16], shift: usize)
    requires { CodedRunAsked coded.old bits.now places.now shift }
    ensures { Scattered 0 (λ k. get_or places.now k 0 + shift) (λ k. get_or bits.now k 0) (length bits.now) coded.old coded.new }
{
    for r in 0..bits.len() {
        coded[usize::from(places[r]) + shift] = bits[r];
    }
}

// Stream i's label bits: the table's places from the stream's rotation on, and round.
fn stream_coded(coded: &mut [u8], bits: &[u8], table: &[u16], plan: Plan, i: usize)
    requires { CodedStreamAsked coded.old bits.now table.now plan i }
    ensures { Scattered 0 (λ r. slot_of plan i r) (λ r. label_bit_in plan bits.now i r) plan.block coded.old coded.new }
{
    let block = plan.block;
    let shift = i * axis_bits(plan.bits);
    let turn = rotated_carriers(plan.width, i) * plan.bits;
    let from = i * block;
    let (first, last) = bits[from..from + block].split_at(block - turn);
    let (before, after) = table[..block].split_at(turn);
    put_run(coded, first, after, shift);
    put_run(coded, last, before, shift);
}

// All streams' label bits: bit y of encoder j goes to 1296·j + y.
pub fn symbol_coded(coded: &mut [u8], bits: &[u8], plan: Plan)
    requires { SymbolCodedAsked coded.old bits.now plan }
    ensures { Placed plan bits.now plan.streams coded.old coded.new }
{
    let mut table = [0u16; MOST_BLOCK];
    label_sources(&mut table, plan);
    for i in 0..plan.streams {
        stream_coded(coded, bits, &table, plan, i);
    }
}
