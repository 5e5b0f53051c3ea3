// The half labels of a symbol, stream by stream.
ghost use Rattle.std.specs.Prelude.{◌≡◌, ◌+◌, ◌*◌, ◌/◌, ◌%◌, ◌<◌, ◌≤◌, length, get_or};
ghost use Rattle.laws.specs.Filled.{Filled};
ghost use Rattle.chain.specs.Interleaver.{rotation};
ghost use Rattle.chain.specs.DataBits.{payload_bit, coder_input};
ghost use Rattle.chain.specs.Labels.{half_label, halves_of};
ghost use Rattle.chain.specs.Plan.{Fits, groups_of};
ghost use Rattle.coding.specs.Halves.{half_at, half_in, HalfAsked, HalfRunAsked, HalvesAsked, HalfStreamAsked, HalvesFilled, LabelsAsked};

use chain::plan::{MOST_BLOCK, MOST_CODED, MOST_LINE, Plan, axis_bits};
use inputs::line::coder_inputs;
use puncturing::coded::coded_bits;
use sources::sources::label_sources;

// Where the label bits of one stream stand among the coded bits: `shift` places after those of the table, `axis` bits for a half label.
#[derive(Clone, Copy)]
struct StreamBits<'a> {
    coded: &'a [u8],
    table: &'a [u16],
    axis: usize,
    shift: usize,
}

impl StreamBits<'_> {
    // The coded bit for a place of the table.
    fn bit(&self, r: usize) -> u8
        requires { (r < length self.now.table.now) × (get_or self.now.table.now r 0 + self.now.shift < length self.now.coded.now) }
        ensures { result ≡ get_or self.now.coded.now (get_or self.now.table.now r 0 + self.now.shift) 0 % 2 }
    {
        self.coded[usize::from(self.table[r]) + self.shift] % 2
    }

    // Half label m, the first bit the highest.
    fn half(&self, m: usize) -> u8
        requires { HalfAsked self.now.coded.now self.now.table.now self.now.axis self.now.shift m }
        ensures { result ≡ half_at self.now.coded.now self.now.table.now self.now.axis self.now.shift m }
    {
        if self.axis == 1 {
            return self.bit(m);
        }
        if self.axis == 2 {
            return self.bit(2 * m) * 2 + self.bit(2 * m + 1);
        }
        self.bit(3 * m) * 4 + self.bit(3 * m + 1) * 2 + self.bit(3 * m + 2)
    }

    // Half labels from one of them on.
    fn put(&self, halves: &mut [u8], from: usize)
        requires { HalfRunAsked halves.old self.now.coded.now self.now.table.now self.now.axis self.now.shift from }
        ensures { Filled 0 0 (λ m. half_at self.now.coded.now self.now.table.now self.now.axis self.now.shift (from + m))
            (length halves.old) halves.old halves.new }
    {
        for m in 0..halves.len() {
            halves[m] = self.half(from + m);
        }
    }
}

// By how many carriers a stream is rotated.
pub fn rotated_carriers(width: usize, stream: usize) -> usize
    requires { stream < 4 }
    ensures { result ≡ (stream * 2 % 3 + 3 * (stream / 3)) * rotation width }
{
    let turns = stream * 2 % 3 + 3 * (stream / 3);
    if width == 40 { turns * 29 } else { turns * 11 }
}

// Half labels of a number of carriers: two of each, one where a label is one bit.
fn halves_of(bits: usize, carriers: usize) -> usize
    requires { carriers ≤ 108 }
    ensures { (bits < 2 → result ≡ carriers) × (2 ≤ bits → result ≡ 2 * carriers) }
{
    if bits < 2 { carriers } else { 2 * carriers }
}

// Stream i's half labels: the table's, from the stream's rotation on and round.
fn stream_halves(halves: &mut [u8], coded: &[u8], table: &[u16], plan: Plan, i: usize)
    requires { HalfStreamAsked halves.old coded.now table.now plan i }
    ensures { Filled 0 0 (half_in plan coded.now i) (halves_of plan) halves.old halves.new }
{
    let axis = axis_bits(plan.bits);
    let bits = StreamBits {
        coded,
        table,
        axis,
        shift: i * axis,
    };
    let first = halves_of(plan.bits, rotated_carriers(plan.width, i));
    let rest = halves.len() - first;
    bits.put(&mut halves[..rest], first);
    bits.put(&mut halves[rest..], 0);
}

// All streams' half labels from a symbol's coded bits.
fn symbol_halves(halves: &mut [u8], coded: &[u8], plan: Plan)
    requires { HalvesAsked halves.old coded.now plan }
    ensures { HalvesFilled plan (half_in plan coded.now) plan.streams halves.old halves.new }
{
    let mut table = [0u16; MOST_BLOCK];
    label_sources(&mut table, plan);
    let count = halves_of(plan.bits, plan.carriers);
    let streams = plan.streams;
    for i in 0..streams {
        stream_halves(
            &mut halves[i * count..(i + 1) * count],
            coded,
            &table,
            plan,
            i,
        );
    }
}

// Puncturing groups of one encoder in a symbol.
pub fn groups_of(plan: Plan) -> usize
    requires { Fits plan }
    ensures { result ≡ groups_of plan }
{
    plan.coded / (plan.encoders * plan.kept)
}

// The half labels of symbol n of a frame: half m of stream i at i·count + m, with count halves a stream.
pub fn half_labels(halves: &mut [u8], payload: &[u8], seed: u8, plan: Plan, n: usize)
    requires { LabelsAsked halves.old payload.now seed plan n }
    ensures { HalvesFilled plan (half_label plan (coder_input (payload_bit payload.now) (length payload.now) plan.encoders seed) n)
        plan.streams halves.old halves.new }
{
    let mut line = [0u8; MOST_LINE];
    let mut coded = [0u8; MOST_CODED];
    let encoders = plan.encoders;
    let inputs = plan.dbps + 6 * encoders;
    coder_inputs(&mut line[..inputs], payload, encoders, seed, n * plan.dbps);
    coded_bits(&mut coded, &line, encoders, plan.kept, groups_of(plan));
    symbol_halves(halves, &coded, plan);
}
