// One table for all streams: where the label bits of stream 0 stand among the coded bits. Stream i's stand i·s places on, and its labels begin
// at its rotation.
ghost use Rattle.std.specs.Prelude.{◌≡◌, ℕ, ◌*◌, ◌≤◌, length, get_or};
ghost use Rattle.laws.specs.Filled.{Filled};
ghost use Rattle.chain.specs.Interleaver.{block_of, source};
ghost use Rattle.sources.specs.Sources.{coded_slot, label_source, Laid, Grid, SourceAsked, SourcesAsked, ParsedAsked, ParseAsked, TableAsked};

use chain::plan::{Plan, axis_bits};

// The bit of stream 0 that goes to label place r. The numbers are constants, so that no division in the table's loop is by a variable.
fn source_of<const COLUMNS: u16, const ROWS: u16, const S: u16>(r: u16) -> u16
    requires { SourceAsked COLUMNS ROWS S r }
    ensures { (width bits : ℕ) → Laid COLUMNS ROWS S width bits → result ≡ source width bits 0 r }
{
    COLUMNS * (r % ROWS / S * S + (r + r / ROWS) % S) + r / ROWS
}

fn stream_sources<const COLUMNS: u16, const ROWS: u16, const S: u16>(table: &mut [u16])
    requires grid { Grid COLUMNS ROWS S }
    requires room { COLUMNS * ROWS ≤ length table.old }
    ensures { (width bits : ℕ) → Laid COLUMNS ROWS S width bits
        → Filled 0 0 (λ r. source width bits 0 r) (COLUMNS * ROWS) table.old table.new }
{
    for r in 0..COLUMNS * ROWS {
        table[r as usize] = source_of::<COLUMNS, ROWS, S>(r);
    }
}

// 18 columns of 6·B rows at 40 MHz, 13 of 4·B at 20.
#[tactic(auto, using(chain::proofs::Counts::bits_other), unfolding(chain::specs::Interleaver::block_of))]
fn sources_at(table: &mut [u16], width: usize, bits: usize)
    requires { SourcesAsked table.old width bits }
    ensures { Filled 0 0 (λ r. source width bits 0 r) (block_of width bits) table.old table.new }
{
    match (width, bits) {
        (40, 1) => stream_sources::<18, 6, 1>(table),
        (40, 2) => stream_sources::<18, 12, 1>(table),
        (40, 4) => stream_sources::<18, 24, 2>(table),
        (40, _) => stream_sources::<18, 36, 3>(table),
        (_, 1) => stream_sources::<13, 4, 1>(table),
        (_, 2) => stream_sources::<13, 8, 1>(table),
        (_, 4) => stream_sources::<13, 16, 2>(table),
        _ => stream_sources::<13, 24, 3>(table),
    }
}

// The parser: bit k of stream 0 among the coded bits.
fn parsed<const S: u16, const ENCODERS: u16>(streams: u16, k: u16) -> u16
    requires { ParsedAsked S streams ENCODERS k }
    ensures { result ≡ coded_slot S streams ENCODERS 0 k }
{
    1296 * (k / S % ENCODERS) + streams * S * (k / (ENCODERS * S)) + k % S
}

// A table of stream bits made one of coded bits.
fn parse<const S: u16, const ENCODERS: u16>(table: &mut [u16], streams: u16)
    requires { ParseAsked table.old S streams ENCODERS }
    ensures { Filled 0 0 (λ r. coded_slot S streams ENCODERS 0 (get_or table.old r 0)) (length table.old) table.old table.new }
{
    for entry in table {
        *entry = parsed::<S, ENCODERS>(streams, *entry);
    }
}

pub fn label_sources(table: &mut [u16], plan: Plan)
    requires { TableAsked table.old plan }
    ensures { Filled 0 0 (λ r. label_source plan r) plan.block table.old table.new }
{
    sources_at(table, plan.width, plan.bits);
    let streams = plan.streams as u16;
    let table = &mut table[..plan.block];
    match (axis_bits(plan.bits), plan.encoders) {
        (1, 1) => parse::<1, 1>(table, streams),
        (2, 1) => parse::<2, 1>(table, streams),
        (_, 1) => parse::<3, 1>(table, streams),
        (1, _) => parse::<1, 2>(table, streams),
        (2, _) => parse::<2, 2>(table, streams),
        _ => parse::<3, 2>(table, streams),
    }
}
