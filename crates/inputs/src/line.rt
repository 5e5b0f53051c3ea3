// The encoders' input line from any place on: histories, service, payload, tail and pad.
ghost use Rattle.std.specs.Prelude.{◌+◌, length, get_or};
ghost use Rattle.laws.specs.Filled.{Filled};
ghost use Rattle.chain.specs.DataBits.{payload_bit, coder_input};
ghost use Rattle.chain.specs.Encoder.{with_history};
ghost use Rattle.inputs.specs.Asked.{InputsAsked, MixAsked, ScrambledAsked, mixed_bit};

use chain::plan::MOST_LINE;
use data_bits::bits::{add_bits, below_mark, data_bits};
use scrambler::outputs::scrambler_outputs;
use scrambler::register::jump;

// All are scrambled; then the tail, from `tail` to `pad`, is set to zero.
fn mix(line: &mut [u8], raw: &[u8], outputs: &[u8], tail: usize, pad: usize)
    requires { MixAsked line.old raw.now outputs.now tail pad }
    ensures { Filled 0 0 (mixed_bit (λ j. get_or raw.now j 0) (λ j. get_or outputs.now j 0) tail pad) (length line.old) line.old line.new }
{
    add_bits(line, raw, outputs);
    line[tail..pad].fill(0);
}

// The encoders' inputs from data bit `start` on.
fn scrambled_inputs(line: &mut [u8], payload: &[u8], encoders: usize, seed: u8, start: usize)
    requires { ScrambledAsked line.old payload.now encoders seed start }
    ensures { Filled 0 0 (λ t. coder_input (payload_bit payload.now) (length payload.now) encoders seed (start + t))
        (length line.old) line.old line.new }
{
    let mut raw = [0u8; 2184];
    let mut outputs = [0u8; MOST_LINE];
    let count = line.len();
    let bytes = payload.len();
    let skip = start % 8;
    data_bits(&mut raw, payload, start / 8, (skip + count + 7) / 8);
    scrambler_outputs(&mut outputs[..count], jump(seed, start));
    let tail = below_mark(16 + 8 * bytes, start, count);
    let pad = below_mark(16 + 8 * bytes + 6 * encoders, start, count);
    mix(line, &raw[skip..], &outputs, tail, pad);
}

// The inputs, six zeros for each encoder before the frame's first, from place `first` on.
pub fn coder_inputs(line: &mut [u8], payload: &[u8], encoders: usize, seed: u8, first: usize)
    requires { InputsAsked line.old payload.now encoders seed first }
    ensures { Filled 0 0 (λ j. with_history (coder_input (payload_bit payload.now) (length payload.now) encoders seed) encoders (first + j))
        (length line.old) line.old line.new }
{
    let head = below_mark(6 * encoders, first, line.len());
    let start = first + head - 6 * encoders;
    line[..head].fill(0);
    scrambled_inputs(&mut line[head..], payload, encoders, seed, start);
}
