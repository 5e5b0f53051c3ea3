// Seed, descrambling, and whether service, tail and pad are right.
ghost use Rattle.std.specs.Prelude.{◌≡◌, ℕ, ◌+◌, ◌*◌, ◌<◌, ◌≤◌, length, get_or};
ghost use Rattle.laws.specs.Filled.{Filled};
ghost use Rattle.chain.specs.Scrambler.{seed_of};
ghost use Rattle.deframer.specs.Deframed.{plain_bit, framed, PlainAsked, FramedAsked};
ghost use Rattle.deframer.specs.Asked.{Counted};

use chain::plan::MOST_DATA;
use data_bits::bits::{add_bits, below_mark};
use scrambler::outputs::scrambler_outputs;
use scrambler::register::jump;

// The seed whose first seven outputs are a frame's first inputs: they are the register seven steps on, and 120 more complete the period.
pub fn seed_of(inputs: &[u8]) -> u8
    requires { (7 ≤ length inputs.now) × ((d : ℕ) → d < 7 → get_or inputs.now d 0 < 2) }
    ensures { (result ≡ seed_of (λ d. get_or inputs.now d 0)) × (result < 128) }
{
    let mut register = 0;
    for &input in &inputs[..7] {
        register = 2 * register + input;
    }
    jump(register, 120)
}

// The plain bits of a symbol's inputs, from a scrambler state on.
pub fn descramble(plain: &mut [u8], inputs: &[u8], state: u8)
    requires { PlainAsked plain.old inputs.now state }
    ensures { Filled 0 0 (plain_bit state (λ d. get_or inputs.now d 0)) (length plain.old) plain.old plain.new }
{
    let mut outputs = [0u8; MOST_DATA];
    scrambler_outputs(&mut outputs[..plain.len()], state);
    add_bits(plain, inputs, &outputs);
}

// Bits added up: zero exactly when each is.
fn nonzero(bits: &[u8]) -> usize
    requires { length bits.now ≤ 2160 }
    ensures { Counted (λ d. get_or bits.now d 0) 0 (length bits.now) result × (result ≤ 550800) }
{
    bits.iter().map(|&bit| usize::from(bit)).sum()
}

// Whether service, tail and pad bits of a symbol are right.
pub fn is_framed(
    inputs: &[u8],
    plain: &[u8],
    bytes: usize,
    encoders: usize,
    start: usize,
    count: usize,
) -> bool
    requires { FramedAsked inputs.now plain.now bytes encoders start count }
    ensures { result ≡ framed bytes encoders start count (λ d. get_or inputs.now d 0) (λ d. get_or plain.now d 0) }
{
    let service = below_mark(16, start, count);
    let tail = below_mark(16 + 8 * bytes, start, count);
    let pad = below_mark(16 + 8 * bytes + 6 * encoders, start, count);
    let wrong = nonzero(&plain[..service]) + nonzero(&inputs[tail..pad]);
    wrong + nonzero(&plain[pad..count]) == 0
}
