// The scrambler's outputs from a state on: one period by steps, the rest by copying.
ghost use Rattle.std.specs.Prelude.{◌<◌, length};
ghost use Rattle.laws.specs.Filled.{Filled};
ghost use Rattle.chain.specs.Scrambler.{scrambler_bit};

use crate::register::{output_of, step};

// The scrambler's outputs from a state on.
pub fn scrambler_outputs(outputs: &mut [u8], state: u8)
    requires { state < 128 }
    ensures { Filled 0 0 (λ t. scrambler_bit state t) (length outputs.old) outputs.old outputs.new }
{
    let count = outputs.len();
    let mut now_at = state;
    for t in 0..count.min(127) {
        outputs[t] = output_of(now_at);
        now_at = step(now_at);
    }
    for t in 127..count {
        outputs[t] = outputs[t - 127];
    }
}
