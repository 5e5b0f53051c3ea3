// The inputs that a symbol's coded bits force, all encoders together.
ghost use Rattle.std.specs.Prelude.{◌≡◌, [], ◌∷◌};
ghost use Rattle.laws.specs.Filled.{Filled};
ghost use Rattle.chain.specs.Decoder.{decoded_input, decodes};
ghost use Rattle.deinterleaver.specs.Deinterleaved.{label_bit_in, coded_of};
ghost use Rattle.decoder.specs.Decoded.{histories_in, history_moved, SymbolInputsAsked};
ghost use Rattle.decoder.specs.Asked.{EncodersAsked, EncodersDone};

use chain::plan::{MOST_CODED, Plan};
use coding::labels::groups_of;
use deinterleaver::coded::symbol_coded;
use forcing::steps::decode_encoder;

// The histories after a symbol, and whether any inputs give its coded bits.
#[derive(Clone, Copy)]
pub struct Decoded {
    pub histories: [u8; 2],
    pub sound: bool,
}

// All encoders of a symbol, by their number j: coded bit y of encoder j stands at 1296·j + y.
#[tactic(auto, using(chain::proofs::Counts::encoders_most))]
fn decode_symbol(
    inputs: &mut [u8],
    coded: &[u8],
    histories: [u8; 2],
    encoders: usize,
    kept: usize,
    groups: usize,
) -> Decoded
    requires { EncodersAsked inputs.old coded.now histories encoders kept groups }
    ensures { EncodersDone (histories_in histories) (coded_of coded.now) encoders kept groups result.histories result.sound inputs.old inputs.new }
{
    let mut after = histories;
    let mut wrong: usize = 0;
    for j in 0..encoders {
        let forced = decode_encoder(
            inputs,
            coded,
            histories[j],
            kept,
            groups,
            1296 * j,
            encoders,
            j,
        );
        after[j] = forced.history;
        wrong += forced.wrong;
    }
    Decoded {
        histories: after,
        sound: wrong == 0,
    }
}

// A symbol's inputs from all streams' label bits, after the encoders' histories.
pub fn symbol_inputs(inputs: &mut [u8], bits: &[u8], plan: Plan, histories: [u8; 2]) -> Decoded
    requires { SymbolInputsAsked inputs.old bits.now histories plan }
    ensures filled { Filled 0 0 (decoded_input plan (histories_in histories) (label_bit_in plan bits.now)) plan.dbps inputs.old inputs.new }
    ensures sound_value { result.sound ≡ decodes plan (histories_in histories) (label_bit_in plan bits.now) }
    ensures histories_value { result.histories ≡ history_moved plan (histories_in histories) (decoded_input plan (histories_in histories) (label_bit_in plan bits.now)) 0 ∷ (history_moved plan (histories_in histories) (decoded_input plan (histories_in histories) (label_bit_in plan bits.now)) 1 ∷ []) }
{
    let mut coded = [0u8; MOST_CODED];
    symbol_coded(&mut coded, bits, plan);
    decode_symbol(
        inputs,
        &coded,
        histories,
        plan.encoders,
        plan.kept,
        groups_of(plan),
    )
}
