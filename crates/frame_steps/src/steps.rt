// The symbols of a whole frame read in order, from one slice of points.
ghost use Rattle.frame_steps.specs.Asked.{SymbolsAsked, SymbolsRead};

use acceptance::accept::StepRefusal;
use reader::step::step;
use reader_state::state::Reader;
use settings::settings::Refusal;

// Why a frame is refused: the symbol, stream and subcarrier of the first point that fails; the symbol that 10 or 11 refuses; or the settings'
// refusal or 8.
#[derive(Clone, Copy)]
pub enum FrameRefusal {
    BadPoint(u64, u8, i32),
    BadSymbol(u64, Refusal),
    Refused(Refusal),
}

// The seed, or the first refusal: the symbols in order, each from the state that the one before it left.
pub fn read_symbols(
    reader: Reader,
    count: u64,
    floats: usize,
    points: &[f32],
    payload: &mut [u8],
) -> Result<u8, FrameRefusal>
    requires { SymbolsAsked reader count floats points.now payload.old }
    ensures { SymbolsRead reader points.now result payload.old payload.new }
{
    let mut state = reader;
    let mut seed: u8 = 0;
    let mut at: usize = 0;
    for n in 0..count {
        let stepped = step(state, &points[at..], payload);
        match stepped.answer {
            Ok(first) => {
                seed = first.unwrap_or(seed);
            }
            Err(StepRefusal::BadPoint(i, z)) => {
                return Err(FrameRefusal::BadPoint(n, i, z));
            }
            Err(StepRefusal::Refused(r)) => {
                return Err(FrameRefusal::BadSymbol(n, r));
            }
        }
        state = stepped.state;
        at += floats;
    }
    Ok(seed)
}
