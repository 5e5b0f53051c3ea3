// The strict reader started and stepped over the symbols of a frame, whose points stand in one slice, symbol by symbol.
ghost use Rattle.std.specs.Prelude.{◌≡◌, length};
ghost use Rattle.frame_steps.specs.WholeFrame.{read_frame_of, read_frame_into};
ghost use Rattle.frame_steps.specs.Statements.{ReadsFrame};
ghost use Rattle.frame_steps.specs.Asked.{FrameAsked};
ghost use Rattle.frame_reader.specs.Asked.{FrameLeft};

use frame::points::floats_of;
use frame_steps::steps::{FrameRefusal, read_symbols};
use reader_state::state::{OpenSettings, Reader, start};
use settings::settings::{Refusal, Settings, check};
use symbols::count::symbols_of;

// All symbols read into bytes apart, which are copied where every symbol was accepted.
fn read_into(
    s: Settings,
    reader: Reader,
    points: &[f32],
    apart: &mut [u8],
    payload: &mut [u8],
) -> Result<u8, FrameRefusal>
    requires { FrameAsked s reader points.now payload.old × (65535 ≡ length apart.old) }
    ensures { FrameLeft reader points.now result payload.old payload.new }
{
    let seed = read_symbols(reader, symbols_of(s), floats_of(s), points, apart)?;
    let bytes = s.length as usize;
    payload[..bytes].copy_from_slice(&apart[..bytes]);
    Ok(seed)
}

// The bytes apart, so that a frame refused late leaves the payload as it was.
fn read_apart(
    s: Settings,
    reader: Reader,
    points: &[f32],
    payload: &mut [u8],
) -> Result<u8, FrameRefusal>
    requires { FrameAsked s reader points.now payload.old }
    ensures { FrameLeft reader points.now result payload.old payload.new }
{
    let mut apart = [0u8; 65535];
    read_into(s, reader, points, &mut apart, payload)
}

// The public call: the frame's payload and seed, or a refusal that changes nothing: the settings', 8, and then the symbols' 9, 10, 11.
pub fn read_frame(o: OpenSettings, points: &[f32], payload: &mut [u8]) -> Result<u8, FrameRefusal>
    ensures answered { result ≡ read_frame_of o points.now (length payload.old) }
    ensures left { payload.new ≡ read_frame_into o points.now payload.old }
    ensures exactly { ReadsFrame o points.now result payload.old payload.new }
{
    let checked = check(o.into());
    let Ok(s) = checked else {
        return Err(FrameRefusal::Refused(checked.unwrap_err()));
    };
    let small = (points.len() < symbols_of(s) as usize * floats_of(s))
        | (payload.len() < s.length as usize);
    if small {
        return Err(FrameRefusal::Refused(Refusal::Room));
    }
    read_apart(s, start(o).state, points, payload)
}
