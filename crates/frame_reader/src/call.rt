// The reading of a whole frame as C callers see it: the seed, or the refusal's number negated.
ghost use Rattle.std.specs.Prelude.{◌≡◌, length};
ghost use Rattle.frame_steps.specs.WholeFrame.{read_frame_of, read_frame_into};
ghost use Rattle.frame_reader.specs.Result.{frame_result};

use crate::read::read_frame;
use conversions::refused;
use frame_steps::steps::FrameRefusal;
use reader_state::state::OpenSettings;
use settings::settings::Refusal;

pub fn read_frame_call(settings: OpenSettings, points: &[f32], payload: &mut [u8]) -> i64
    ensures value { result ≡ frame_result (read_frame_of settings points.now (length payload.old)) }
    ensures payload_after { payload.new ≡ read_frame_into settings points.now payload.old }
{
    match read_frame(settings, points, payload) {
        Ok(seed) => i64::from(seed),
        Err(FrameRefusal::BadPoint(_, _, _)) => refused(Refusal::Point),
        Err(FrameRefusal::BadSymbol(_, r)) => refused(r),
        Err(FrameRefusal::Refused(r)) => refused(r),
    }
}
