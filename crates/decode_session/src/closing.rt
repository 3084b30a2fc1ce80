// Closing a session.
ghost use Rattle.decode_session.specs.Internal.Stages.{Finishes};

use crate::Stage;
use decoder::MAX_READ_FRAMES;
use error::{Refusal, Result, WbmpError};

// What closing answers: the refusal met, that of a file which ends in its header or its first plane, or how many planes are whole.
pub(crate) fn finish(stage: Stage) -> Result<u32>
    ensures { Finishes stage result }
{
    match stage {
        Stage::Header(reading) => Err(reading.ended()),
        Stage::Body {
            header,
            whole: 0,
            ..
        } => Err(WbmpError::new(Refusal::PlaneTooShort, header.data_offset)),
        Stage::Body { whole, .. } => Ok(whole.min(MAX_READ_FRAMES) as u32),
        Stage::Refused { refusal, .. } => Err(refusal),
    }
}
