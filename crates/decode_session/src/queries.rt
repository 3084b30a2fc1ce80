// What a caller can ask of a session, open or closed.
ghost use Rattle.decode_session.specs.Session.{Sees, TellsClosed, TellsFrames, SeesFields};

use crate::{DecodeSession, Stage};
use decoder::MAX_READ_FRAMES;
use header::ParsedHeader;
use header_reader::FieldsSeen;

impl DecodeSession {
    pub fn is_closed(self) -> bool
        ensures { TellsClosed self result }
    {
        !self.live
    }

    // The header, with its fields by their span in the file, once its last size byte was taken and nothing was refused.
    pub fn header(self) -> Option<ParsedHeader>
        ensures { Sees self result }
    {
        match self.stage {
            Stage::Body { header, .. } => Some(header),
            Stage::Header(_) | Stage::Refused { .. } => None,
        }
    }

    // How many frames are done.
    pub fn frames(self) -> u32
        ensures { TellsFrames self result }
    {
        match self.stage {
            Stage::Body { whole, .. } => whole.min(MAX_READ_FRAMES) as u32,
            Stage::Header(_) | Stage::Refused { .. } => 0,
        }
    }

    // The extension fields by their span in the file, once their last byte was taken; a call that meets a refusal takes none.
    pub fn fields(self) -> FieldsSeen
        ensures { SeesFields self result }
    {
        match self.stage {
            Stage::Header(reading) => reading.fields(),
            Stage::Body { header, .. } => FieldsSeen::Seen(header.ext_fields),
            Stage::Refused { known, .. } => known,
        }
    }
}
