// A reading session: a file comes in pieces, and the dots of its frames go out in pieces.
#![tactic(auto)]

ghost use Rattle.std.specs.Prelude.{length};
ghost use Rattle.options.specs.Limits.{decoding};
ghost use Rattle.decode_session.specs.Model.{opened, opening};
ghost use Rattle.decode_session.specs.Session.{Opens, Feeds, Closes};
ghost use Rattle.decode_session.specs.Internal.Stages.{ChecksBuffer};

use crate::closing::finish;
use crate::feeding::{feed_head, feed_planes};
use error::{Fed, Refusal, Result, WbmpError};
use header::ParsedHeader;
use header_pieces::HeadReading;
use header_reader::FieldsSeen;
use options::DecodeOptions;

mod closing;
mod feeding;
mod queries;

// The least length of an extension buffer: no fields are longer.
pub const EXTENSION_BYTES: usize = header_pieces::EXTENSION_BYTES;

// Where a reading stands; named in public so that structs of other crates can hold a session.
#[derive(Clone, Copy)]
pub enum Stage {
    // In the header.
    Header(HeadReading),
    // In the body: whole frames, and bytes of the begun one. No BodyPlace: the sizes would stand here twice.
    Body {
        header: ParsedHeader,
        whole: usize,
        begun: usize,
    },
    // A refusal that a call has met, and the fields that were known before it.
    Refused {
        refusal: WbmpError,
        known: FieldsSeen,
    },
}

// An opened session; only `open` makes one.
#[derive(Clone, Copy)]
pub struct DecodeSession {
    options: DecodeOptions,
    stage: Stage,
    // Open or closed. A closed stage would be no plainer: a closed session still tells its header, fields and frames.
    live: bool,
}

// An extension buffer that is lent has room for any fields.
fn check_buffer(ext: &[u8]) -> Result<()>
    ensures { ChecksBuffer (length ext.now) result }
{
    if ext.len() < EXTENSION_BYTES {
        return Err(WbmpError::new(Refusal::BufferTooShort, 0));
    }
    Ok(())
}

impl DecodeSession {
    // A refused opening hands back a session too, a closed one, so the answer stands beside it.
    pub fn open(options: DecodeOptions, ext: &[u8]) -> (DecodeSession, Result<()>)
        ensures { Opens (opening (decoding options) (length ext.now)) result.0 result.1 (opened (decoding options)) }
    {
        let answer = check_buffer(ext);
        let session = DecodeSession {
            options,
            stage: Stage::Header(HeadReading::new(options.mode.into())),
            live: answer.is_ok(),
        };
        (session, answer)
    }

    // A piece of the file. Extension bytes go to the lent extension buffer, plane bytes to the lent output. A refusal of the file is kept;
    // a call that is refused for another reason leaves the session as it was.
    pub fn feed(&mut self, piece: &[u8], out: &mut [u8], ext: &mut [u8]) -> Result<Fed>
        ensures { Feeds self.old piece.now out.old ext.old result self.new out.new ext.new }
    {
        if !self.live {
            return Err(WbmpError::new(Refusal::SessionClosed, 0));
        }
        match self.stage {
            Stage::Refused { refusal, .. } => Err(refusal),
            Stage::Header(reading) => {
                check_buffer(ext)?;
                let known = reading.fields();
                match feed_head(self.options, reading, piece, out, ext) {
                    Ok(next) => {
                        self.stage = next.0;
                        Ok(next.1)
                    }
                    Err(refusal) => {
                        self.stage = Stage::Refused { refusal, known };
                        Err(refusal)
                    }
                }
            }
            Stage::Body {
                header,
                whole,
                begun,
            } => {
                check_buffer(ext)?;
                let (stage, fed) = feed_planes(self.options, header, whole, begun, 0, piece, out);
                self.stage = stage;
                Ok(fed)
            }
        }
    }

    // The frame count, or the refusal of a file that ends here. Whatever the answer, the session is closed.
    pub fn close(&mut self) -> Result<u32>
        ensures { Closes self.old result self.new }
    {
        if !self.live {
            return Err(WbmpError::new(Refusal::SessionClosed, 0));
        }
        self.live = false;
        finish(self.stage)
    }
}
