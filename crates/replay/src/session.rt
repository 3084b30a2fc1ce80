// What a run asks of a session: its two calls. A closing call takes a reading's frame count, or nothing, and writes nothing.
ghost use Rattle.std.specs.Prelude.{ℕ, List, Result};
ghost use Rattle.error.specs.declared.Fed.{Fed};
ghost use Rattle.error.specs.declared.WbmpError.{WbmpError};
ghost use Rattle.encode_session.specs.Session as Making;
ghost use Rattle.decode_session.specs.Session as Reading;
ghost use Rattle.replay.specs.Encode as Encode;
ghost use Rattle.replay.specs.Decode as Decode;

use decode_session::DecodeSession;
use encode_session::EncodeSession;
use error::{Fed, Result};

pub(crate) trait Session {
    // What the buffer has beside the piece and the output of a feeding call.
    type Work;

    ghost feeds: { Self → List ℕ → List ℕ → List Self.Work → Result Fed WbmpError → Self → List ℕ → List Self.Work → Type 0 };

    ghost closes: { Self → Result Fed WbmpError → Self → Type 0 };

    fn feeding(&mut self, piece: &[u8], out: &mut [u8], work: &mut [Self::Work]) -> Result<Fed>
        ensures { feeds self.old piece.now out.old work.old result self.new out.new work.new };

    fn closing(&mut self) -> Result<Fed>
        ensures { closes self.old result self.new };
}

impl Session for EncodeSession {
    type Work = i16;

    ghost feeds = { Making.Feeds };

    ghost closes = { Encode.Closing };

    fn feeding(&mut self, piece: &[u8], out: &mut [u8], work: &mut [i16]) -> Result<Fed> {
        self.feed(piece, work, out)
    }

    fn closing(&mut self) -> Result<Fed> {
        self.close().map(|_| Fed {
            taken: 0,
            written: 0,
        })
    }
}

impl Session for DecodeSession {
    type Work = u8;

    ghost feeds = { Reading.Feeds };

    ghost closes = { Decode.Closing };

    fn feeding(&mut self, piece: &[u8], out: &mut [u8], ext: &mut [u8]) -> Result<Fed> {
        self.feed(piece, out, ext)
    }

    fn closing(&mut self) -> Result<Fed> {
        self.close().map(|frames| Fed {
            taken: frames as usize,
            written: 0,
        })
    }
}
