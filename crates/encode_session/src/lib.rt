// A making session: gray samples come in pieces, and the bytes of the file go out in pieces.
#![tactic(auto)]

ghost use Rattle.std.specs.Prelude.{◌*◌, ◌≡◌, true, length};
ghost use Rattle.rules.specs.Rule.{Rule, enough_work};
ghost use Rattle.error.specs.Answer.{written};
ghost use Rattle.error.specs.Emits.{Emits};
ghost use Rattle.encode_session.specs.Model.{opening, header};
ghost use Rattle.encode_session.specs.Session.{ChecksOpening, Opens, Feeds, Closes};
ghost use Rattle.encode_session.specs.Session.{TellsClosed, TellsFrames};

use error::{Fed, Refusal, Result, WbmpError};
use ext_write::PairList;
use options::{EncodeOptions, MAX_MADE_FRAMES};
use quantize::Quantizer;

// How many numbers of work serve a card of so many dots a row under any rule; only dithering wants them.
pub fn work_numbers(width: u32) -> usize
    ensures { (result ≡ 2 * width) × ((rule : Rule) → enough_work rule width result ≡ true) }
{
    2 * (width as usize)
}

// An opened session; only `open` makes one.
#[derive(Clone, Copy)]
pub struct EncodeSession {
    quantizer: Quantizer,
    // Open or closed. An Option of the quantizer would be no plainer: a closed session still tells its frames.
    live: bool,
}

// The tests before the header is written; refusals have place 0. They are the first two of a scan's too; a function for two tests would be
// no plainer.
fn check_opening(width: u32, height: u32, options: EncodeOptions, work: usize) -> Result<()>
    ensures { ChecksOpening options width height work result }
{
    if width == 0 || height == 0 {
        return Err(WbmpError::new(Refusal::ZeroDimension, 0));
    }
    quantize::check_rule(options.quantize, width, work)
}

// The header at the front of the lent output, if the rule and so many numbers of work serve.
fn write_opening<P: PairList + Copy>(
    width: u32,
    height: u32,
    options: EncodeOptions,
    text: &[u8],
    pairs: P,
    work: usize,
    out: &mut [u8],
) -> Result<usize>
    ensures { Emits (header (opening options width height text.now (P.lengths pairs)) work)
        (written result) out.old out.new }
{
    check_opening(width, height, options, work)?;
    header::write_header_ext(width, height, options.ext, text, pairs, options.strict, out)
}

impl EncodeSession {
    // Writes the header, and answers its length. The work buffer is only measured; feeding calls are lent it again. A refused opening
    // hands back a session too, a closed one, so the answer stands beside it.
    pub fn open<P: PairList + Copy>(
        width: u32,
        height: u32,
        options: EncodeOptions,
        text: &[u8],
        pairs: P,
        work: &[i16],
        out: &mut [u8],
    ) -> (EncodeSession, Result<usize>)
        ensures { Opens (opening options width height text.now (P.lengths pairs)) (length work.now)
            result.0 result.1 out.old out.new }
    {
        let answer = write_opening(width, height, options, text, pairs, work.len(), out);
        let session = EncodeSession {
            quantizer: Quantizer::new(options.quantize, width, height, MAX_MADE_FRAMES),
            live: answer.is_ok(),
        };
        (session, answer)
    }

    // Takes the most samples whose finished bytes fit the lent output, none past 16 frames. A refused call leaves the session as it was.
    #[tactic(auto, using(crate::proofs::FeedCorrect::feed_steps))]
    pub fn feed(&mut self, samples: &[u8], work: &mut [i16], out: &mut [u8]) -> Result<Fed>
        ensures { Feeds self.old samples.now out.old work.old result self.new out.new work.new }
    {
        if !self.live {
            return Err(WbmpError::new(Refusal::SessionClosed, 0));
        }
        if !self.quantizer.serves(work.len()) {
            return Err(WbmpError::new(Refusal::BufferTooShort, 0));
        }
        Ok(self.quantizer.run(samples, out, work))
    }

    pub fn is_closed(self) -> bool
        ensures { TellsClosed self result }
    {
        !self.live
    }

    // How many frames are done.
    pub fn frames(self) -> u32
        ensures { TellsFrames self result }
    {
        (MAX_MADE_FRAMES as usize).saturating_sub(self.quantizer.frames_left()) as u32
    }

    // Inside a frame, or before the first one ended, closing is refused and the session stays open.
    pub fn close(&mut self) -> Result<()>
        ensures { Closes self.old result self.new }
    {
        if !self.live {
            return Err(WbmpError::new(Refusal::SessionClosed, 0));
        }
        if !self.quantizer.whole_frames(MAX_MADE_FRAMES) {
            return Err(WbmpError::new(Refusal::GrayTooShort, 0));
        }
        self.live = false;
        Ok(())
    }
}
