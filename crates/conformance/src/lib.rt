// What all crates say together: document 01's cards P1 to P12 as one table, files that are written or made, read back and sniffed, and the
// tender's condition 3 about lists of calls. The two functions here make such lists on both sessions, so that the claim speaks of calls of
// code.
#![tactic(auto)]

ghost use Rattle.std.specs.Prelude.{[]};
ghost use Rattle.options.specs.Limits.{decoding};
ghost use Rattle.encode_session.specs.Model.{opening};
ghost use Rattle.conformance.specs.Calls.{MakesCard, ReadsCard};

use decode_session::DecodeSession;
use encode_session::EncodeSession;
use error::{Fed, Result};
use header::ParsedHeader;
use options::{DecodeOptions, EncodeOptions};

// What the calls on an encode session answer.
#[derive(Drop)]
struct CardMade {
    header: Result<usize>,
    feeding: Result<Fed>,
    closing: Result<()>,
}

// Opens a session for a card without text, feeds it and closes it.
fn make_card(
    width: u32,
    height: u32,
    options: EncodeOptions,
    samples: &[u8],
    work: &mut [i16],
    head: &mut [u8],
    out: &mut [u8],
) -> CardMade
    ensures { MakesCard (opening options width height [] []) samples.now work.old head.old
        out.old result work.new head.new out.new }
{
    let none: &[usize] = &[];
    let (mut session, header) = EncodeSession::open(width, height, options, b"", none, work, head);
    CardMade {
        header,
        feeding: session.feed(samples, work, out),
        closing: session.close(),
    }
}

// What the calls on a decode session answer.
#[derive(Drop)]
struct CardRead {
    opening: Result<()>,
    feeding: Result<Fed>,
    closing: Result<u32>,
    seen: Option<ParsedHeader>,
}

// Opens a session, feeds it, closes it and asks for the header.
fn read_card(options: DecodeOptions, piece: &[u8], out: &mut [u8], ext: &mut [u8]) -> CardRead
    ensures { ReadsCard (decoding options) piece.now out.old ext.old result out.new
        ext.new }
{
    let (mut session, opening) = DecodeSession::open(options, ext);
    CardRead {
        opening,
        feeding: session.feed(piece, out, ext),
        closing: session.close(),
        seen: session.header(),
    }
}
