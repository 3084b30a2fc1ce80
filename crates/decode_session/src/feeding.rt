// Feeding a session that no test of the call's order has answered: the stage after the call, and what it took and wrote.
ghost use Rattle.std.specs.Prelude.{◌≡◌, ◌≤◌, length};
ghost use Rattle.ext.specs.Kinds.{longest_fields};
ghost use Rattle.decode_session.specs.Internal.Stages.{FeedsPlanes, Begins, FeedsHead};

use crate::Stage;
use body_pieces::{BodyPlace, feed_body};
use decoder::MAX_READ_FRAMES;
use error::{Fed, Result};
use ext::ExtFields;
use header::ParsedHeader;
use header_pieces::{HeadReading, feed_header};
use image::PlaneLayout;
use options::DecodeOptions;
use std::ops::ControlFlow;

// A header, built anew from its numbers, for speed: a copy of the whole carries its padding bytes from call to call, and calls of one byte
// then take 1.09 times as long. Calls of 4,096 bytes, whose bar is 1.1 of our whole call, take as long either way.
fn rebuilt(h: ParsedHeader) -> ParsedHeader
    ensures { result ≡ h }
{
    ParsedHeader {
        width: h.width,
        height: h.height,
        data_offset: h.data_offset,
        fix_header: h.fix_header,
        ext_fields: h.ext_fields.map(|f| ExtFields {
            ext_type: f.ext_type,
            start: f.start,
            len: f.len,
            pairs: f.pairs,
        }),
    }
}

// The body behind the first `from` bytes of a piece. Its place stays beside the piece here and in `feed_first`: the contract speaks of the
// whole piece, as the plain machine's call does.
pub(crate) fn feed_planes(
    options: DecodeOptions,
    header: ParsedHeader,
    whole: usize,
    begun: usize,
    from: usize,
    piece: &[u8],
    out: &mut [u8],
) -> (Stage, Fed)
    requires { from ≤ length piece.now }
    ensures { FeedsPlanes options header whole begun from piece.now out.old
        result.0 result.1 out.new }
{
    let place = BodyPlace {
        width: header.width,
        height: header.height,
        whole,
        begun,
    };
    let body = feed_body(options.format, MAX_READ_FRAMES, place, &piece[from..], out);
    let stage = Stage::Body {
        header: rebuilt(header),
        whole: body.whole,
        begun: body.begun,
    };
    let fed = Fed {
        taken: from + body.taken,
        written: body.written,
    };
    (stage, fed)
}

// Behind the header, which ended with the first `from` bytes of a piece: the limits, then the body.
fn feed_first(
    options: DecodeOptions,
    header: ParsedHeader,
    from: usize,
    piece: &[u8],
    out: &mut [u8],
) -> Result<(Stage, Fed)>
    requires { from ≤ length piece.now }
    ensures { Begins options header from piece.now out.old result out.new }
{
    let layout = PlaneLayout::new(header.width, header.height);
    let plane = layout.total_bytes as u64;
    options.check(header.width, header.height, plane, header.data_offset)?;
    Ok(feed_planes(options, header, 0, 0, from, piece, out))
}

// A piece for a session in the header.
pub(crate) fn feed_head(
    options: DecodeOptions,
    reading: HeadReading,
    piece: &[u8],
    out: &mut [u8],
    ext: &mut [u8],
) -> Result<(Stage, Fed)>
    requires { longest_fields ≤ length ext.old }
    ensures { FeedsHead options reading piece.now out.old ext.old result out.new ext.new }
{
    match feed_header(reading, piece, ext)? {
        ControlFlow::Continue(next) => {
            let taken = piece.len();
            Ok((Stage::Header(next), Fed { taken, written: 0 }))
        }
        ControlFlow::Break((header, taken)) => feed_first(options, header, taken, piece, out),
    }
}
