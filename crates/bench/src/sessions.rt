// Lists of calls on sessions, and whole making and writing. The lists are those of crate replay: five numbers a call, three
// an answer.
ghost use Rattle.std.specs.Prelude.{◌≡◌};
ghost use Rattle.options.specs.Limits.{decoding};
ghost use Rattle.bench.specs.Made.{Made};
ghost use Rattle.bench.specs.Lists.{format_of, rule_of, asked, rule, planes_file, ReadsList, MakesList, MadeWhole};

use crate::number;
use decode_session::DecodeSession;
use encode_session::EncodeSession;
use image::PixelFormat;
use options::{DecodeOptions, EncodeOptions, Quantize};

// No From: bool and format both belong to other crates.
fn format_of(inverted: bool) -> PixelFormat
    ensures { result ≡ format_of inverted }
{
    if inverted {
        PixelFormat::MonoWhite
    } else {
        PixelFormat::MonoBlack
    }
}

fn reading(inverted: bool) -> DecodeOptions
    ensures { decoding result ≡ asked inverted }
{
    DecodeOptions::new().with_format(format_of(inverted))
}

// No From, for the same reason.
fn rule_of(dithered: bool) -> Quantize
    ensures { result ≡ rule_of dithered }
{
    if dithered {
        Quantize::Dither
    } else {
        Quantize::Threshold(128)
    }
}

fn making(dithered: bool) -> EncodeOptions
    ensures { result ≡ rule dithered }
{
    EncodeOptions::new().with_quantize(rule_of(dithered))
}

// Reads a file by the calls of a list on a new session, and says how many were made. `ext` has at least 4,118 bytes; with fewer the
// session is closed from the start.
pub fn bench_read_list(
    inverted: bool,
    calls: &[usize],
    file: &[u8],
    out: &mut [u8],
    ext: &mut [u8],
    answers: &mut [usize],
) -> usize
    ensures { ReadsList inverted calls.now file.now out.old ext.old
        answers.old result out.new ext.new answers.new }
{
    let (mut session, _) = DecodeSession::open(reading(inverted), ext);
    replay::replay_decode(&mut session, calls, file, out, ext, answers)
}

// Makes bodies of scans by the calls of a list on a new session without fields, and says how many were made. `work` has at least 2 × width
// numbers for dithering; where opening is refused the session is closed from the start.
pub fn bench_make_list(
    width: u32,
    height: u32,
    dithered: bool,
    calls: &[usize],
    gray: &[u8],
    work: &mut [i16],
    out: &mut [u8],
    answers: &mut [usize],
) -> usize
    ensures { MakesList width height dithered calls.now gray.now work.old out.old
        answers.old result work.new out.new answers.new }
{
    let pairs: [usize; 0] = [];
    let mut head = [0u8; 32];
    let (mut session, _) = EncodeSession::open(
        width,
        height,
        making(dithered),
        b"",
        &pairs[..],
        work,
        &mut head,
    );
    replay::replay_encode(&mut session, calls, gray, work, out, answers)
}

// Makes a file of so many scans whole, and gives the number of a refusal, 0 where there is none.
pub fn bench_make(
    width: u32,
    height: u32,
    count: usize,
    gray: &[u8],
    dithered: bool,
    work: &mut [i16],
    out: &mut [u8],
) -> u8
    ensures { MadeWhole width height count dithered gray.now out.old work.old
        result out.new work.new }
{
    let pairs: [usize; 0] = [];
    number(encoder::encode_gray8(
        width,
        height,
        count,
        gray,
        making(dithered),
        b"",
        &pairs[..],
        work,
        out,
    ))
}

// Writes a file of so many planes without fields, and gives the number of a refusal, 0 where there is none.
pub fn bench_write(
    width: u32,
    height: u32,
    count: usize,
    planes: &[u8],
    stride: usize,
    inverted: bool,
    out: &mut [u8],
) -> u8
    ensures { Made (planes_file inverted width height count stride planes.now) result out.old out.new }
{
    let pairs: [usize; 0] = [];
    number(encoder::encode_images(
        width,
        height,
        count,
        planes,
        stride,
        format_of(inverted),
        making(false),
        b"",
        &pairs[..],
        out,
    ))
}
