// Headers read from pieces of a file: the bytes go to the header's reader, one by one or in runs, and those of extension fields to a lent
// buffer too.
#![tactic(auto)]

ghost use Rattle.std.specs.Prelude.{◌≡◌, ◌+◌, ◌≤◌, [], length};
ghost use Rattle.header.specs.Settings.{settings};
ghost use Rattle.header_pieces.specs.Internal.Head.{HasRead, TellsFields, TellsEnd, Heads, is_kept, Keeps};
ghost use Rattle.header_pieces.specs.Internal.HeadRun.{KeepsRun, RunsOn};

use error::{Result, WbmpError};
use ext::MAX_EXT_FIELD_BYTES;
use header::{HeaderMode, ParsedHeader};
use header_reader::{FieldsSeen, HeaderReader, HeaderStep};
use std::ops::ControlFlow;

// The least length of an extension buffer, 4,118: no fields are longer, since the last pair starts at 4,095 at most and has a header byte
// and 7 and 15 bytes.
pub const EXTENSION_BYTES: usize = MAX_EXT_FIELD_BYTES - 1 + (1 + 7 + 15);

// A header whose last byte is still to come: its reader, how many bytes were taken, and how many extension bytes among them. Only `new` and
// `feed_header` make one.
#[derive(Clone, Copy)]
pub struct HeadReading {
    reader: HeaderReader,
    at: usize,
    kept: usize,
}

// What a piece does: the header goes on behind it, or ended with so many of its bytes.
pub type HeadFed = ControlFlow<(ParsedHeader, usize), HeadReading>;

impl HeadReading {
    pub fn new(mode: HeaderMode) -> HeadReading
        ensures { HasRead (settings mode) [] result }
    {
        HeadReading {
            reader: HeaderReader::new(mode),
            at: 0,
            kept: 0,
        }
    }

    // The extension fields, once their last byte was taken.
    pub fn fields(self) -> FieldsSeen
        ensures { TellsFields self result }
    {
        self.reader.fields()
    }

    // The input ends before the header does.
    pub fn ended(self) -> WbmpError
        ensures { TellsEnd self result }
    {
        self.reader.ended()
    }
}

// Whether a byte at the offset `at + i` is to be kept: one of the fields, and before the place of its refusal.
fn is_kept(inside: bool, at: usize, i: usize, step: Result<HeaderStep>) -> bool
    ensures { result ≡ is_kept inside (at + i) step }
{
    match step {
        Ok(ControlFlow::Continue(_)) => inside,
        Ok(ControlFlow::Break(_)) => false,
        Err(e) => inside && at < e.offset && i < e.offset - at,
    }
}

// How far into a piece a reader has come, and how many extension bytes are kept by then. No HeadReading: its `at` counts within the file.
#[derive(Clone, Copy)]
struct HeadRun {
    taken: usize,
    kept: usize,
    reader: HeaderReader,
}

// Stores a run of bytes behind those kept, where it has room, and says how many are kept then. The count stands beside the buffer, which
// is lent anew with each piece.
fn keep_run(ext: &mut [u8], kept: usize, run: &[u8]) -> usize
    ensures { KeepsRun kept run.now ext.old result ext.new }
{
    let end = kept.saturating_add(run.len());
    if ext.len() < end {
        return kept;
    }
    // By index: `copy_from_slice` is a call of memmove, for which an archive for C would ask from outside.
    for i in 0..run.len() {
        ext[kept + i] = run[i];
    }
    end
}

// The same for a byte that is wanted.
fn keep(ext: &mut [u8], kept: usize, byte: u8, wanted: bool) -> usize
    ensures { Keeps kept byte wanted ext.old result ext.new }
{
    if wanted {
        keep_run(ext, kept, &[byte])
    } else {
        kept
    }
}

// Takes and stores the bytes from byte `from` of a piece on that the reader takes at once. The place stays beside the piece, since the
// contract speaks of the whole piece.
fn run_on(reader: HeaderReader, kept: usize, from: usize, piece: &[u8], ext: &mut [u8]) -> HeadRun
    requires { from ≤ length piece.now }
    ensures { RunsOn reader kept from piece.now ext.old result ext.new }
{
    let run = reader.run(&piece[from..]);
    let taken = from + run.taken;
    HeadRun {
        taken,
        kept: keep_run(ext, kept, &piece[from..taken]),
        reader: run.next,
    }
}

// Feeds a piece, up to the header's last byte or a refusal. Over a shorter extension buffer none of it is taken.
pub fn feed_header(reading: HeadReading, piece: &[u8], ext: &mut [u8]) -> Result<HeadFed>
    ensures { Heads reading piece.now ext.old result ext.new }
{
    if ext.len() < EXTENSION_BYTES {
        return Ok(ControlFlow::Continue(reading));
    }
    let mut run = HeadRun {
        taken: 0,
        kept: reading.kept,
        reader: reading.reader,
    };
    // No iterator: a byte by itself or many at once.
    while run.taken < piece.len() {
        let byte = piece[run.taken];
        let inside = run.reader.in_fields();
        let step = run.reader.step(byte);
        let wanted = is_kept(inside, reading.at, run.taken, step);
        let kept = keep(ext, run.kept, byte, wanted);
        let taken = run.taken + 1;
        match step? {
            ControlFlow::Continue(next) => run = run_on(next, kept, taken, piece, ext),
            ControlFlow::Break(header) => return Ok(ControlFlow::Break((header, taken))),
        }
    }
    Ok(ControlFlow::Continue(HeadReading {
        reader: run.reader,
        at: reading.at.wrapping_add(run.taken),
        kept: run.kept,
    }))
}
