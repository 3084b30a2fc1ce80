// Whether bytes are a whole file, the front of one, or neither.
ghost use Rattle.std.specs.Prelude.{◌≡◌, ◌<◌, ◌≤◌, ◌+◌, ◌*◌, ◌/◌, ◌^◌, length};
ghost use Rattle.api.specs.Sniff.{sniff_length, sniff_body, sniffed, is_exact, sniff_sizes};
ghost use Rattle.api.specs.Internal.Parts.{eight_ends, AreClear, SniffedSizes, Sized};

use crate::Sniffed;
use crate::front::read_front;
use decoder::MAX_READ_FRAMES;
use image::PlaneLayout;

// The largest width and height that are taken for an image's.
pub const PROBE_MAX_DIMENSION: u32 = 16384;

// The last bytes of eight rows, from the one at an offset on, or'ed. By index: a slice for each row would serve for one byte.
fn eight_ends(body: &[u8], row: usize, at: usize) -> u8
    requires { at + 7 * row < length body.now }
    ensures { result ≡ eight_ends body.now row at }
{
    let first = body[at] | body[at + row] | body[at + 2 * row] | body[at + 3 * row];
    let second = body[at + 4 * row] | body[at + 5 * row] | body[at + 6 * row] | body[at + 7 * row];
    first | second
}

// Whether the padding of a body's whole rows is clear: the first row alone, since most other files fail there, then eight rows a turn,
// and then the others. Row by row, by `step_by` and `all`, 9x4096 takes twice as long, more than the Rust.
fn are_clear(body: &[u8], row: usize, mask: u8) -> bool
    requires { (0 < row) × (row ≤ length body.now) }
    ensures { AreClear body.now row mask (length body.now / row) result }
{
    let first = body[row - 1];
    if first & mask != first {
        return false;
    }
    let rows = body.len() / row;
    for turn in 0..rows / 8 {
        let ends = eight_ends(body, row, 8 * turn * row + (row - 1));
        if ends & mask != ends {
            return false;
        }
    }
    for y in rows / 8 * 8..rows {
        let end = body[y * row + (row - 1)];
        if end & mask != end {
            return false;
        }
    }
    true
}

fn sniff_length(plane: usize, size: usize) -> Sniffed
    requires { (0 < plane) × (plane < 2 ^ 32) }
    ensures { result ≡ sniff_length plane size }
{
    if size == plane {
        return Sniffed::Exact;
    }
    if size < plane {
        return Sniffed::Truncated;
    }
    if MAX_READ_FRAMES * plane < size || size % plane != 0 {
        return Sniffed::Neither;
    }
    Sniffed::Exact
}

fn sniff_body(width: u32, height: u32, body: &[u8]) -> Sniffed
    requires { SniffedSizes width height }
    ensures { result ≡ sniff_body width height body.now }
{
    let layout = PlaneLayout::new(width, height);
    let row = layout.stride;
    let plane = layout.total_bytes;
    let mask = layout.last_byte_pad_mask;
    let size = body.len();
    if size < row {
        return Sniffed::Neither;
    }
    let told = sniff_length(plane, size);
    if told != Sniffed::Neither && width % 8 != 0 && !are_clear(body, row, mask) {
        return Sniffed::Neither;
    }
    told
}

// What is said of a file whose header has these sizes: the numbers of a `Front`, of which `Sized` and the definition speak one by one.
fn sniff_sizes(bytes: &[u8], width: u32, height: u32, start: usize) -> Sniffed
    requires { Sized width height start (length bytes.now) }
    ensures { result ≡ sniff_sizes bytes.now width height start }
{
    if width > PROBE_MAX_DIMENSION || height > PROBE_MAX_DIMENSION {
        return Sniffed::Neither;
    }
    sniff_body(width, height, &bytes[start..])
}

// A header of 00 00 and shortest sizes, then rows with clear padding: exact with 1 to 16 whole planes, truncated short of one.
pub fn sniff(bytes: &[u8]) -> Sniffed
    ensures { result ≡ sniffed bytes.now }
{
    match read_front(bytes) {
        Some(f) => sniff_sizes(bytes, f.width, f.height, f.start),
        None => Sniffed::Neither,
    }
}

// Whether bytes are a whole file.
pub fn probe(bytes: &[u8]) -> bool
    ensures { result ≡ is_exact (sniffed bytes.now) }
{
    sniff(bytes) == Sniffed::Exact
}
