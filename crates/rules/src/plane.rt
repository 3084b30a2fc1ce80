// Whole planes of the threshold rule. The bar of speed is docs/COMPARISON.md, behind which no line of tools/bench may fall.
ghost use Rattle.std.specs.Prelude.{◌≡◌, ◌+◌, ◌*◌, ◌%◌, ◌≤◌, ◌<◌, length};
ghost use Rattle.image.specs.Geometry.{row_bytes};
ghost use Rattle.rules.specs.Internal.Kernels.{threshold_bit, threshold_bytes};
ghost use Rattle.rules.specs.Internal.Planes.{PlaneFits, plane, plane_onto, plane_where, ending_byte};

use crate::threshold::{byte, threshold_bytes, threshold_dots};
use image::PlaneLayout;

// A sample's dot as a bit of a byte. By index, as `threshold_bit` names a sample of a list.
fn dot_bit(bound: u8, gray: &[u8], at: usize, bit: u8) -> u8
    requires { at + 1 ≤ length gray.now }
    ensures { result ≡ threshold_bit bound gray.now at * bit }
{
    if bound <= gray[at] { bit } else { 0 }
}

// Rows of one sample: one flat loop, of which the compiler takes many samples at once.
fn threshold_ones(bound: u8, gray: &[u8], out: &mut [u8])
    requires { length out.old ≤ length gray.now }
    ensures { out.new ≡ plane 1 (length out.old) (threshold_bit bound gray.now) }
{
    for (i, to) in out.iter_mut().enumerate() {
        *to = dot_bit(bound, gray, i, 128);
    }
}

// Rows of two samples, likewise. As one with a const width, a loop over a byte's dots would stand inside the flat one.
fn threshold_pairs(bound: u8, gray: &[u8], out: &mut [u8])
    requires { 2 * length out.old ≤ length gray.now }
    ensures { out.new ≡ plane 2 (length out.old) (threshold_bit bound gray.now) }
{
    for (i, to) in out.iter_mut().enumerate() {
        *to = dot_bit(bound, gray, 2 * i, 128) + dot_bit(bound, gray, 2 * i + 1, 64);
    }
}

// The dots of a row's last samples as its last byte.
fn ending_byte(bound: u8, gray: &[u8]) -> u8
    requires { length gray.now ≤ 8 }
    ensures { result ≡ ending_byte bound gray.now }
{
    let dots = threshold_dots(bound, gray, 0);
    (dots << (8 - gray.len() as u32)) as u8
}

// A row that ends inside a byte, from its samples alone.
fn last_row(bound: u8, gray: &[u8], out: &mut [u8])
    requires { (0 < length gray.now % 8) × (length out.old ≡ row_bytes (length gray.now)) }
    ensures { out.new ≡ plane (length gray.now) 1 (threshold_bit bound gray.now) }
{
    let count = gray.len() / 8;
    threshold_bytes(bound, gray, &mut out[..count]);
    out[count] = ending_byte(bound, &gray[8 * count..]);
}

// Rows of three samples or four, two of them from eight samples, which reach into the next row: the number of rows written, all but the
// last two at most. Written as `for`, it makes rows of seven samples, in `wide_rows`, take 1.2 to 1.9 times as long.
fn narrow_rows(bound: u8, layout: PlaneLayout, gray: &[u8], out: &mut [u8]) -> usize
    requires { PlaneFits layout (length gray.now) (length out.old) × ((2 < layout.width) × (layout.width < 5)) }
    ensures { (result ≤ layout.height)
        × (out.new ≡ plane_onto layout.width result (threshold_bit bound gray.now) out.old) }
{
    let width = layout.width as usize;
    let height = layout.height as usize;
    let mask = layout.last_byte_pad_mask;
    let mut at: usize = 0;
    let mut y: usize = 0;
    while height - y > 2 {
        let dots = byte(bound, gray, at);
        out[y] = dots & mask;
        let next = y + 1;
        out[next] = (dots << layout.width) & mask;
        at += 2 * width;
        y += 2;
    }
    y
}

// Rows that end inside a byte, one at a time, likewise: the last byte is cut from the dots of eight samples, which reach into the next two
// rows. Written as `for`, rows of up to 17 samples take 1.2 to 1.3 times as long.
fn wide_rows(bound: u8, layout: PlaneLayout, gray: &[u8], out: &mut [u8]) -> usize
    requires { PlaneFits layout (length gray.now) (length out.old) × ((2 < layout.width) × (0 < layout.width % 8)) }
    ensures { (result ≤ layout.height)
        × (out.new ≡ plane_onto layout.width result (threshold_bit bound gray.now) out.old) }
{
    let width = layout.width as usize;
    let height = layout.height as usize;
    let mask = layout.last_byte_pad_mask;
    let count = width / 8;
    let mut at: usize = 0;
    let mut to: usize = 0;
    let mut y: usize = 0;
    while 2 < height - y {
        let end = to + count;
        threshold_bytes(bound, &gray[at..], &mut out[to..end]);
        out[end] = byte(bound, gray, at + 8 * count) & mask;
        at += width;
        to = end + 1;
        y += 1;
    }
    y
}

// The rows before the last two, at most, by the way that suits their width: the number of rows written.
fn front_rows(bound: u8, layout: PlaneLayout, gray: &[u8], out: &mut [u8]) -> usize
    requires { PlaneFits layout (length gray.now) (length out.old) × ((2 < layout.width) × (0 < layout.width % 8)) }
    ensures { (result ≤ layout.height)
        × (out.new ≡ plane_onto layout.width result (threshold_bit bound gray.now) out.old) }
{
    if layout.width < 5 {
        return narrow_rows(bound, layout, gray, out);
    }
    wide_rows(bound, layout, gray, out)
}

// Rows that end inside a byte. The last dots of the last two rows are made one by one, as too few samples follow them.
// Written as `for`, rows of three, four and nine samples take up to 1.1 times as long.
fn threshold_rows(bound: u8, layout: PlaneLayout, gray: &[u8], out: &mut [u8])
    requires { PlaneFits layout (length gray.now) (length out.old) × ((2 < layout.width) × (0 < layout.width % 8)) }
    ensures { out.new ≡ plane layout.width layout.height (threshold_bit bound gray.now) }
{
    let width = layout.width as usize;
    let height = layout.height as usize;
    let mut y = front_rows(bound, layout, gray, out);
    let mut at = y * width;
    let mut to = y * layout.stride;
    while y < height {
        let end = at + width;
        let next = to + layout.stride;
        last_row(bound, &gray[at..end], &mut out[to..next]);
        at = end;
        to = next;
        y += 1;
    }
}

// A plane that fills the output. `PlaneFits` is asked of the layout, the samples and the bytes from here on, with no struct of the three:
// rows are cut from samples and bytes at places of their own, so each function would take it apart.
fn whole_plane(bound: u8, layout: PlaneLayout, gray: &[u8], out: &mut [u8])
    requires { PlaneFits layout (length gray.now) (length out.old) }
    ensures { out.new ≡ plane layout.width layout.height (threshold_bit bound gray.now) }
{
    if layout.width % 8 == 0 {
        threshold_bytes(bound, gray, out);
    } else if layout.width == 1 {
        threshold_ones(bound, gray, out);
    } else if layout.width == 2 {
        threshold_pairs(bound, gray, out);
    } else {
        threshold_rows(bound, layout, gray, out);
    }
}

// The plane of a frame's samples, white from `bound` on, at the front of the output; nothing where samples or room are missing.
pub fn threshold_plane(bound: u8, width: u32, height: u32, gray: &[u8], out: &mut [u8])
    ensures { out.new ≡ plane_where width height (threshold_bit bound gray.now) (length gray.now)
        out.old }
{
    let layout = PlaneLayout::new(width, height);
    if gray.len() < width as usize * height as usize || out.len() < layout.total_bytes {
        return;
    }
    whole_plane(bound, layout, gray, &mut out[..layout.total_bytes]);
}
