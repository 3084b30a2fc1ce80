// A plane's bytes as a file has them.
ghost use Rattle.std.specs.Prelude.{◌≡◌, ◌++◌, ◌≤◌, length, drop};
ghost use Rattle.error.specs.Answer.{gives, written};
ghost use Rattle.error.specs.Emits.{Emits};
ghost use Rattle.image.specs.Geometry.{plane_bytes};
ghost use Rattle.image.specs.Internal.Parts.{mask_last, clear_rows};
ghost use Rattle.image.specs.Rows.{source_row, to_native, wire_bits};

use crate::geometry::row_start;
use crate::packed::clear_ends;
use crate::rows::{copy, copy_at, invert, invert_from, mask_last};
use crate::{PixelFormat, PlaneLayout};
use error::{Refusal, Result, WbmpError};

// Row y of a plane, or zeros where it is not wholly there. A row goes by its place: whether the plane has it is a question about the place.
fn take_row(plane: &[u8], stride: usize, y: usize, row: &mut [u8])
    ensures { row.new ≡ source_row (length row.old) stride plane.now y }
{
    let n = row.len();
    match row_start(plane.len(), stride, y, n) {
        Some(at) => copy(&plane[at..at + n], row),
        None => row.fill(0),
    }
}

fn to_native(format: PixelFormat, row: &mut [u8])
    ensures { row.new ≡ to_native format row.old }
{
    if format == PixelFormat::MonoWhite {
        invert(row);
    }
}

fn wire_row(plane: &[u8], stride: usize, y: usize, format: PixelFormat, mask: u8, row: &mut [u8])
    ensures { row.new
        ≡ mask_last mask (to_native format (source_row (length row.old) stride plane.now y)) }
{
    take_row(plane, stride, y, row);
    to_native(format, row);
    mask_last(row, mask);
}

// All rows of a plane, each from its own place, by index: after a loop over `chunks_exact_mut`, as after `iter_mut().zip`, nothing is known
// of `out`.
fn wire_rows(plane: &[u8], layout: PlaneLayout, stride: usize, format: PixelFormat, out: &mut [u8])
    requires { plane_bytes layout.width layout.height ≤ length out.old }
    ensures { out.new
        ≡ wire_bits format layout.width layout.height stride plane.now
        ++ drop (plane_bytes layout.width layout.height) out.old }
{
    let row = layout.stride;
    let mask = layout.last_byte_pad_mask;
    for y in 0..layout.height {
        let at = y as usize * row;
        wire_row(
            plane,
            stride,
            y as usize,
            format,
            mask,
            &mut out[at..at + row],
        );
    }
}

// All rows of a plane without gaps at once. Unlike in reading, the padding is cleared in both formats.
fn wire_packed(plane: &[u8], layout: PlaneLayout, format: PixelFormat, at: usize, out: &mut [u8])
    requires plane_len { length plane.now ≡ plane_bytes layout.width layout.height }
    requires out_len { length out.old ≡ plane_bytes layout.width layout.height }
    ensures { out.new ≡ clear_rows layout.width layout.height (to_native format plane.now) }
{
    // A `match`: a closure for each format would be named at one place alone.
    match format {
        PixelFormat::MonoBlack => copy_at(plane, at, out),
        PixelFormat::MonoWhite => invert_from(plane, out),
    }
    clear_ends(out, layout.width, 0);
}

// `wire_bits` for an output that starts at index `at` of a file: where its blocks are stored hangs on it, their bytes do not.
pub fn wire_bits_at(
    plane: &[u8],
    width: u32,
    height: u32,
    stride: usize,
    format: PixelFormat,
    at: usize,
    out: &mut [u8],
) -> Result<usize>
    ensures { Emits (gives (wire_bits format width height stride plane.now)) (written result) out.old
        out.new }
{
    let layout = PlaneLayout::new(width, height);
    let total = layout.total_bytes;
    if out.len() < total {
        return Err(WbmpError::new(Refusal::OutputTooShort, 0));
    }
    if stride == layout.stride && total <= plane.len() {
        wire_packed(&plane[..total], layout, format, at, &mut out[..total]);
    } else {
        wire_rows(plane, layout, stride, format, out);
    }
    Ok(total)
}

// Rows end to end without gaps, 1 for white and padding 0; nothing is written where they do not fit.
pub fn wire_bits(
    plane: &[u8],
    width: u32,
    height: u32,
    stride: usize,
    format: PixelFormat,
    out: &mut [u8],
) -> Result<usize>
    ensures { Emits (gives (wire_bits format width height stride plane.now)) (written result) out.old
        out.new }
{
    wire_bits_at(plane, width, height, stride, format, 0, out)
}
