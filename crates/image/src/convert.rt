// A plane in another format.
ghost use Rattle.std.specs.Prelude.{◌≡◌, length};
ghost use Rattle.error.specs.Answer.{gives, written};
ghost use Rattle.error.specs.Emits.{Emits};
ghost use Rattle.image.specs.Geometry.{row_bytes, plane_bytes};
ghost use Rattle.image.specs.Internal.Parts.{mask_last, clear_rows};
ghost use Rattle.image.specs.Rows.{convert_format, convert_rows, invert};

use crate::geometry::row_start;
use crate::packed::clear_ends;
use crate::rows::{copy, invert, invert_from, mask_last};
use crate::{PixelFormat, PlaneLayout};
use error::{Refusal, Result, WbmpError};

fn invert_row(row: &mut [u8], mask: u8)
    ensures { row.new ≡ mask_last mask (invert row.old) }
{
    invert(row);
    mask_last(row, mask);
}

// Rows from the top, each at its own place, up to the first that is not wholly there.
fn convert_rows(plane: &mut [u8], layout: PlaneLayout, stride: usize)
    ensures { plane.new ≡ convert_rows layout.width stride layout.height 0 plane.old }
{
    let row = layout.stride;
    for y in 0..layout.height {
        let Some(at) = row_start(plane.len(), stride, y as usize, row) else {
            return;
        };
        invert_row(&mut plane[at..at + row], layout.last_byte_pad_mask);
    }
}

// All rows of a plane without gaps at once. Lengths that go together are a clause, here and in all of this crate: each is a fact of two
// arguments, one of them `&mut`, and a struct of both would be made for one call.
fn convert_packed(plane: &mut [u8], layout: PlaneLayout)
    requires { length plane.old ≡ plane_bytes layout.width layout.height }
    ensures { plane.new ≡ clear_rows layout.width layout.height (invert plane.old) }
{
    invert(plane);
    clear_ends(plane, layout.width, 0);
}

// Rows are converted from the top, up to the first that is not wholly there; nothing is changed where the format stays the same.
pub fn convert_format(
    plane: &mut [u8],
    width: u32,
    height: u32,
    stride: usize,
    from: PixelFormat,
    to: PixelFormat,
)
    ensures { plane.new ≡ convert_format from to width height stride plane.old }
{
    if from == to {
        return;
    }
    let layout = PlaneLayout::new(width, height);
    if stride == layout.stride && layout.total_bytes <= plane.len() {
        convert_packed(&mut plane[..layout.total_bytes], layout);
    } else {
        convert_rows(plane, layout, stride);
    }
}

// A plane without gaps, written to another place of as many bytes.
fn convert_from(
    plane: &[u8],
    width: u32,
    height: u32,
    from: PixelFormat,
    to: PixelFormat,
    out: &mut [u8],
)
    requires { length plane.now ≡ length out.old }
    ensures { out.new ≡ convert_format from to width height (row_bytes width) plane.now }
{
    let layout = PlaneLayout::new(width, height);
    if from != to && plane.len() == layout.total_bytes {
        invert_from(plane, out);
        clear_ends(out, width, 0);
    } else {
        copy(plane, out);
        convert_format(out, width, height, layout.stride, from, to);
    }
}

// A plane without gaps in another format, at the front of the lent output; nothing is written where it does not fit.
pub fn into_format(
    plane: &[u8],
    width: u32,
    height: u32,
    from: PixelFormat,
    to: PixelFormat,
    out: &mut [u8],
) -> Result<usize>
    ensures { Emits (gives (convert_format from to width height (row_bytes width) plane.now)) (written result)
        out.old out.new }
{
    let n = plane.len();
    if out.len() < n {
        return Err(WbmpError::new(Refusal::OutputTooShort, 0));
    }
    convert_from(plane, width, height, from, to, &mut out[..n]);
    Ok(n)
}

// The inverted bytes of a list, at the front of the lent output; nothing is written where they do not fit.
pub fn invert_into(bytes: &[u8], out: &mut [u8]) -> Result<usize>
    ensures { Emits (gives (invert bytes.now)) (written result) out.old out.new }
{
    let n = bytes.len();
    if out.len() < n {
        return Err(WbmpError::new(Refusal::OutputTooShort, 0));
    }
    invert_from(bytes, &mut out[..n]);
    Ok(n)
}
