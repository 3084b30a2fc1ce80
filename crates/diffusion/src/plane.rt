// A whole plane, row by row.
ghost use Rattle.diffusion.specs.Internal.Rows.{DitherPlane};

use crate::ones::dither_ones;
use crate::pairs::dither_pairs;
use crate::rows::{plain_rows, rows_from};
use image::PlaneLayout;

// Packs width × height gray samples into the plane's rows, dithered, at the front of the lent output,
// where there are so many samples, room, and `width` numbers of work. Otherwise nothing is altered. Four functions ask what is tested here:
// a struct of the slices would be taken apart in each, as one of them is written, and two of the four need no more than the height.
pub fn dither_plane(width: u32, height: u32, gray: &[u8], work: &mut [i16], out: &mut [u8])
    ensures { DitherPlane width height gray.now out.old work.old out.new
        work.new }
{
    let layout = PlaneLayout::new(width, height);
    let columns = width as usize;
    let rows = height as usize;
    if gray.len() < columns * rows
        || out.len() < layout.total_bytes
        || work.len() < columns
        || columns == 0
    {
        return;
    }
    if columns == 1 {
        dither_ones(rows, gray, out);
        return;
    }
    if columns == 2 {
        dither_pairs(rows, gray, out);
        return;
    }
    let first = plain_rows(layout, gray, out);
    if first < rows {
        rows_from(first, layout, gray, work, out);
    }
}
