// Rows one after the other: what a row hands down is kept in the work buffer, unless it is nothing.
ghost use Rattle.std.specs.Prelude.{◌≡◌, ◌≤◌, length, drop};
ghost use Rattle.diffusion.specs.Internal.RowByRow.{AllNone, RowGiven, RowBegun, RowNext};
ghost use Rattle.diffusion.specs.Internal.RowByRow.{PlaneLent, RowsWritten, RowsLeft, PlainRows};

use crate::parts::LEVEL_SUM;
use crate::row::dither_row;
use crate::tables::Tables;
use image::PlaneLayout;
use rules::plain_row;

// Whether nothing is handed to the row, which `level` says, and it is black and white alone: then it is written. No struct of the slices,
// as in `dither_row`. Otherwise the sums that are handed to it stand in the work buffer.
fn begin_row(level: bool, gray: &[u8], work: &mut [i16], out: &mut [u8]) -> bool
    requires { RowGiven level gray.now work.old (length out.old) }
    ensures { RowBegun level gray.now work.old result out.new work.new }
{
    if !level {
        return false;
    }
    if plain_row(gray.len(), gray, out) {
        return true;
    }
    work[..gray.len()].fill(LEVEL_SUM as i16);
    false
}

// The next row. Answers whether it hands down nothing; otherwise the work buffer has what it hands down.
fn next_row(tables: &Tables, level: bool, gray: &[u8], work: &mut [i16], out: &mut [u8]) -> bool
    requires { RowGiven level gray.now work.old (length out.old) }
    ensures { RowNext level gray.now work.old result out.new work.new }
{
    if begin_row(level, gray, work, out) {
        return true;
    }
    dither_row(tables, gray, work, out)
}

// The rows of a plane from one on that nothing is handed to. The tables are bound once. Rows are cut by index: for `chunks_exact` the
// samples and the output would first have to be cut at both ends, to the rows from `first` to the last.
pub(crate) fn rows_from(
    first: usize,
    layout: PlaneLayout,
    gray: &[u8],
    work: &mut [i16],
    out: &mut [u8],
)
    requires plane_lent { PlaneLent layout.width layout.height (length gray.now) (length out.old) × (layout.width ≤ length work.old) }
    requires rows_left { RowsLeft layout.width layout.height gray.now first out.old }
    ensures rows_written { RowsWritten layout.width layout.height gray.now out.old layout.height out.new }
    ensures work_unchanged { drop layout.width work.new ≡ drop layout.width work.old }
{
    let tables = Tables::new();
    let width = layout.width as usize;
    let mut level = true;
    for y in first..layout.height as usize {
        let at = y * width;
        let to = y * layout.stride;
        level = next_row(
            &tables,
            level,
            &gray[at..at + width],
            work,
            &mut out[to..to + layout.stride],
        );
    }
}

// How many rows from the top are black and white alone; they are written. Rows are cut by index, as in `rows_from`. Not taken in where it
// is called: there the compiler holds the bound of the loop over a row's bytes in memory, and black and white planes take 1.2 to 1.4 times
// as long.
#[inline(never)]
pub(crate) fn plain_rows(layout: PlaneLayout, gray: &[u8], out: &mut [u8]) -> usize
    requires { PlaneLent layout.width layout.height (length gray.now) (length out.old) }
    ensures { PlainRows layout.width layout.height gray.now out.old result out.new }
{
    let width = layout.width as usize;
    let height = layout.height as usize;
    for y in 0..height {
        let at = y * width;
        let to = y * layout.stride;
        if !plain_row(
            width,
            &gray[at..at + width],
            &mut out[to..to + layout.stride],
        ) {
            return y;
        }
    }
    height
}
