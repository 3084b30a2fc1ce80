// The kernels as the engine calls them. Each asks nothing, as no public function does: it tests once a call what its kernel asks, and where
// that does not hold it alters nothing. The corner and the work buffer stay two parameters: the engine keeps the one in its place, and is
// lent the other anew with each call.
ghost use Rattle.std.specs.Prelude.{◌≡◌, length};
ghost use Rattle.rules.specs.Rule.{dither};
ghost use Rattle.rules.specs.Internal.Entry.{TrueExactly, Where};
ghost use Rattle.dither.specs.Internal.Kernels.{Diffusing, Diffuses};
ghost use Rattle.dither.specs.Internal.Row.{Filling, Bytes};

use crate::dots::{RowStart, dither_dots, next_to};
use crate::row::dither_bytes;
use rules::packs;

// The digits of the begun byte after a part of a row, and the residual above its last dot, plus 128.
#[derive(Clone, Copy)]
pub struct RowDots {
    pub digits: u32,
    pub corner: u32,
}

// Whether n samples from a column on stay within the row, and the residuals within their range and the work buffer.
fn diffusing(start: RowStart, n: usize, begun: u32, corner: u32, work: usize) -> bool
    ensures { TrueExactly (Diffusing start.width start.column n begun corner work) result }
{
    n != 0
        && packs(begun, n)
        && start.column <= start.width
        && n <= start.width - start.column
        && start.width <= work
        && corner <= 256
}

// Whether there are samples for so many bytes, which do not end the row, and a number of work for each column.
fn filling(start: RowStart, samples: usize, count: usize, corner: u32, work: usize) -> bool
    ensures { TrueExactly (Filling start.width start.column samples count corner work) result }
{
    count <= samples / 8
        && start.column < start.width
        && count <= (start.width - start.column - 1) / 8
        && start.width <= work
        && corner <= 256
}

// The digits of `begun`, and then a dot for each sample of a part of a row. Answers `begun` and the corner where the samples do not
// stay within the row or a byte, or the numbers within their range and the work buffer.
pub fn dither_row_dots(
    start: RowStart,
    gray: &[u8],
    begun: u32,
    corner: u32,
    work: &mut [i16],
) -> RowDots
    ensures { Where (Diffusing start.width start.column (length gray.now) begun corner (length work.old))
        (Diffuses start.width start.y start.column gray.now begun corner work.old result work.new)
        ((result.digits ≡ begun) × ((result.corner ≡ corner) × (work.new ≡ work.old))) }
{
    if diffusing(start, gray.len(), begun, corner, work.len()) {
        let near = next_to(start, corner, work);
        let d = dither_dots(start, gray, begun, near, work);
        return RowDots {
            digits: d.digits,
            corner: d.next.corner,
        };
    }
    RowDots {
        digits: begun,
        corner,
    }
}

// As many bytes as the output has, of a part of a row. Answers the residual above the last dot, plus 128. Alters nothing and answers
// the corner where there are fewer samples, the row ends with them, or the work buffer is shorter than the row.
pub fn dither_row_bytes(
    start: RowStart,
    samples: &[u8],
    out: &mut [u8],
    corner: u32,
    work: &mut [i16],
) -> u32
    ensures { Where (Filling start.width start.column (length samples.now) (length out.old) corner
        (length work.old)) (Bytes dither start.width start.y start.column samples.now corner work.old
        (length out.old) out.new result work.new)
        ((result ≡ corner) × ((out.new ≡ out.old) × (work.new ≡ work.old))) }
{
    if filling(start, samples.len(), out.len(), corner, work.len()) {
        return dither_bytes(start, samples, out, corner, work);
    }
    corner
}
