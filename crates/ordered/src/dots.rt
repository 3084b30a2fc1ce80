// The dots of a part of a row.
ghost use Rattle.std.specs.Prelude.{◌≡◌, true, leb, length};
ghost use Rattle.rules.specs.Bits.{bit, appended};
ghost use Rattle.rules.specs.Ordered.{bound, known_side};
ghost use Rattle.rules.specs.Ordered;
ghost use Rattle.rules.specs.Internal.Entry.{TrueExactly, Where};
ghost use Rattle.ordered.specs.Internal.Sides.{Matching, ordered_bit};

use crate::table::known_side;
use rules::packs;

// The number of a table at a column and a row of the image.
fn cell_at(table: &[u8; 64], side: u8, x: usize, y: usize) -> u8
    requires { known_side side ≡ true }
    ensures { result ≡ Ordered.cell side table.now x y }
{
    let s = side as usize;
    let i = s * (y % s) + x % s;
    table[i]
}

// The dot of a sample where n is the number: 1 where gray × side × side is at least 256 n + 128.
fn ordered_dot(side: u8, n: u8, gray: u8) -> u32
    requires { known_side side ≡ true }
    ensures { result ≡ bit (leb (bound side n) gray) }
{
    let s = side as u32;
    u32::from(256 * n as u32 + 128 <= gray as u32 * (s * s))
}

// The digits of `begun`, and then a dot for each sample, from a column of row y on. The side stands beside the table: `Quantize::Ordered`
// keeps it as it was given, and a struct of both, with the fact that it is known, would be made anew in each call.
pub(crate) fn ordered_dots(
    table: &[u8; 64],
    side: u8,
    y: usize,
    column: usize,
    gray: &[u8],
    begun: u32,
) -> u32
    requires { Matching side column (length gray.now) begun }
    ensures { result ≡ appended begun (ordered_bit side table.now y column gray.now) (length gray.now) }
{
    // No fold: its closure would need a fact for each sample, that the digits so far fit, which the loop's invariant has.
    let mut digits = begun;
    for (i, sample) in gray.iter().enumerate() {
        let n = cell_at(table, side, column + i, y);
        digits = digits * 2 + ordered_dot(side, n, *sample);
    }
    digits
}

// Whether n samples from a column on can be compared with the numbers of this side: a known side, and columns that can be counted.
fn matching(side: u8, column: usize, n: usize, begun: u32) -> bool
    ensures { TrueExactly (Matching side column n begun) result }
{
    packs(begun, n) && known_side(side) && column <= usize::MAX - n
}

// The digits of `begun`, and then a dot for each sample, from a column of row y on. Answers `begun` where the side is unknown, there
// are more than eight samples, the digits are more than a byte's, or a column passes 64 bits.
pub fn ordered_row_dots(
    table: &[u8; 64],
    side: u8,
    y: usize,
    column: usize,
    gray: &[u8],
    begun: u32,
) -> u32
    ensures { Where (Matching side column (length gray.now) begun)
        (result ≡ appended begun (ordered_bit side table.now y column gray.now) (length gray.now))
        (result ≡ begun) }
{
    if matching(side, column, gray.len(), begun) {
        ordered_dots(table, side, y, column, gray, begun)
    } else {
        begun
    }
}
