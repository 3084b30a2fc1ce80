// Rows of two samples: what a row hands down is two numbers.
ghost use Rattle.std.specs.Prelude.{◌≡◌, true, ◌≤◌, length};
ghost use Rattle.diffusion.specs.Internal.RowByRow.{PlaneLent, RowsWritten};
ghost use Rattle.diffusion.specs.Internal.Pairs.{LevelPair, PairDithered};

use crate::parts::{LEVEL_SUM, NONE_1, NONE_3, NONE_7, part};

// A row's byte, and the sums that it hands down.
#[derive(Drop)]
struct PairRow {
    byte: u8,
    left: u32,
    right: u32,
}

// Whether two samples are black and white, and nothing is handed to them.
fn is_level(first: u8, second: u8, left: u32, right: u32) -> bool
    ensures { result ≡ true → LevelPair first second left right }
{
    left == LEVEL_SUM && right == LEVEL_SUM && first % 255 == 0 && second % 255 == 0
}

// The row of two samples that the sums `left` and `right` are handed to. A level one waits for no row above it.
fn dither_pair(first: u8, second: u8, left: u32, right: u32) -> PairRow
    requires { (left ≤ 144) × (right ≤ 144) }
    ensures { PairDithered first second left right result }
{
    if is_level(first, second, left, right) {
        return PairRow {
            byte: 128 * (first / 128) + 64 * (second / 128),
            left: LEVEL_SUM,
            right: LEVEL_SUM,
        };
    }
    let v = first as u32 + left + NONE_7;
    let a = v % 256 + v / 256;
    let u = second as u32 + right + part(7, a);
    let b = u % 256 + u / 256;
    PairRow {
        byte: (128 * (v / 256) + 64 * (u / 256)) as u8,
        left: NONE_1 + part(5, a) + part(3, b),
        right: part(1, a) + part(5, b) + NONE_3,
    }
}

// By index: the samples and the output may be longer than the plane. Not taken in where it is called, as `plain_rows`: there black and
// white planes take 1.2 times as long.
#[inline(never)]
pub(crate) fn dither_pairs(height: usize, gray: &[u8], out: &mut [u8])
    requires { PlaneLent 2 height (length gray.now) (length out.old) }
    ensures { RowsWritten 2 height gray.now out.old height out.new }
{
    let mut left = LEVEL_SUM;
    let mut right = LEVEL_SUM;
    for y in 0..height {
        let p = dither_pair(gray[2 * y], gray[2 * y + 1], left, right);
        out[y] = p.byte;
        left = p.left;
        right = p.right;
    }
}
