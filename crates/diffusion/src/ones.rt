// Rows of one sample: 5 sixteenths of a dot's residual go down, and the other parts off the edges.
ghost use Rattle.std.specs.Prelude.{length};
ghost use Rattle.diffusion.specs.Internal.RowByRow.{PlaneLent, RowsWritten};

use crate::parts::{NONE_1, NONE_3, NONE_7, part};

// By index: the samples and the output may be longer than the plane.
pub(crate) fn dither_ones(height: usize, gray: &[u8], out: &mut [u8])
    requires { PlaneLent 1 height (length gray.now) (length out.old) }
    ensures { RowsWritten 1 height gray.now out.old height out.new }
{
    let mut rest: u32 = 128;
    for y in 0..height {
        let value = gray[y] as u32 + part(5, rest) + (NONE_1 + NONE_3 + NONE_7);
        let dot = value / 256;
        out[y] = (128 * dot) as u8;
        rest = value % 256 + dot;
    }
}
