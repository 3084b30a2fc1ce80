// Whole bytes of a dithered row, but not its last.
ghost use Rattle.std.specs.Prelude.{◌≡◌, true, length};
ghost use Rattle.rules.specs.Rule.{dither};
ghost use Rattle.rules.specs.Internal.Row.{Plain};
ghost use Rattle.dither.specs.Internal.Row.{Clear, ResidualFree, Filling, Bytes};

use crate::dots::{Neighbours, RowStart, dither_dots, next_to};
use rules::threshold_row_bytes;

// Whether each sample is black or white. The loop runs to its end, so that the compiler can take many at once; a fold's closure would say
// no more than it.
fn plain(samples: &[u8]) -> bool
    ensures { result ≡ true → Plain samples.now 0 (length samples.now) }
{
    let mut plain = true;
    for sample in samples {
        plain &= *sample % 255 == 0;
    }
    plain
}

// Whether each number is 0, likewise. Crate `diffusion` asks it of another number: one function for both would be public in `rules`, with a
// contract that is longer than this loop.
fn clear(work: &[i16]) -> bool
    ensures { result ≡ true → Clear work.now }
{
    let mut clear = true;
    for number in work {
        clear &= *number == 0;
    }
    clear
}

// Whether samples of row y are black or white and nothing is handed to them from their neighbours, nor from the numbers of `work` above
// them: dithering alters none of them, and keeps no residual.
fn residual_free(y: usize, near: Neighbours, samples: &[u8], work: &[i16]) -> bool
    ensures { result ≡ true → ResidualFree y near samples.now work.now }
{
    y != 0 && near.left == 128 && near.corner == 128 && clear(work) && plain(samples)
}

// As many bytes as the output has, of a part of a row. Answers the residual above the last dot, plus 128.
pub(crate) fn dither_bytes(
    start: RowStart,
    samples: &[u8],
    out: &mut [u8],
    corner: u32,
    work: &mut [i16],
) -> u32
    requires { Filling start.width start.column (length samples.now) (length out.old) corner (length work.old) }
    ensures { Bytes dither start.width start.y start.column samples.now corner work.old (length out.old)
        out.new result work.new }
{
    let count = out.len();
    if count == 0 {
        return corner;
    }
    let n = 8 * count;
    let end = start.column + n + 1;
    let mut near = next_to(start, corner, work);
    if residual_free(start.y, near, &samples[..n], &work[start.column..end]) {
        threshold_row_bytes(128, samples, out);
        return 128;
    }
    for (k, to) in out.iter_mut().enumerate() {
        let from = 8 * k;
        let byte = RowStart {
            column: start.column + from,
            ..start
        };
        let d = dither_dots(byte, &samples[from..from + 8], 0, near, work);
        near = d.next;
        *to = d.digits as u8;
    }
    near.corner
}
