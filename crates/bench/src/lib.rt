// Threshold and dithering, sessions, whole making and writing, for tools/bench, which times them: crate bench_c exports them to C. They are
// no part of include/wbmp.h.
#![tactic(auto)]

ghost use Rattle.std.specs.Prelude.{◌≡◌};
ghost use Rattle.error.specs.Answer.{code_of, written};
ghost use Rattle.options.specs.declared.Quantize.TheVariants.{Threshold};
ghost use Rattle.quantize.specs.Whole.{quantized};
ghost use Rattle.bench.specs.Made.{Made, Dithered};

use error::Result;

mod sessions;

pub use sessions::{bench_make, bench_make_list, bench_read_list, bench_write};

pub(crate) fn number(w: Result<usize>) -> u8
    ensures { result ≡ code_of (written w) }
{
    w.map_or_else(|e| e.kind.number(), |_| 0)
}

pub fn bench_threshold(width: u32, height: u32, gray: &[u8], threshold: u8, out: &mut [u8]) -> u8
    ensures { Made (quantized (Threshold threshold) width height gray.now 0) result out.old out.new }
{
    number(quantize::threshold_bits(width, height, gray, threshold, out))
}

// `work` has at least 2 × width numbers.
pub fn bench_dither(width: u32, height: u32, gray: &[u8], work: &mut [i16], out: &mut [u8]) -> u8
    ensures { Dithered width height gray.now result out.old out.new
        work.old work.new }
{
    number(quantize::dither_bits(width, height, gray, work, out))
}
