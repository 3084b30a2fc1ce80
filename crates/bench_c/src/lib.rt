// The functions of crate bench under C names, for tools/bench, which times them, in a static library as those of capi. They are no part of
// include/wbmp.h.
#![tactic(auto)]

ghost use Rattle.options.specs.declared.Quantize.TheVariants.{Threshold};
ghost use Rattle.quantize.specs.Whole.{quantized};
ghost use Rattle.bench.specs.Made.{Made, Dithered};
ghost use Rattle.bench.specs.Lists.{planes_file, ReadsList, MakesList, MadeWhole};

#[unsafe(no_mangle)]
pub extern "C" fn bench_threshold(
    width: u32,
    height: u32,
    gray: &[u8],
    threshold: u8,
    out: &mut [u8],
) -> u8
    ensures { Made (quantized (Threshold threshold) width height gray.now 0) result out.old out.new }
{
    bench::bench_threshold(width, height, gray, threshold, out)
}

// `work` has at least 2 × width numbers.
#[unsafe(no_mangle)]
pub extern "C" fn bench_dither(
    width: u32,
    height: u32,
    gray: &[u8],
    work: &mut [i16],
    out: &mut [u8],
) -> u8
    ensures { Dithered width height gray.now result out.old out.new
        work.old work.new }
{
    bench::bench_dither(width, height, gray, work, out)
}

// Reads a file by the calls of a list on a new session, and says how many were made. `ext` has at least 4,118 bytes; with fewer the
// session is closed from the start.
#[unsafe(no_mangle)]
pub extern "C" fn bench_read_list(
    inverted: bool,
    calls: &[usize],
    file: &[u8],
    out: &mut [u8],
    ext: &mut [u8],
    answers: &mut [usize],
) -> usize
    ensures { ReadsList inverted calls.now file.now out.old ext.old
        answers.old result out.new ext.new answers.new }
{
    bench::bench_read_list(inverted, calls, file, out, ext, answers)
}

// Makes bodies of scans by the calls of a list on a new session without fields, and says how many were made. `work` has at least 2 × width
// numbers for dithering; where opening is refused the session is closed from the start.
#[unsafe(no_mangle)]
pub extern "C" fn bench_make_list(
    width: u32,
    height: u32,
    dithered: bool,
    calls: &[usize],
    gray: &[u8],
    work: &mut [i16],
    out: &mut [u8],
    answers: &mut [usize],
) -> usize
    ensures { MakesList width height dithered calls.now gray.now work.old out.old
        answers.old result work.new out.new answers.new }
{
    bench::bench_make_list(width, height, dithered, calls, gray, work, out, answers)
}

// Makes a file of so many scans whole, and gives the number of a refusal, 0 where there is none.
#[unsafe(no_mangle)]
pub extern "C" fn bench_make(
    width: u32,
    height: u32,
    count: usize,
    gray: &[u8],
    dithered: bool,
    work: &mut [i16],
    out: &mut [u8],
) -> u8
    ensures { MadeWhole width height count dithered gray.now out.old work.old
        result out.new work.new }
{
    bench::bench_make(width, height, count, gray, dithered, work, out)
}

// Writes a file of so many planes without fields, and gives the number of a refusal, 0 where there is none.
#[unsafe(no_mangle)]
pub extern "C" fn bench_write(
    width: u32,
    height: u32,
    count: usize,
    planes: &[u8],
    stride: usize,
    inverted: bool,
    out: &mut [u8],
) -> u8
    ensures { Made (planes_file inverted width height count stride planes.now) result out.old out.new }
{
    bench::bench_write(width, height, count, planes, stride, inverted, out)
}
