// Floyd and Steinberg's dithering. A residual r is held as r + 128, as a plain number: a type of its own, with the fact that it is at most
// 256, would be unwrapped for arithmetic wherever it is used.
ghost use Rattle.std.specs.Prelude.{◌≡◌, ◌+◌, ◌≤◌, ◌<◌, length};
ghost use Rattle.std.proofs.Math.IntN.{sub_ℕ};
ghost use Rattle.rules.specs.Diffusion.{value};
ghost use Rattle.dither.specs.Internal.Carry.{clamp, left_of, corner_of, over_of};
ghost use Rattle.rules.specs.Internal.Held.{Biased, DotMade};
ghost use Rattle.dither.specs.Internal.Kernels.{Parted, Reaches, Near, Diffusing, Diffused};

// A number of the work buffer, clamped to -128 ..= 128, plus 128. By `clamp`, gray rows take 1.7 to 2.3 times as long.
fn to_held(x: i16) -> u32
    ensures { Biased (clamp x) result }
{
    let v = x as i32;
    if v < -128 {
        0
    } else if 128 < v {
        256
    } else {
        (v + 128) as u32
    }
}

// The residual that is held as b.
fn from_held(b: u32) -> i16
    requires { b ≤ 256 }
    ensures { result ≡ sub_ℕ b 128 }
{
    b as i16 - 128
}

// k sixteenths of the residual b - 128, rounded, plus 8 k: (k * b + 7 + b / 128) / 16, by one product. Crate `diffusion` has its own: a
// public function of `rules` could not have this `requires`, and a test instead would stand in the loop.
fn part(k: u32, b: u32) -> u32
    requires { (k ≤ 7) × (b ≤ 256) }
    ensures { Parted k b result }
{
    ((128 * k + 1) * b + 896) / 2048
}

// A dot, 1 where it is white, and its residual, plus 128.
#[derive(Clone, Copy)]
struct Dot {
    bit: u32,
    rest: u32,
}

// The residuals next to a dot, plus 128: on its left, above left and above.
#[derive(Clone, Copy)]
pub struct Neighbours {
    pub left: u32,
    pub corner: u32,
    pub above: u32,
}

// The dot with this gray, from the residuals next to it and the one above right, plus 128. The upper parts are added first, in 16 bits:
// otherwise the compiler takes the left one with them, and the next dot, which waits for it, waits for all.
fn step(gray: u8, near: Neighbours, ahead: u32) -> Dot
    requires { (near.left ≤ 256) × (near.corner ≤ 256) × (near.above ≤ 256) × (ahead ≤ 256) }
    ensures { DotMade (value gray (sub_ℕ near.left 128) (sub_ℕ near.corner 128) (sub_ℕ near.above 128) (sub_ℕ ahead 128)) result.bit
        result.rest }
{
    let parts = (part(1, near.corner) + part(5, near.above) + part(3, ahead)) as u16;
    let upper = gray as u16 + parts;
    let v = upper as u32 + part(7, near.left);
    let bit = v / 256;
    Dot {
        bit,
        rest: v % 256 + bit,
    }
}

// The residual on the left of column x, plus 128.
fn left_of(work: &[i16], x: usize) -> u32
    requires { x ≤ length work.now }
    ensures { Biased (left_of work.now x) result }
{
    if x == 0 {
        return 128;
    }
    let i = x - 1;
    to_held(work[i])
}

// The residual above the dot on the left of column x, plus 128.
fn corner_of(corner: u32, x: usize) -> u32
    requires { corner ≤ 256 }
    ensures { Biased (corner_of (sub_ℕ corner 128) x) result }
{
    if 0 < x { corner } else { 128 }
}

// How many columns have residuals above row y. No Option for the first row: `over` compares a column with the count, and would unwrap it
// to 0.
fn reach(width: usize, y: usize) -> usize
    ensures { Reaches width y result }
{
    if 0 < y { width } else { 0 }
}

// The residual above column x, plus 128.
fn over(work: &[i16], reach: usize, x: usize) -> u32
    requires { reach ≤ length work.now }
    ensures { Biased (over_of reach 1 work.now x) result }
{
    if x < reach { to_held(work[x]) } else { 128 }
}

// Where a part of a row starts: at a column of row y, of `width` columns.
#[derive(Clone, Copy)]
pub struct RowStart {
    pub width: usize,
    pub y: usize,
    pub column: usize,
}

// The residuals next to a part's first dot.
pub(crate) fn next_to(start: RowStart, corner: u32, work: &[i16]) -> Neighbours
    requires { (start.column ≤ start.width) × (start.width ≤ length work.now) × (corner ≤ 256) }
    ensures { Near start.width start.y start.column corner work.now result }
{
    Neighbours {
        left: left_of(work, start.column),
        corner: corner_of(corner, start.column),
        above: over(work, reach(start.width, start.y), start.column),
    }
}

// The digits of the begun byte after a part of a row, and the residuals next to the following dot.
#[derive(Drop)]
pub(crate) struct DitheredDots {
    pub(crate) digits: u32,
    pub(crate) next: Neighbours,
}

// The digits of `begun`, and then a dot for each sample of a part of a row. `work` keeps a residual for each column. Taken in where it is
// called, the loop over a byte's eight samples is unrolled: as one function for both its calls, gray rows take 1.3 times as long, and
// no line of tools/bench may fall behind docs/COMPARISON.md.
#[inline(always)]
pub(crate) fn dither_dots(
    start: RowStart,
    gray: &[u8],
    begun: u32,
    near: Neighbours,
    work: &mut [i16],
) -> DitheredDots
    requires { Diffusing start.width start.column (length gray.now) begun near.corner (length work.old)
        × Near start.width start.y start.column near.corner work.old near }
    ensures { Diffused start.width start.y start.column gray.now begun near.corner work.old result work.new }
{
    let reached = reach(start.width, start.y);
    let mut next = near;
    let mut digits = begun;
    for (i, sample) in gray.iter().enumerate() {
        let x = start.column + i;
        let ahead = over(work, reached, x + 1);
        let d = step(*sample, next, ahead);
        work[x] = from_held(d.rest);
        digits = digits * 2 + d.bit;
        next = Neighbours {
            left: d.rest,
            corner: next.above,
            above: ahead,
        };
    }
    DitheredDots { digits, next }
}
