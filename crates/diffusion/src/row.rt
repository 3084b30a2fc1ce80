// One row, dot by dot.
ghost use Rattle.std.specs.Prelude.{◌≡◌, true, IfSome, List, ◌+◌, ◌-◌, ◌*◌, ◌/◌, ◌≤◌, ◌<◌, ℤ, nat_abs, length};
ghost use Rattle.diffusion.specs.Internal.Rows.{RowLent, RowDithered};
ghost use Rattle.diffusion.specs.Internal.Flow.{DotLent, DotPassed, RowAt, DotsLent, DotsPassed, LevelByte, BytesPassed};
ghost use Rattle.diffusion.specs.Internal.RowByRow.{AllNone};

use crate::parts::{LEVEL_SUM, NONE_3, NONE_7};
use crate::tables::Tables;
use rules::plain_row;

// What the dots so far hand on, and the digits of the begun byte.
#[derive(Clone, Copy)]
struct Flow {
    // To the next dot, plus 56.
    right: u32,
    // To the row below, as digits to the base 256, of which the lowest is a whole sum.
    down: u32,
    // The bits in which a dot's parts differ from those of no residual.
    stirred: u32,
    digits: u32,
}

// What a dot without residual hands down: 24, 40 and 8, as digits to the base 256.
const NONE_DOWN: u32 = 534552;

// `down` before a row's first dot: 0, 0 and 8. The 8 is the part of a dot on its left that is not there.
const FIRST_DOWN: u32 = 524288;

// `down` after eight dots without residual: 72, 48 and 8.
const LEVEL_DOWN: u32 = 536648;

// The flow after one dot more. Gray and sum are added first, in 16 bits: otherwise the compiler adds the sum last,
// and the next dot waits for it.
fn dot(tables: &Tables, f: Flow, gray: u8, sum: i16) -> Flow
    requires { DotLent f sum }
    ensures { DotPassed f (gray + nat_abs sum + f.right) result }
{
    let given = gray as u16 + sum as u16;
    let v = given as u32 + f.right;
    let i = v as usize;
    let e = tables.downs[i];
    Flow {
        right: tables.rights[i] as u32,
        down: f.down / 256 + e,
        stirred: f.stirred | (e ^ NONE_DOWN),
        digits: f.digits * 2 + v / 256,
    }
}

// The dots of the columns x to `end`, which go into one byte. By column, since each stores the sum on its left, which no part of `work`
// from x on has.
fn dots(tables: &Tables, f: Flow, gray: &[u8], x: usize, end: usize, work: &mut [i16]) -> Flow
    requires { DotsLent gray.now x end f work.old }
    ensures { (old : List ℤ) → RowAt gray.now old x f work.old
        → DotsPassed gray.now old x end result work.new }
{
    let mut s = Flow { digits: 0, ..f };
    for i in x..end {
        s = dot(tables, s, gray[i], work[i]);
        if 0 < i {
            work[i - 1] = (s.down % 256) as i16;
        }
    }
    s
}

// Whether nothing was added to these sums. The loop runs to its end, so that the compiler can take many at once; a fold's closure would say
// no more than it. `clear` of crate `dither` asks for another number: one function for both would be public in `rules`.
fn are_level(sums: &[i16]) -> bool
    ensures { result ≡ true → AllNone sums.now }
{
    let mut level = true;
    for sum in sums {
        level &= *sum == LEVEL_SUM as i16;
    }
    level
}

// The byte of the first eight samples, which are black and white and to which nothing is handed, neither on the right nor by these sums;
// none for others.
fn level_byte(right: u32, gray: &[u8], sums: &[i16]) -> Option<u8>
    ensures { IfSome result (λ byte. LevelByte right gray.now sums.now byte) }
{
    let mut byte = [0u8; 1];
    if right == NONE_7 && are_level(sums) && plain_row(8, gray, &mut byte) {
        return Some(byte[0]);
    }
    None
}

// The dots of eight columns from x on, which is not the first. Dots that are level hand on nothing: they alter only the sum on the left of
// column x, which lacks their part.
fn eight_dots_or_level(tables: &Tables, f: Flow, gray: &[u8], x: usize, work: &mut [i16]) -> Flow
    requires { DotsLent gray.now x (x + 8) f work.old × (0 < x) }
    ensures { (old : List ℤ) → RowAt gray.now old x f work.old
        → DotsPassed gray.now old x (x + 8) result work.new }
{
    let end = x + 8;
    match level_byte(f.right, &gray[x..end], &work[x..end]) {
        None => dots(tables, f, gray, x, end, work),
        Some(byte) => {
            let begun = f.down / 256 % 256;
            work[x - 1] = (begun + NONE_3) as i16;
            Flow {
                right: NONE_7,
                down: LEVEL_DOWN,
                stirred: f.stirred,
                digits: u32::from(byte),
            }
        }
    }
}

// All bytes of a row but its last.
fn bytes(tables: &Tables, gray: &[u8], work: &mut [i16], out: &mut [u8]) -> Flow
    requires { RowLent gray.now work.old (length out.old) }
    ensures { BytesPassed gray.now work.old ((length gray.now - 1) / 8) (length out.old)
        result out.new work.new }
{
    let last = (gray.len() - 1) / 8;
    let mut f = Flow {
        right: NONE_7,
        down: FIRST_DOWN,
        stirred: 0,
        digits: 0,
    };
    if last == 0 {
        return f;
    }
    f = dots(tables, f, gray, 0, 8, work);
    out[0] = f.digits as u8;
    for j in 1..last {
        f = eight_dots_or_level(tables, f, gray, 8 * j, work);
        out[j] = f.digits as u8;
    }
    f
}

// The row's bytes, and what it hands down in place of what was handed to it. Answers whether the row hands down nothing. No struct has the
// three slices with their facts: it would be made for each row and taken apart at once, since two of them are written.
pub(crate) fn dither_row(tables: &Tables, gray: &[u8], work: &mut [i16], out: &mut [u8]) -> bool
    requires { RowLent gray.now work.old (length out.old) }
    ensures { RowDithered gray.now work.old result out.new work.new }
{
    let f = bytes(tables, gray, work, out);
    let width = gray.len();
    let end = width - 1;
    let last = end / 8;
    let x = 8 * last;
    let s = dots(tables, f, gray, x, width, work);
    let padding = (8 - (width - x)) as u32;
    out[last] = (s.digits << padding) as u8;
    work[end] = (s.down / 256 % 256 + NONE_3) as i16;
    s.stirred == 0
}
