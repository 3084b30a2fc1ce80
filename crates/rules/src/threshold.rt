// The threshold rule's dots: of a part of a row, and of whole bytes of eight samples. The bar of speed is that of plane.rt.
ghost use Rattle.std.specs.Prelude.{◌≡◌, ◌+◌, ◌*◌, ◌≤◌, length};
ghost use Rattle.rules.specs.Bits.{digits, appended, upto};
ghost use Rattle.rules.specs.Internal.Words.{bytes, samples_from, Below, Compares, Gathers};
ghost use Rattle.rules.specs.Internal.Kernels.{Packs, threshold_bit, threshold_from, threshold_bytes};

// The digits of `begun`, and then a dot for each sample: 1 where it is at least `bound`.
pub(crate) fn threshold_dots(bound: u8, gray: &[u8], begun: u32) -> u32
    requires { Packs begun (length gray.now) }
    ensures { result ≡ appended begun (threshold_bit bound gray.now) (length gray.now) }
{
    if gray.len() == 8 {
        return begun * 256 + byte(bound, gray, 0) as u32;
    }
    // No fold: its closure would need a fact for each sample, that the digits so far fit, which the loop's invariant has.
    let mut digits = begun;
    for sample in gray {
        digits = digits * 2 + u32::from(bound <= *sample);
    }
    digits
}

// By eight indices: as `gray[at..at + 8].try_into().unwrap()`, rows of 9 to 15 samples take 1.07 times as long.
fn eight(gray: &[u8], at: usize) -> [u8; 8]
    requires { at + 8 ≤ length gray.now }
    ensures { result ≡ upto 8 (samples_from gray.now at) }
{
    [
        gray[at],
        gray[at + 1],
        gray[at + 2],
        gray[at + 3],
        gray[at + 4],
        gray[at + 5],
        gray[at + 6],
        gray[at + 7],
    ]
}

// Eight samples as one number, a byte each, the first the lowest: then they are one load and no more. From an index on, as `eight` reads
// them: a slice that is cut first has the same bound to prove, and each caller would write the cut.
pub(crate) fn word(gray: &[u8], at: usize) -> u64
    requires { at + 8 ≤ length gray.now }
    ensures { (result ≡ bytes (samples_from gray.now at) 8) × Below 256 (samples_from gray.now at) }
{
    u64::from_le_bytes(eight(gray, at))
}

// The highest bit of each byte.
pub(crate) const TOPS: u64 = 0x8080_8080_8080_8080;

// The lowest bit of each byte.
pub(crate) const ONES: u64 = 0x0101_0101_0101_0101;

// The dots of eight samples, each the highest bit of its byte. The highest bit of a byte of `low` says whether the sample's other seven
// bits are at least those of `bound`.
fn compared(bound: u8, samples: u64) -> u64
    ensures { Compares bound samples result }
{
    let low = (samples | TOPS) - (bound % 128) as u64 * ONES;
    if bound < 128 {
        return (samples | low) & TOPS;
    }
    samples & low & TOPS
}

// Eight dots, each the highest bit of its byte, as one byte, the lowest dot the highest. In `halves` dot j of the lower half, from the
// lowest on, is bit 8 j + 7, and that of the upper half bit 8 j + 3; the product brings them to bits 34 - j and 30 - j.
pub(crate) fn gathered(dots: u64) -> u8
    ensures { Gathers dots result }
{
    let halves = dots % 0x1_0000_0000 + dots / 0x10_0000_0000;
    (halves * 0x804_0201 / 0x800_0000 % 256) as u8
}

// The dots of eight samples as a byte.
pub(crate) fn byte(bound: u8, gray: &[u8], at: usize) -> u8
    requires { at + 8 ≤ length gray.now }
    ensures { result ≡ digits (threshold_from bound gray.now at) 8 }
{
    gathered(compared(bound, word(gray, at)))
}

// As many bytes as the output has, of eight samples each. The samples by index: in a loop over `iter_mut().zip(chunks_exact(8))` no fact
// tells what the output has at its end.
pub(crate) fn threshold_bytes(bound: u8, gray: &[u8], out: &mut [u8])
    requires { 8 * length out.old ≤ length gray.now }
    ensures { out.new ≡ threshold_bytes bound gray.now (length out.old) }
{
    for (k, to) in out.iter_mut().enumerate() {
        *to = byte(bound, gray, 8 * k);
    }
}
