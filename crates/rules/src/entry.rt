// The kernels as the engine calls them. Each asks nothing, as no public function does: it tests once a call what its kernel asks, and where
// that does not hold it alters nothing.
ghost use Rattle.std.specs.Prelude.{◌≡◌, ◌*◌, ◌≤◌, length};
ghost use Rattle.rules.specs.Bits.{appended};
ghost use Rattle.rules.specs.Internal.Entry.{TrueExactly, Where};
ghost use Rattle.rules.specs.Internal.Kernels.{Packs, threshold_bit, threshold_bytes};

use crate::threshold::{threshold_bytes, threshold_dots};

// Whether n is at most a byte's dots, and the digits of the begun byte are at most eight.
pub fn packs(begun: u32, n: usize) -> bool
    ensures { TrueExactly (Packs begun n) result }
{
    n <= 8 && begun < 256
}

// The digits of `begun`, and then a dot for each sample: 1 where it is at least `bound`. Answers `begun` where there are more than
// eight samples, or the digits are more than a byte's.
pub fn threshold_row_dots(bound: u8, gray: &[u8], begun: u32) -> u32
    ensures { Where (Packs begun (length gray.now))
        (result ≡ appended begun (threshold_bit bound gray.now) (length gray.now)) (result ≡ begun) }
{
    if packs(begun, gray.len()) {
        return threshold_dots(bound, gray, begun);
    }
    begun
}

// As many bytes as the output has, of eight samples each. The output stays as it is where there are fewer samples.
pub fn threshold_row_bytes(bound: u8, samples: &[u8], out: &mut [u8])
    ensures { Where (8 * length out.old ≤ length samples.now)
        (out.new ≡ threshold_bytes bound samples.now (length out.old)) (out.new ≡ out.old) }
{
    if samples.len() / 8 < out.len() {
        return;
    }
    threshold_bytes(bound, samples, out);
}
