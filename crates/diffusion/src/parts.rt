// The parts of a residual.
ghost use Rattle.std.specs.Prelude.{◌≡◌, ◌*◌, ◌≤◌};
ghost use Rattle.diffusion.specs.Internal.Sums.{part_of};

// 1, 3 and 7 sixteenths of no residual, as `part` holds them: also the parts of dots off the edges.
pub(crate) const NONE_1: u32 = 8;

pub(crate) const NONE_3: u32 = 24;

pub(crate) const NONE_7: u32 = 56;

// The sum that is handed down to a column where nothing is: 1, 5 and 3 sixteenths of no residual.
pub(crate) const LEVEL_SUM: u32 = 72;

// `sixteenths` of the residual that is held as b. Crate `dither` has its own: a public function of `rules` could not have this `requires`,
// and a test instead would stand in the loop.
pub(crate) fn part(sixteenths: u32, b: u32) -> u32
    requires { (sixteenths ≤ 7) × (b ≤ 256) }
    ensures { (result ≡ part_of sixteenths b) × (result ≤ 16 * sixteenths) }
{
    ((128 * sixteenths + 1) * b + 896) / 2048
}
