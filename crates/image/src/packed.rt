// Planes whose rows stand without gaps.
ghost use Rattle.image.specs.Internal.Parts.{Cleared};

use crate::PlaneLayout;

// The padding of each row that ends among these bytes of a plane, the first of which is byte `at`, is cleared.
pub fn clear_ends(bytes: &mut [u8], width: u32, at: usize)
    ensures { Cleared width at bytes.old bytes.new }
{
    if width % 8 == 0 {
        return;
    }
    let layout = PlaneLayout::new(width, 1);
    let row = layout.stride;
    let mask = layout.last_byte_pad_mask;
    let begun = at % row;
    // Row by row: `step_by` takes a third more time. The Rust takes longer still, but no line of tools/bench may fall behind what
    // docs/COMPARISON.md shows.
    for y in 0..(begun + bytes.len()) / row {
        bytes[y * row + (row - 1 - begun)] &= mask;
    }
}
