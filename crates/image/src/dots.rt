// The dots of a plane.
ghost use Rattle.std.specs.Prelude.{◌≡◌, ◌-◌, ◌/◌, ◌%◌, ◌^◌, ◌<◌};
ghost use Rattle.image.specs.Dots.{is_white};

use crate::PixelFormat;
use crate::geometry::row_start;

// Bit i of a byte, counted from the highest.
fn bit(byte: u8, i: u32) -> u8
    requires { i < 8 }
    ensures { result ≡ byte / 2 ^ (7 - i) % 2 }
{
    (byte >> (7 - i)) % 2
}

// Whether the dot at a column and a row is white; a byte that is missing counts as 0, and no dot outside the image is white.
pub fn is_white(
    plane: &[u8],
    width: u32,
    height: u32,
    stride: usize,
    format: PixelFormat,
    x: u32,
    y: u32,
) -> bool
    ensures { result ≡ is_white format width height stride plane.now x y }
{
    if x >= width || y >= height {
        return false;
    }
    let white = format.white_bit();
    let column = (x / 8) as usize;
    match row_start(plane.len(), stride, y as usize, column + 1) {
        Some(at) => bit(plane[at + column], x % 8) == white,
        None => 0 == white,
    }
}
