// Bytes of rows and planes, and the test of an image's geometry.
ghost use Rattle.std.specs.Prelude.{◌≡◌, ◌+◌, ◌*◌, leb};
ghost use Rattle.error.specs.Answer.{checked};
ghost use Rattle.image.specs.Geometry.{row_bytes, padding_mask, check_geometry};
ghost use Rattle.image.specs.Internal.Parts.{row_start};

use error::{Refusal, Result, WbmpError};

// The bytes of a row.
pub fn row_stride(width: u32) -> usize
    ensures { result ≡ row_bytes width }
{
    (width as usize).div_ceil(8)
}

// What a row's last byte is masked with, so that its padding is 0.
pub(crate) fn padding_mask(width: u32) -> u8
    ensures { result ≡ padding_mask width }
{
    let bits = (8 - width % 8) % 8;
    (256 - (1u32 << bits)) as u8
}

// Whether a product, which may pass 64 bits, is at most a number.
fn product_within(a: usize, b: usize, most: usize) -> bool
    ensures { result ≡ leb (a * b) most }
{
    if b == 0 { true } else { a <= most / b }
}

// Where the first `count` bytes of row y start, if a plane of so many bytes has them all. By a quotient, which a loop over rows works out
// once: with `checked_mul` the writing of narrow rows with gaps ran up to 1.7 times as many instructions.
pub(crate) fn row_start(bytes: usize, stride: usize, y: usize, count: usize) -> Option<usize>
    ensures { result ≡ row_start bytes stride y count }
{
    if product_within(y, stride, bytes) {
        let at = y * stride;
        if count <= bytes - at {
            return Some(at);
        }
    }
    None
}

// Whether a plane of so many bytes holds an image of this size.
#[tactic(auto, unfolding(crate::specs::Geometry::check_geometry))]
pub fn check_geometry(width: u32, height: u32, stride: usize, bytes: usize) -> Result<()>
    ensures { checked result ≡ check_geometry width height stride bytes }
{
    if width == 0 || height == 0 {
        return Err(WbmpError::new(Refusal::ZeroDimension, 0));
    }
    let row = row_stride(width);
    if stride < row {
        return Err(WbmpError::new(Refusal::StrideTooSmall, 0));
    }
    let steps = (height - 1) as usize;
    let Some(needed) = stride.checked_mul(steps).and_then(|n| n.checked_add(row)) else {
        return Err(WbmpError::new(Refusal::PlaneOverflow, 0));
    };
    if bytes < needed {
        return Err(WbmpError::new(Refusal::PlaneTooShort, 0));
    }
    Ok(())
}
