// Whole writing.
ghost use Rattle.options.specs.Defaults.{made_frames};
ghost use Rattle.std.specs.Prelude.{◌≡◌, ◌++◌, ◌*◌, ◌^◌, ◌≤◌, ◌<◌, length, drop};
ghost use Rattle.error.specs.Answer.{gives, checked, written};
ghost use Rattle.error.specs.Emits.{Emits};
ghost use Rattle.image.specs.Geometry.{needed_bytes, plane_bytes};
ghost use Rattle.encoder.specs.Internal.Begin.{BeginsImages};
ghost use Rattle.encoder.specs.Write.{check_planes, wire_planes, file_of_planes};

use crate::file::{begin_header_before, check_count};
use error::{Refusal, Result, WbmpError};
use ext_write::{PairList, PairsBegun};
use image::{PixelFormat, PlaneLayout};
use options::EncodeOptions;

// Planes as they are lent, end to end: their size, how many they are, and the stride and format of each.
#[derive(Clone, Copy)]
struct Planes {
    width: u32,
    height: u32,
    count: usize,
    stride: usize,
    format: PixelFormat,
}

// The bytes from the start of a plane's first row to the end of its last; `check_geometry` answers only whether they fit, as in the Rust.
fn needed_bytes(width: u32, height: u32, stride: usize) -> usize
    requires { (0 < height) × (needed_bytes width height stride < 2 ^ 64) }
    ensures { result ≡ needed_bytes width height stride }
{
    stride * (height - 1) as usize + image::row_stride(width)
}

// Whether so many bytes hold the planes; their total may pass 64 bits.
fn check_planes(lent: Planes, bytes: usize) -> Result<()>
    ensures { checked result ≡ check_planes made_frames lent.width lent.height lent.count lent.stride bytes }
{
    check_count(lent.width, lent.height, lent.count)?;
    image::check_geometry(lent.width, lent.height, lent.stride, bytes)?;
    if bytes / lent.count < needed_bytes(lent.width, lent.height, lent.stride) {
        return Err(WbmpError::new(Refusal::PlaneTooShort, 0));
    }
    Ok(())
}

// Planes that were tested, as a file has them, each in its own stretch of the lent output, which starts at index `start` of the file.
// By index: after a loop over `chunks_exact_mut` nothing is known of `out`.
fn write_planes(lent: Planes, planes: &[u8], start: usize, out: &mut [u8])
    requires planes_value { check_planes made_frames lent.width lent.height lent.count lent.stride (length planes.now) ≡ gives tt }
    requires height_in_bounds { lent.count * plane_bytes lent.width lent.height ≤ length out.old }
    ensures { out.new
        ≡ wire_planes lent.format lent.width lent.height lent.stride planes.now lent.count
        ++ drop (lent.count * plane_bytes lent.width lent.height) out.old }
{
    let width = lent.width;
    let height = lent.height;
    let stride = lent.stride;
    let plane = PlaneLayout::new(width, height).total_bytes;
    let needed = needed_bytes(width, height, stride);
    for k in 0..lent.count {
        let from = k * needed;
        let end = from + needed;
        let to = k * plane;
        image::wire_bits_at(
            &planes[from..end],
            width,
            height,
            stride,
            lent.format,
            start % 16 + to % 16,
            &mut out[to..],
        )
        .unwrap();
    }
}

// A file of planes, up to the pairs of its header, which were checked before.
fn begin_images(
    lent: Planes,
    planes: &[u8],
    options: EncodeOptions,
    text: &[u8],
    found: Result<usize>,
    out: &mut [u8],
) -> Result<PairsBegun>
    ensures { BeginsImages lent.width lent.height lent.count planes.now lent.stride lent.format options
        text.now found out.old out.new result }
{
    check_planes(lent, planes.len())?;
    let body = lent.count * PlaneLayout::new(lent.width, lent.height).total_bytes;
    let mut begun = begin_header_before(body, lent.width, lent.height, options, text, found, out)?;
    write_planes(lent, planes, begun.end, &mut out[begun.end..]);
    begun.end += body;
    Ok(begun)
}

// A file of `count` planes that are lent end to end, each stride × (height - 1) + row bytes: the header, then the planes without gaps,
// 1 for white and padding 0. Bytes behind the last plane are ignored. The pairs are lent as records or as lengths.
pub fn encode_images<P: PairList + Copy>(
    width: u32,
    height: u32,
    count: usize,
    planes: &[u8],
    stride: usize,
    format: PixelFormat,
    options: EncodeOptions,
    text: &[u8],
    pairs: P,
    out: &mut [u8],
) -> Result<usize>
    ensures { Emits (file_of_planes made_frames options format width height count stride planes.now text.now
        (P.lengths pairs)) (written result) out.old out.new }
{
    let lent = Planes {
        width,
        height,
        count,
        stride,
        format,
    };
    let found = ext_write::check_pairs(text, pairs, options.strict);
    let begun = begin_images(lent, planes, options, text, found, &mut *out)?;
    Ok(ext_write::put_pairs(text, pairs, begun, out))
}
