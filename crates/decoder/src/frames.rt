// The frames of a file.
ghost use Rattle.std.specs.Prelude.{◌≡◌, ◌+◌, ◌-◌, ◌<◌, ◌≤◌, length};
ghost use Rattle.header.specs.Read.{parsed};
ghost use Rattle.options.specs.Limits.{decoding};
ghost use Rattle.decoder.specs.Body.{extra_frames, plane_of};
ghost use Rattle.decoder.specs.Frames.{Imaged, Framed, meaning};

use crate::DecodedImage;
use crate::image_header::read_image;
use crate::planes::write_planes;
use error::{Refusal, Result, WbmpError};
use header::ParsedHeader;
use image::{PixelFormat, PlaneLayout};
use options::DecodeOptions;

// How many whole planes follow the first one in a file of so many bytes, up to `most`.
pub fn animated_frame_count(
    input_len: usize,
    data_offset: usize,
    total_bytes: usize,
    most: usize,
) -> usize
    ensures { result ≡ extra_frames most total_bytes (input_len - data_offset) }
{
    if total_bytes == 0 {
        return 0;
    }
    let body = input_len.saturating_sub(data_offset);
    let extra = body.saturating_sub(total_bytes) / total_bytes;
    extra.min(most)
}

// The first plane and up to `most` behind it, of a file that has the first.
fn write_frames(
    bytes: &[u8],
    h: ParsedHeader,
    format: PixelFormat,
    most: usize,
    out: &mut [u8],
) -> Result<DecodedImage>
    requires { (most < 16) × (h.data_offset + plane_of (parsed h) ≤ length bytes.now) }
    ensures { Framed (1 + most) format bytes.now (parsed h) (meaning result) out.old out.new }
{
    let start = h.data_offset;
    let layout = PlaneLayout::new(h.width, h.height);
    let plane = layout.total_bytes;
    let frames = 1 + animated_frame_count(bytes.len(), start, plane, most);
    let need = frames * plane;
    if out.len() < need {
        return Err(WbmpError::new(Refusal::OutputTooShort, 0));
    }
    write_planes(bytes, h, frames, format, out);
    Ok(DecodedImage {
        width: h.width,
        height: h.height,
        frames: frames as u32,
        bytes: need,
        fix_header: h.fix_header,
        ext_fields: h.ext_fields,
        data_offset: start,
    })
}

pub(crate) fn decode(
    bytes: &[u8],
    options: DecodeOptions,
    most: usize,
    out: &mut [u8],
) -> Result<DecodedImage>
    requires { most < 16 }
    ensures { Imaged (1 + most) (decoding options) bytes.now (meaning result) out.old out.new }
{
    let h = read_image(bytes, options)?;
    write_frames(bytes, h, options.format, most, out)
}
