// The header of an image and the tests behind it.
ghost use Rattle.std.specs.Prelude.{◌≡◌};
ghost use Rattle.header.specs.Read.{meaning, parsed};
ghost use Rattle.options.specs.Limits.{decoding};
ghost use Rattle.decoder.specs.Image.{test_body, image_read};

use error::{Refusal, Result, WbmpError};
use header::ParsedHeader;
use image::PlaneLayout;
use options::DecodeOptions;

// Whether an image is within the limits and a file of so many bytes has its first plane.
fn test_body(size: usize, h: ParsedHeader, options: DecodeOptions) -> Result<ParsedHeader>
    ensures { meaning result ≡ test_body (decoding options) size (parsed h) }
{
    let start = h.data_offset;
    let layout = PlaneLayout::new(h.width, h.height);
    let plane = layout.total_bytes;
    options.check(h.width, h.height, plane as u64, start)?;
    if size.saturating_sub(start) < plane {
        return Err(WbmpError::new(Refusal::PlaneTooShort, start));
    }
    Ok(h)
}

// The header of an image that is within the limits and whose first plane is there.
pub fn read_image(bytes: &[u8], options: DecodeOptions) -> Result<ParsedHeader>
    ensures { meaning result ≡ image_read (decoding options) bytes.now }
{
    let h = header::parse_header_mode(bytes, options.mode.into())?;
    test_body(bytes.len(), h, options)
}
