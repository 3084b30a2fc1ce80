// Size, frames and fields of a file.
ghost use Rattle.std.specs.Prelude.{◌≡◌};
ghost use Rattle.header.specs.Read.{parsed};
ghost use Rattle.api.specs.Info.{told, info_of, meaning, read_info};

use crate::ImageInfo;
use decoder::MAX_ANIMATED_IMAGES;
use error::Result;
use header::ParsedHeader;
use image::PlaneLayout;

// What a header tells of a file of so many bytes.
fn image_info(size: usize, h: ParsedHeader) -> ImageInfo
    ensures { told result ≡ info_of size (parsed h) }
{
    let layout = PlaneLayout::new(h.width, h.height);
    let plane = layout.total_bytes;
    let extra = decoder::animated_frame_count(size, h.data_offset, plane, MAX_ANIMATED_IMAGES);
    ImageInfo {
        width: h.width,
        height: h.height,
        frames: 1 + extra as u32,
        fix_header: h.fix_header,
        ext_fields: h.ext_fields,
        data_offset: h.data_offset,
    }
}

// Read leniently and without limits; 1 frame where the body is short.
#[tactic(auto, unfolding(crate::specs::Info::read_info))]
pub fn info(bytes: &[u8]) -> Result<ImageInfo>
    ensures { meaning result ≡ read_info bytes.now }
{
    let h = header::parse_header_ext_inner(bytes, false)?;
    Ok(image_info(bytes.len(), h))
}
