// Whole reading: the planes of a file's main image or of all its frames, in the asked format, end to end in the lent output.
#![tactic(auto)]

ghost use Rattle.options.specs.Limits.{ceiling_of, decoding};
ghost use Rattle.decoder.specs.Frames.{Decodes, meaning};

use error::Result;
use ext::ExtFields;
use options::DecodeOptions;

mod frames;
mod image_header;
mod planes;

pub use frames::animated_frame_count;
pub use image_header::read_image;

// The most frames that are read.
pub const MAX_READ_FRAMES: usize = 16;

// At most this many images follow the main image.
pub const MAX_ANIMATED_IMAGES: usize = MAX_READ_FRAMES - 1;

// What was read. The header's fields stand here by themselves, as in `ImageInfo`, which is of crate api, and that stands on this one.
#[derive(Clone, Copy)]
pub struct DecodedImage {
    pub width: u32,
    pub height: u32,
    pub frames: u32,
    // Bytes written at the front of the lent output.
    pub bytes: usize,
    pub fix_header: u8,
    pub ext_fields: Option<ExtFields>,
    pub data_offset: usize,
}

// The main image: one plane. A refusal writes nothing. This and the next are names of the Rust.
pub fn decode_image(bytes: &[u8], options: DecodeOptions, out: &mut [u8]) -> Result<DecodedImage>
    ensures { Decodes 1 (decoding options) bytes.now (meaning result) out.old out.new }
{
    frames::decode(bytes, options, 0, out)
}

// The main image and the images that follow it, up to 16 frames.
pub fn decode_frames(bytes: &[u8], options: DecodeOptions, out: &mut [u8]) -> Result<DecodedImage>
    ensures { Decodes (ceiling_of (decoding options)) (decoding options) bytes.now (meaning result) out.old
        out.new }
{
    frames::decode(bytes, options, MAX_ANIMATED_IMAGES, out)
}
