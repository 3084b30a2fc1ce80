// The functions that C calls, through the exports of the crate capi_c.
ghost use Rattle.std.specs.Prelude.{◌≡◌};
ghost use Rattle.api.specs.Sniff.{sniffed};
ghost use Rattle.capi.specs.Returned.{sniff_number};
ghost use Rattle.capi.specs.Asked.{settings_of};
ghost use Rattle.capi.specs.Calls.{Informs, ReadsAsked, Reads};
ghost use Rattle.decoder.specs.Frames.{meaning};

use crate::asked::Asked;
use crate::numbers::{FieldNumbers, pack};
use api::Sniffed;
use decoder::DecodedImage;
use error::Result;
use options::DecodeOptions;

// 0: neither; 1: a whole file; 2: the front of one.
pub fn wbmp_sniff(bytes: &[u8]) -> u8
    ensures { result ≡ sniff_number (sniffed bytes.now) }
{
    match api::sniff(bytes) {
        Sniffed::Neither => 0,
        Sniffed::Exact => 1,
        Sniffed::Truncated => 2,
    }
}

// Size, frames and fields of a file, to the lent numbers; a refusal writes none of them.
pub fn wbmp_info(
    bytes: &[u8],
    width: &mut u32,
    height: &mut u32,
    frames: &mut u32,
    body: &mut usize,
    fix_header: &mut u8,
    fields_kind: &mut u8,
    fields_start: &mut usize,
    fields_len: &mut usize,
    pairs: &mut usize,
) -> u64
    ensures { Informs bytes.now result (width.old, width.new) (height.old, height.new)
        (frames.old, frames.new) (body.old, body.new)
        (fix_header.old, fix_header.new) (fields_kind.old, fields_kind.new)
        (fields_start.old, fields_start.new) (fields_len.old, fields_len.new)
        (pairs.old, pairs.new) }
{
    match api::info(bytes) {
        Ok(told) => {
            let fields = FieldNumbers::from(told.ext_fields);
            *width = told.width;
            *height = told.height;
            *frames = told.frames;
            *body = told.data_offset;
            *fix_header = told.fix_header;
            *fields_kind = fields.kind;
            *fields_start = fields.start;
            *fields_len = fields.len;
            *pairs = fields.pairs;
            0
        }
        Err(e) => pack(e),
    }
}

// Whole reading with the settings that are asked for.
fn read(bytes: &[u8], asked: Asked, out: &mut [u8]) -> Result<DecodedImage>
    ensures { ReadsAsked (settings_of asked.format asked.strict asked.max_width asked.max_height asked.max_pixels asked.max_bytes)
        bytes.now (meaning result) out.old out.new }
{
    let options = DecodeOptions::try_from(asked)?;
    decoder::decode_frames(bytes, options, out)
}

// Whole reading: the planes of all frames, end to end, at the front of the lent output; a refusal writes nothing that is lent.
pub fn wbmp_read(
    bytes: &[u8],
    format: u32,
    strict: u32,
    max_width: u32,
    max_height: u32,
    max_pixels: u64,
    max_bytes: u64,
    out: &mut [u8],
    width: &mut u32,
    height: &mut u32,
    frames: &mut u32,
    written: &mut usize,
) -> u64
    ensures { Reads (settings_of format strict max_width max_height max_pixels max_bytes) bytes.now result
        out.old out.new (width.old, width.new) (height.old, height.new)
        (frames.old, frames.new) (written.old, written.new) }
{
    let asked = Asked {
        format,
        strict,
        max_width,
        max_height,
        max_pixels,
        max_bytes,
    };
    match read(bytes, asked, out) {
        Ok(read) => {
            *width = read.width;
            *height = read.height;
            *frames = read.frames;
            *written = read.bytes;
            0
        }
        Err(e) => pack(e),
    }
}
