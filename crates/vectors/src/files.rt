// Whole reading, info and sniffing. The input of whole reading is the settings and then the file;
// that of the others is the file.
use crate::answer::{Answer, joined, numbers, refused};
use crate::bytes::Bytes;
use crate::readers::fields_of;
use crate::settings::Settings;
use api::{ImageInfo, Sniffed};
use decoder::DecodedImage;

// The main image, or all frames: the cases test both functions.
pub(crate) fn decode(mut input: Bytes, all: bool, out: &mut [u8]) -> Answer {
    let options = Settings::read(&mut input).reading();
    let decoded = if all {
        decoder::decode_frames(input.rest, options, out)
    } else {
        decoder::decode_image(input.rest, options, out)
    };
    decoded.map_or_else(refused, image)
}

// In the order of the list, which is another for each kind of header.
fn image(i: DecodedImage) -> Answer {
    let (width, height, frames) = (i.width as usize, i.height as usize, i.frames as usize);
    let (body, fix) = (i.data_offset, usize::from(i.fix_header));
    joined(
        &[0, i.bytes, width, height, frames, body, fix],
        &fields_of(i.ext_fields),
    )
}

pub(crate) fn info(file: &[u8]) -> Answer {
    api::info(file).map_or_else(refused, told)
}

fn told(i: ImageInfo) -> Answer {
    let (width, height, frames) = (i.width as usize, i.height as usize, i.frames as usize);
    let (body, fix) = (i.data_offset, usize::from(i.fix_header));
    joined(
        &[0, body, width, height, frames, fix],
        &fields_of(i.ext_fields),
    )
}

pub(crate) fn sniff(file: &[u8]) -> Answer {
    let told = match api::sniff(file) {
        Sniffed::Neither => 0,
        Sniffed::Exact => 1,
        Sniffed::Truncated => 2,
    };
    numbers(&[0, 0, told])
}

pub(crate) fn probe(file: &[u8]) -> Answer {
    numbers(&[0, 0, usize::from(api::probe(file))])
}
