// Whole writing and making.
use crate::answer::Answer;
use crate::bytes::Bytes;
use crate::fields::{Contents, Fields};
use crate::planes::format_of;
use crate::scans::judged;
use crate::work::{DIRT, WORK};
use error::Result;
use ext_write::PairList;
use image::PixelFormat;
use options::{EncodeOptions, Quantize};

// The most lengths of a card's fields.
const LENGTHS: usize = 64;

// A case's input: 1 for strict, the format or the kind of rule, width, height and count in four
// bytes each, the stride in eight or the rule's number, the length of the work buffer and six
// bytes, the length of the planes or the gray in two, these, and fields. Writing has no use for the
// rule and the work buffer, making none for format and stride.
#[derive(Clone, Copy)]
pub(crate) struct Card<'a> {
    options: EncodeOptions,
    format: PixelFormat,
    width: u32,
    height: u32,
    count: usize,
    stride: usize,
    work_len: u8,
    body: &'a [u8],
    pub fields: Fields<'a>,
}

impl<'a> Card<'a> {
    pub(crate) fn read(mut input: Bytes<'a>) -> Card<'a> {
        let strict = input.byte() == 1;
        let kind = input.byte();
        let width = input.long();
        let height = input.long();
        let count = input.long() as usize;
        let stride = input.array::<8>();
        let [number, work_len, ..] = stride;
        let size = input.short();
        let body = input.take(size);
        let mut fields = Fields::read(input);
        fields.most = LENGTHS;
        Card {
            options: options_of(strict, rule_of(kind, number), fields),
            format: format_of(kind),
            width,
            height,
            count,
            stride: u64::from_be_bytes(stride) as usize,
            work_len,
            body,
            fields,
        }
    }
}

// How a card with these fields is made.
pub(crate) fn options_of(strict: bool, rule: Quantize, fields: Fields) -> EncodeOptions {
    EncodeOptions::new()
        .with_quantize(rule)
        .with_ext_fields(fields.kind)
        .with_strict(strict)
}

// A kind and a number, of which two rules have one. No From: Quantize belongs to another crate.
pub(crate) fn rule_of(kind: u8, number: u8) -> Quantize {
    match kind {
        0 => Quantize::Threshold(number),
        1 => Quantize::Dither,
        _ => Quantize::Ordered(number),
    }
}

// How many numbers of the work buffer a rule may alter.
pub(crate) fn used(rule: Quantize, width: u32) -> usize {
    match rule {
        Quantize::Threshold(_) | Quantize::Ordered(_) => 0,
        Quantize::Dither => width as usize,
    }
}

pub(crate) fn images<P: PairList + Copy>(
    c: Card,
    contents: Contents<P>,
    out: &mut [u8],
) -> Result<usize> {
    encoder::encode_images(
        c.width,
        c.height,
        c.count,
        c.body,
        c.stride,
        c.format,
        c.options,
        contents.text,
        contents.pairs,
        out,
    )
}

pub(crate) fn gray<P: PairList + Copy>(c: Card, contents: Contents<P>, out: &mut [u8]) -> Answer {
    let mut work = [DIRT; WORK];
    let lent = &mut work[..usize::from(c.work_len)];
    let answer = encoder::encode_gray8(
        c.width,
        c.height,
        c.count,
        c.body,
        c.options,
        contents.text,
        contents.pairs,
        lent,
        out,
    );
    judged(answer, &work, used(c.options.quantize, c.width))
}
