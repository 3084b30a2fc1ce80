// Scans of gray made dots by the three rules.
use crate::answer::{Answer, written};
use crate::bytes::Bytes;
use crate::work::{DIRT, WORK, unaltered_from};
use error::Result;

// A case's input: the rule's number, width and height in four bytes each, and the gray samples.
#[derive(Clone, Copy)]
struct Scan<'a> {
    number: u8,
    width: u32,
    height: u32,
    gray: &'a [u8],
}

impl<'a> Scan<'a> {
    fn read(mut input: Bytes<'a>) -> Scan<'a> {
        Scan {
            number: input.byte(),
            width: input.long(),
            height: input.long(),
            gray: input.rest,
        }
    }
}

// The rule's number is the threshold.
pub(crate) fn threshold(input: Bytes, out: &mut [u8]) -> Result<usize> {
    let s = Scan::read(input);
    quantize::threshold_bits(s.width, s.height, s.gray, s.number, out)
}

// The rule's number is the side.
pub(crate) fn ordered(input: Bytes, out: &mut [u8]) -> Result<usize> {
    let s = Scan::read(input);
    quantize::ordered_bits(s.width, s.height, s.gray, s.number, out)
}

// The rule's number is the length of the work buffer.
pub(crate) fn dither(input: Bytes, out: &mut [u8]) -> Answer {
    let s = Scan::read(input);
    let mut work = [DIRT; WORK];
    let lent = &mut work[..usize::from(s.number)];
    let answer = quantize::dither_bits(s.width, s.height, s.gray, lent, out);
    judged(answer, &work, s.width as usize)
}

// An answer of a call that may alter the first `used` numbers of the work buffer, and none where it
// refuses; the third number tells if it altered another.
pub(crate) fn judged(answer: Result<usize>, work: &[i16; WORK], used: usize) -> Answer {
    let start = answer.map_or(0, |_| used);
    let mut numbers = written(answer);
    numbers[2] = usize::from(!unaltered_from(work, &[DIRT; WORK], start));
    numbers
}
