// Planes: their dots, geometry and wire bits, and the change of their format.
use crate::answer::{Answer, checked, numbers};
use crate::bytes::Bytes;
use error::Result;
use image::PixelFormat;

// A case's input: a byte that names two formats, the row and column of a dot, width and height, a
// byte each, the stride in two, and the plane.
#[derive(Clone, Copy)]
struct Plane<'a> {
    from: PixelFormat,
    to: PixelFormat,
    y: u32,
    x: u32,
    width: u32,
    height: u32,
    stride: usize,
    bytes: &'a [u8],
}

impl<'a> Plane<'a> {
    fn read(mut input: Bytes<'a>) -> Plane<'a> {
        let formats = input.byte();
        Plane {
            from: format_of(formats % 2),
            to: format_of(formats / 2),
            y: size(input.byte()),
            x: size(input.byte()),
            width: size(input.byte()),
            height: size(input.byte()),
            stride: stride(input.short()),
            bytes: input.rest,
        }
    }
}

// No From: number and format both belong to other crates.
pub(crate) fn format_of(number: u8) -> PixelFormat {
    match number {
        0 => PixelFormat::MonoBlack,
        _ => PixelFormat::MonoWhite,
    }
}

// 255 stands for the largest number.
fn size(n: u8) -> u32 {
    match n {
        255 => u32::MAX,
        _ => u32::from(n),
    }
}

// From FF00 on the low byte stands for the highest of eight, with FF in the others: 0 for 2^56 - 1
// to 255 for the largest number.
fn stride(n: usize) -> usize {
    match n {
        0..=65279 => n,
        _ => ((n & 255) << 56) | 72057594037927935,
    }
}

pub(crate) fn white(input: Bytes) -> Answer {
    let p = Plane::read(input);
    let white = image::is_white(p.bytes, p.width, p.height, p.stride, p.from, p.x, p.y);
    numbers(&[0, 0, usize::from(white)])
}

pub(crate) fn wire(input: Bytes, out: &mut [u8]) -> Result<usize> {
    let p = Plane::read(input);
    image::wire_bits(p.bytes, p.width, p.height, p.stride, p.from, out)
}

// The plane is copied to the front of the output and changed there.
pub(crate) fn convert(input: Bytes, out: &mut [u8]) -> Answer {
    let p = Plane::read(input);
    let n = p.bytes.len().min(out.len());
    let plane = &mut out[..n];
    plane.copy_from_slice(&p.bytes[..n]);
    image::convert_format(plane, p.width, p.height, p.stride, p.from, p.to);
    numbers(&[0, n])
}

// Width and height in four bytes each, the stride in eight, the plane's length in one.
pub(crate) fn geometry(mut input: Bytes) -> Answer {
    let width = input.long();
    let height = input.long();
    let stride = input.longest() as usize;
    let bytes = usize::from(input.byte());
    checked(image::check_geometry(width, height, stride, bytes))
}
