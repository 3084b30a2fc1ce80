// Planes of one bit a dot, eight dots a byte, the leftmost in the highest bit; rows start `stride` bytes apart.
#![tactic(auto)]

ghost use Rattle.std.specs.Prelude.{◌≡◌};
ghost use Rattle.image.specs.Format.{white_bit, other_format};
ghost use Rattle.image.specs.Geometry.{row_bytes, plane_bytes, padding_mask};

mod convert;
mod dots;
mod geometry;
mod packed;
mod rows;
mod wire;

pub use convert::{convert_format, into_format, invert_into};
pub use dots::is_white;
pub use geometry::{check_geometry, row_stride};
pub use packed::clear_ends;
pub use wire::{wire_bits, wire_bits_at};

#[derive(Clone, Copy, Debug, PartialEq, Eq)]
pub enum PixelFormat {
    // 1 is white: the format of files.
    MonoBlack,
    // 0 is white.
    MonoWhite,
}

impl PixelFormat {
    // The bit that means white.
    pub fn white_bit(self) -> u8
        ensures { result ≡ white_bit self }
    {
        match self {
            PixelFormat::MonoBlack => 1,
            PixelFormat::MonoWhite => 0,
        }
    }

    // The other format.
    pub fn inverted(self) -> PixelFormat
        ensures { result ≡ other_format self }
    {
        match self {
            PixelFormat::MonoBlack => PixelFormat::MonoWhite,
            PixelFormat::MonoWhite => PixelFormat::MonoBlack,
        }
    }
}

// A plane without gaps between its rows. Calls have width and height as two parameters, as the Rust's and document 01's; where what follows
// from them goes along it is this.
#[derive(Clone, Copy)]
pub struct PlaneLayout {
    pub width: u32,
    pub height: u32,
    pub stride: usize,
    pub total_bytes: usize,
    // What a row's last byte is masked with, so that its padding is 0.
    pub last_byte_pad_mask: u8,
    pub ghost stride_is: { stride ≡ row_bytes width },
    pub ghost total_is: { total_bytes ≡ plane_bytes width height },
    pub ghost mask_is: { last_byte_pad_mask ≡ padding_mask width },
}

impl PlaneLayout {
    ghost use Rattle.image.specs.Layout.{layout_of};

    pub fn new(width: u32, height: u32) -> PlaneLayout
        ensures { result ≡ layout_of width height }
    {
        let stride = row_stride(width);
        PlaneLayout {
            width,
            height,
            stride,
            total_bytes: stride * (height as usize),
            last_byte_pad_mask: geometry::padding_mask(width),
        }
    }
}
