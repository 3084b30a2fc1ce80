// Settings of reading and of making.
#![tactic(auto)]

ghost use Rattle.std.specs.Prelude.{◌≡◌, false, None};
ghost use Rattle.error.specs.Answer.{checked};
ghost use Rattle.header.specs.Settings.{settings};
ghost use Rattle.options.specs.Limits.{admits, check_limits, bound_of, mode_of, image_settings, decoding};
ghost use Rattle.options.specs.Defaults;

use error::{Refusal, Result, WbmpError};
use ext::ExtFieldType;
use header::HeaderMode;
use image::PixelFormat;

pub mod limits;

// The most frames of a card that is written or made: the main image and at most 15 that follow it.
pub const MAX_MADE_FRAMES: u32 = 16;

// A limit: absent, or the largest number that it admits.
pub type Limit = Option<u64>;

fn admits(limit: Limit, n: u64) -> bool
    ensures { result ≡ admits (bound_of limit) n }
{
    limit.is_none_or(|most| n <= most)
}

// How the header of an image is read.
#[derive(Clone, Copy)]
pub enum DecodeMode {
    Lenient,
    Strict,
}

impl From<DecodeMode> for HeaderMode {
    ghost from_gives = { λ mode h. settings h ≡ image_settings (mode_of mode) };

    fn from(mode: DecodeMode) -> HeaderMode {
        match mode {
            DecodeMode::Lenient => HeaderMode::ext_inner(false),
            DecodeMode::Strict => HeaderMode::inner(true),
        }
    }
}

// The limits of reading, and how it goes.
#[derive(Clone, Copy)]
pub struct DecodeOptions {
    pub max_width: Limit,
    pub max_height: Limit,
    pub max_pixels: Limit,
    // Bytes of one plane.
    pub max_bytes: Limit,
    pub mode: DecodeMode,
    // The format of the planes that are given.
    pub format: PixelFormat,
}

impl DecodeOptions {
    // 1,073,741,824 bytes at most, no other limit, lenient, MonoBlack.
    pub fn new() -> DecodeOptions
        ensures { decoding result ≡ Defaults.defaults }
    {
        DecodeOptions {
            max_width: None,
            max_height: None,
            max_pixels: None,
            max_bytes: Some(1073741824),
            mode: DecodeMode::Lenient,
            format: PixelFormat::MonoBlack,
        }
    }

    pub fn with_max_width(mut self, max_width: Limit) -> DecodeOptions
        ensures { decoding result ≡ Defaults.with_max_width (bound_of max_width) (decoding self) }
    {
        self.max_width = max_width;
        self
    }

    pub fn with_max_height(mut self, max_height: Limit) -> DecodeOptions
        ensures { decoding result ≡ Defaults.with_max_height (bound_of max_height) (decoding self) }
    {
        self.max_height = max_height;
        self
    }

    pub fn with_max_pixels(mut self, max_pixels: Limit) -> DecodeOptions
        ensures { decoding result ≡ Defaults.with_max_pixels (bound_of max_pixels) (decoding self) }
    {
        self.max_pixels = max_pixels;
        self
    }

    pub fn with_max_bytes(mut self, max_bytes: Limit) -> DecodeOptions
        ensures { decoding result ≡ Defaults.with_max_bytes (bound_of max_bytes) (decoding self) }
    {
        self.max_bytes = max_bytes;
        self
    }

    pub fn with_strict(mut self, strict: bool) -> DecodeOptions
        ensures { decoding result ≡ Defaults.with_strict strict (decoding self) }
    {
        // No From<bool>: it would serve here only.
        self.mode = if strict {
            DecodeMode::Strict
        } else {
            DecodeMode::Lenient
        };
        self
    }

    pub fn with_format(mut self, format: PixelFormat) -> DecodeOptions
        ensures { decoding result ≡ Defaults.with_format format (decoding self) }
    {
        self.format = format;
        self
    }

    // Every limit is lifted.
    pub fn unlimited(mut self) -> DecodeOptions
        ensures { decoding result ≡ Defaults.unlimited (decoding self) }
    {
        self.max_width = None;
        self.max_height = None;
        self.max_pixels = None;
        self.max_bytes = None;
        self
    }

    // Whether an image of this size, and of so many bytes a plane, is within the limits; a refusal has the offset that is given.
    #[tactic(auto, unfolding(crate::specs::Limits::check_limits))]
    pub fn check(self, width: u32, height: u32, bytes: u64, offset: usize) -> Result<()>
        ensures { checked result ≡ check_limits (decoding self) width height bytes offset }
    {
        let w = u64::from(width);
        let h = u64::from(height);
        if !admits(self.max_width, w) {
            return Err(WbmpError::new(Refusal::WidthLimit, offset));
        }
        if !admits(self.max_height, h) {
            return Err(WbmpError::new(Refusal::HeightLimit, offset));
        }
        if !admits(self.max_pixels, w * h) {
            return Err(WbmpError::new(Refusal::PixelLimit, offset));
        }
        if !admits(self.max_bytes, bytes) {
            return Err(WbmpError::new(Refusal::ByteLimit, offset));
        }
        Ok(())
    }
}

impl Default for DecodeOptions {
    ghost is_default = { λ o. decoding o ≡ Defaults.defaults };

    fn default() -> DecodeOptions {
        DecodeOptions::new()
    }
}

// The rule by which gray becomes black or white.
#[derive(Clone, Copy)]
pub enum Quantize {
    // White from this gray on.
    Threshold(u8),
    // Floyd and Steinberg's dithering.
    Dither,
    // The ordered rule of this side. A number, whatever it is: an unknown side is refused with 29, in its turn behind 8 and 21.
    Ordered(u8),
}

impl Default for Quantize {
    ghost use Rattle.options.specs.declared.Quantize.TheVariants.{Threshold};

    ghost is_default = { λ q. q ≡ Threshold 128 };

    fn default() -> Quantize {
        Quantize::Threshold(128)
    }
}

// How an image is made.
#[derive(Clone, Copy)]
pub struct EncodeOptions {
    pub quantize: Quantize,
    // The fields that are written.
    pub ext: Option<ExtFieldType>,
    // The classes of pairs are tested.
    pub strict: bool,
}

impl EncodeOptions {
    pub fn new() -> EncodeOptions
        ensures { result ≡ record { quantize = Quantize.Threshold 128; ext = None; strict = false } }
    {
        EncodeOptions {
            quantize: Quantize::default(),
            ext: None,
            strict: false,
        }
    }

    pub fn with_quantize(mut self, quantize: Quantize) -> EncodeOptions
        ensures { result ≡ record { quantize = quantize; ext = self.ext; strict = self.strict } }
    {
        self.quantize = quantize;
        self
    }

    // This and the next are names of the Rust, which is "to be translated, names included" (document 00).
    pub fn with_threshold(self, threshold: u8) -> EncodeOptions
        ensures { result ≡ record { quantize = Quantize.Threshold threshold; ext = self.ext; strict = self.strict } }
    {
        self.with_quantize(Quantize::Threshold(threshold))
    }

    pub fn with_dither(self) -> EncodeOptions
        ensures { result ≡ record { quantize = Quantize.Dither; ext = self.ext; strict = self.strict } }
    {
        self.with_quantize(Quantize::Dither)
    }

    pub fn with_ext_fields(mut self, ext: Option<ExtFieldType>) -> EncodeOptions
        ensures { result ≡ record { quantize = self.quantize; ext = ext; strict = self.strict } }
    {
        self.ext = ext;
        self
    }

    pub fn with_strict(mut self, strict: bool) -> EncodeOptions
        ensures { result ≡ record { quantize = self.quantize; ext = self.ext; strict = strict } }
    {
        self.strict = strict;
        self
    }
}

impl Default for EncodeOptions {
    ghost use Rattle.options.specs.declared.Quantize.TheVariants.{Threshold};

    ghost is_default = { λ o. o ≡ record { quantize = Threshold 128; ext = None; strict = false } };

    fn default() -> EncodeOptions {
        EncodeOptions::new()
    }
}
