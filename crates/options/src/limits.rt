// The limits of the Rust's earlier interface.
ghost use Rattle.std.specs.Prelude.{◌≡◌};
ghost use Rattle.options.specs.Limits.{decoding};
ghost use Rattle.options.specs.Defaults.{from_limits, limits_default, limits_unbounded};

use crate::DecodeOptions;

#[derive(Clone, Copy)]
pub struct WbmpLimits {
    pub max_width: u32,
    pub max_height: u32,
    // Bytes of one plane.
    pub max_pixel_bytes: usize,
}

impl Default for WbmpLimits {
    ghost is_default = { λ l. l ≡ limits_default };

    fn default() -> WbmpLimits {
        WbmpLimits {
            max_width: 16384,
            max_height: 16384,
            max_pixel_bytes: 8388608,
        }
    }
}

impl WbmpLimits {
    // Limits that admit everything.
    pub fn unbounded() -> WbmpLimits
        ensures { result ≡ limits_unbounded }
    {
        WbmpLimits {
            max_width: u32::MAX,
            max_height: u32::MAX,
            max_pixel_bytes: usize::MAX,
        }
    }
}

// The same limits as settings of reading.
impl From<WbmpLimits> for DecodeOptions {
    ghost from_gives = { λ l o. decoding o ≡ from_limits l };

    fn from(limits: WbmpLimits) -> DecodeOptions {
        DecodeOptions::new()
            .with_max_width(Some(u64::from(limits.max_width)))
            .with_max_height(Some(u64::from(limits.max_height)))
            .with_max_pixels(None)
            .with_max_bytes(Some(limits.max_pixel_bytes as u64))
    }
}
