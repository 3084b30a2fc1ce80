// The settings that C asks for by numbers.
ghost use Rattle.std.specs.Prelude.{◌≡◌};
ghost use Rattle.error.specs.Answer.{answered};
ghost use Rattle.options.specs.Limits.{bound_of};
ghost use Rattle.capi.specs.Asked.{chosen, limit_of, settings_of, meaning};

use error::{Refusal, Result, WbmpError};
use image::PixelFormat;
use options::{DecodeMode, DecodeOptions, Limit};

// What C asks for, in its order.
#[derive(Drop)]
pub(crate) struct Asked {
    pub format: u32,
    pub strict: u32,
    pub max_width: u32,
    pub max_height: u32,
    pub max_pixels: u64,
    pub max_bytes: u64,
}

fn limit(most: u64, largest: u64) -> Limit
    ensures { bound_of result ≡ limit_of largest most }
{
    (most != largest).then_some(most)
}

// What C calls 0 or 1. No `TryFrom<u32>` of these types: the numbers are C's.
fn chosen<T: Copy>(number: u32, zero: T, one: T) -> Result<T>
    ensures { answered result ≡ chosen number zero one }
{
    match number {
        0 => Ok(zero),
        1 => Ok(one),
        _ => Err(WbmpError::new(Refusal::UnknownSetting, 0)),
    }
}

impl TryFrom<Asked> for DecodeOptions {
    type Error = WbmpError;

    ghost try_from_gives = { λ a r. meaning r
        ≡ settings_of a.format a.strict a.max_width a.max_height a.max_pixels a.max_bytes };

    fn try_from(asked: Asked) -> Result<DecodeOptions> {
        Ok(DecodeOptions {
            format: chosen(asked.format, PixelFormat::MonoBlack, PixelFormat::MonoWhite)?,
            mode: chosen(asked.strict, DecodeMode::Lenient, DecodeMode::Strict)?,
            max_width: limit(u64::from(asked.max_width), u64::from(u32::MAX)),
            max_height: limit(u64::from(asked.max_height), u64::from(u32::MAX)),
            max_pixels: limit(asked.max_pixels, u64::MAX),
            max_bytes: limit(asked.max_bytes, u64::MAX),
        })
    }
}
