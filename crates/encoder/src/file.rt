// What every file that is written or made has: its frames are counted, and its header stands in front.
ghost use Rattle.options.specs.Defaults.{made_frames};
ghost use Rattle.std.specs.Prelude.{◌≡◌};
ghost use Rattle.error.specs.Answer.{checked};
ghost use Rattle.encoder.specs.File.{check_count};
ghost use Rattle.encoder.specs.Internal.Begin.{BeginsBefore};

use error::{Refusal, Result, WbmpError};
use ext_write::PairsBegun;
use options::{EncodeOptions, MAX_MADE_FRAMES};

const MAX_FRAMES: usize = MAX_MADE_FRAMES as usize;

// Whether a file has this size and so many frames.
pub(crate) fn check_count(width: u32, height: u32, count: usize) -> Result<()>
    ensures { checked result ≡ check_count made_frames width height count }
{
    if width == 0 || height == 0 {
        return Err(WbmpError::new(Refusal::ZeroDimension, 0));
    }
    if count == 0 || count > MAX_FRAMES {
        return Err(WbmpError::new(Refusal::FrameCount, 0));
    }
    Ok(())
}

// The header, up to its pairs, at the front of the lent output, if it and a body of so many bytes fit. `found` answers the pairs' check,
// which alone is generic over their list, and whose refusal comes behind those of sizes, count, rule, planes and scans.
pub(crate) fn begin_header_before(
    body: usize,
    width: u32,
    height: u32,
    options: EncodeOptions,
    text: &[u8],
    found: Result<usize>,
    out: &mut [u8],
) -> Result<PairsBegun>
    ensures { BeginsBefore body width height options text.now found out.old out.new result }
{
    let room = out.len().saturating_sub(body);
    header::begin_header(width, height, options.ext, text, found, &mut out[..room])
}
