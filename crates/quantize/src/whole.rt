// Whole planes, one frame each: at once, or by the engine.
ghost use Rattle.std.specs.Prelude.{◌≡◌, true, ◌≤◌, length};
ghost use Rattle.error.specs.Answer.{gives, checked, written};
ghost use Rattle.options.specs.declared.Quantize.TheVariants.{Threshold, Dither, Ordered};
ghost use Rattle.error.specs.Emits.{Emits};
ghost use Rattle.image.specs.Geometry.{plane_bytes};
ghost use Rattle.quantize.specs.Whole.{scan_checked, quantized, Quantizes};

use crate::asked::check_rule;
use crate::engine::Quantizer;
use diffusion::dither_plane;
use error::{Refusal, Result, WbmpError};
use image::PlaneLayout;
use options::Quantize;
use rules::threshold_plane;

// Whether so many samples and numbers of work serve for a plane.
fn check_scan(width: u32, height: u32, gray: usize, rule: Quantize, work: usize) -> Result<()>
    ensures { checked result ≡ scan_checked rule width height gray work }
{
    if width == 0 || height == 0 {
        return Err(WbmpError::new(Refusal::ZeroDimension, 0));
    }
    check_rule(rule, width, work)?;
    if gray < width as usize * height as usize {
        return Err(WbmpError::new(Refusal::GrayTooShort, 0));
    }
    Ok(())
}

// The plane by the engine, where nothing is refused and there is room for it.
fn engine_plane(
    width: u32,
    height: u32,
    gray: &[u8],
    rule: Quantize,
    work: &mut [i16],
    out: &mut [u8],
)
    requires serves { scan_checked rule width height (length gray.now) (length work.old) ≡ gives tt }
    requires room { plane_bytes width height ≤ length out.old }
    ensures { Quantizes rule width height gray.now out.old work.old (gives (plane_bytes width height))
        out.new work.new }
{
    Quantizer::new(rule, width, height, 1).run(gray, out, work);
}

// So many samples the engine dithers in the time in which `dither_plane` binds its tables.
const FEW_SAMPLES: usize = 16;

// Whether there are few samples and a gray one among them.
fn few_grays(samples: &[u8]) -> bool
    ensures { result ≡ true → length samples.now ≤ 16 }
{
    samples.len() <= FEW_SAMPLES && samples.iter().any(|gray| *gray % 255 != 0)
}

// The dithered plane, where nothing is refused and there is room for it.
fn dithered_plane(width: u32, height: u32, gray: &[u8], work: &mut [i16], out: &mut [u8])
    requires serves { scan_checked Dither width height (length gray.now) (length work.old) ≡ gives tt }
    requires room { plane_bytes width height ≤ length out.old }
    ensures { Quantizes Dither width height gray.now out.old work.old (gives (plane_bytes width height))
        out.new work.new }
{
    let area = width as usize * height as usize;
    if few_grays(&gray[..area]) {
        engine_plane(width, height, gray, Quantize::Dither, work, out);
    } else {
        dither_plane(width, height, gray, work, out);
    }
}

// Packs width × height gray samples into the plane's rows, at the front of the lent output.
pub fn quantize_gray8(
    width: u32,
    height: u32,
    gray: &[u8],
    rule: Quantize,
    work: &mut [i16],
    out: &mut [u8],
) -> Result<usize>
    ensures { Quantizes rule width height gray.now out.old work.old (written result) out.new
        work.new }
{
    check_scan(width, height, gray.len(), rule, work.len())?;
    let need = PlaneLayout::new(width, height).total_bytes;
    if out.len() < need {
        return Err(WbmpError::new(Refusal::OutputTooShort, 0));
    }
    // A match: a trait with an impl for each rule, or closures, would need one to choose among them, and each arm hands on others.
    match rule {
        Quantize::Threshold(bound) => threshold_plane(bound, width, height, gray, out),
        Quantize::Dither => dithered_plane(width, height, gray, work, out),
        Quantize::Ordered(_) => engine_plane(width, height, gray, rule, work, out),
    }
    Ok(need)
}

// The same. This and the next two are names of the Rust, which is "to be translated, names included" (document 00).
pub fn from_gray8(
    width: u32,
    height: u32,
    gray: &[u8],
    quantize: Quantize,
    work: &mut [i16],
    out: &mut [u8],
) -> Result<usize>
    ensures { Quantizes quantize width height gray.now out.old work.old (written result)
        out.new work.new }
{
    quantize_gray8(width, height, gray, quantize, work, out)
}

// White from `threshold` on. No work buffer is needed.
pub fn threshold_bits(
    width: u32,
    height: u32,
    gray: &[u8],
    threshold: u8,
    out: &mut [u8],
) -> Result<usize>
    ensures { Emits (quantized (Threshold threshold) width height gray.now 0) (written result) out.old
        out.new }
{
    quantize_gray8(
        width,
        height,
        gray,
        Quantize::Threshold(threshold),
        &mut [],
        out,
    )
}

// Floyd and Steinberg's dithering.
pub fn dither_bits(
    width: u32,
    height: u32,
    gray: &[u8],
    work: &mut [i16],
    out: &mut [u8],
) -> Result<usize>
    ensures { Quantizes Dither width height gray.now out.old work.old (written result) out.new
        work.new }
{
    quantize_gray8(width, height, gray, Quantize::Dither, work, out)
}

// The ordered rule of this side. No work buffer is needed. A name of its own, so that the rule stands beside the Rust's two.
pub fn ordered_bits(width: u32, height: u32, gray: &[u8], side: u8, out: &mut [u8]) -> Result<usize>
    ensures { Emits (quantized (Ordered side) width height gray.now 0) (written result) out.old
        out.new }
{
    quantize_gray8(width, height, gray, Quantize::Ordered(side), &mut [], out)
}
