// Whole making: scans of gray samples, end to end, become the frames of a file.
ghost use Rattle.options.specs.Defaults.{made_frames};
ghost use Rattle.std.specs.Prelude.{◌≡◌, ◌*◌, ◌≤◌, length};
ghost use Rattle.error.specs.Answer.{checked, gives, written};
ghost use Rattle.image.specs.Geometry.{plane_bytes};
ghost use Rattle.rules.specs.Rule.{rule_asked, rule_given};
ghost use Rattle.encoder.specs.Make.{check_scans, Makes};
ghost use Rattle.encoder.specs.Internal.Scans.{PutsScans};
ghost use Rattle.encoder.specs.Internal.Begin.{BeginsMade};

use crate::file::{begin_header_before, check_count};
use error::{Refusal, Result, WbmpError};
use ext_write::{PairList, PairsBegun};
use image::PlaneLayout;
use options::EncodeOptions;

// Scans as they are lent, end to end: the size of each, and how many they are.
#[derive(Clone, Copy)]
struct Scans {
    width: u32,
    height: u32,
    count: usize,
}

// Whether so many samples and numbers of work serve for the scans.
fn check_scans(scans: Scans, options: EncodeOptions, gray: usize, work: usize) -> Result<()>
    ensures { checked result ≡ check_scans made_frames options scans.width scans.height scans.count gray work }
{
    check_count(scans.width, scans.height, scans.count)?;
    quantize::check_rule(options.quantize, scans.width, work)?;
    let area = scans.width as usize * scans.height as usize;
    if gray / area < scans.count {
        return Err(WbmpError::new(Refusal::GrayTooShort, 0));
    }
    Ok(())
}

// The planes of scans that passed the test, each in its own stretch of the lent output.
// By index: after a loop over `chunks_exact_mut` nothing is known of `out`.
fn put_scans(scans: Scans, gray: &[u8], options: EncodeOptions, work: &mut [i16], out: &mut [u8])
    requires work_value { check_scans made_frames options scans.width scans.height scans.count (length gray.now)
        (length work.old) ≡ gives tt }
    requires height_in_bounds { scans.count * plane_bytes scans.width scans.height ≤ length out.old }
    ensures { PutsScans (rule_given (rule_asked options)) scans.width scans.height scans.count
        gray.now out.old work.old out.new work.new }
{
    let width = scans.width;
    let height = scans.height;
    let area = width as usize * height as usize;
    let plane = PlaneLayout::new(width, height).total_bytes;
    for k in 0..scans.count {
        let from = k * area;
        let to = k * plane;
        quantize::quantize_gray8(
            width,
            height,
            &gray[from..],
            options.quantize,
            work,
            &mut out[to..],
        )
        .unwrap();
    }
}

// A file of scans, up to the pairs of its header, which were checked before. `begin_images` has the same steps: a trait of both would lend
// planes a work buffer that they do not have.
fn begin_gray8(
    scans: Scans,
    gray: &[u8],
    options: EncodeOptions,
    text: &[u8],
    found: Result<usize>,
    work: &mut [i16],
    out: &mut [u8],
) -> Result<PairsBegun>
    ensures { BeginsMade scans.width scans.height scans.count gray.now options text.now found
        work.old work.new out.old out.new result }
{
    check_scans(scans, options, gray.len(), work.len())?;
    let body = scans.count * PlaneLayout::new(scans.width, scans.height).total_bytes;
    let mut begun = begin_header_before(
        body,
        scans.width,
        scans.height,
        options,
        text,
        found,
        out,
    )?;
    put_scans(scans, gray, options, work, &mut out[begun.end..]);
    begun.end += body;
    Ok(begun)
}

// A file of `count` scans, each width × height samples; surplus gray is ignored. Nothing is written on a refusal.
// The pairs are lent as records or as lengths.
pub fn encode_gray8<P: PairList + Copy>(
    width: u32,
    height: u32,
    count: usize,
    gray: &[u8],
    options: EncodeOptions,
    text: &[u8],
    pairs: P,
    work: &mut [i16],
    out: &mut [u8],
) -> Result<usize>
    ensures { Makes made_frames options width height count gray.now text.now
        (P.lengths pairs) out.old work.old (written result) out.new work.new }
{
    let scans = Scans {
        width,
        height,
        count,
    };
    // These three steps are those of `encode_images`: a closure for the middle one would borrow `out`, which `put_pairs` needs behind it.
    let found = ext_write::check_pairs(text, pairs, options.strict);
    let begun = begin_gray8(scans, gray, options, text, found, work, &mut *out)?;
    Ok(ext_write::put_pairs(text, pairs, begun, out))
}
