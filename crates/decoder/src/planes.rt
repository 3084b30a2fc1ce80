// Planes in the asked format.
ghost use Rattle.std.specs.Prelude.{◌≡◌, ◌++◌, ◌+◌, ◌*◌, ◌≤◌, length, drop};
ghost use Rattle.header.specs.Read.{parsed};
ghost use Rattle.image.specs.Geometry.{row_bytes};
ghost use Rattle.image.specs.Rows.{convert_format};
ghost use Rattle.decoder.specs.Body.{plane_of, planes};

use header::ParsedHeader;
use image::{PixelFormat, PlaneLayout};

// A plane as the file has it, in the asked format, at the front of the lent output.
fn write_plane(plane: &[u8], width: u32, height: u32, format: PixelFormat, out: &mut [u8])
    requires { length plane.now ≤ length out.old }
    ensures { out.new
        ≡ convert_format PixelFormat.MonoBlack format width height (row_bytes width) plane.now ++ drop
        (length plane.now) out.old }
{
    let _ = image::into_format(plane, width, height, PixelFormat::MonoBlack, format, out);
}

// The first `frames` planes, each in its own stretch of the lent output. By index: by `chunks_exact` zipped with `chunks_exact_mut` was
// tried, after which nothing is known of `out`.
pub(crate) fn write_planes(
    bytes: &[u8],
    h: ParsedHeader,
    frames: usize,
    format: PixelFormat,
    out: &mut [u8],
)
    requires { (h.data_offset + frames * plane_of (parsed h) ≤ length bytes.now)
        × (frames * plane_of (parsed h) ≤ length out.old) }
    ensures { out.new
        ≡ planes format bytes.now (parsed h) frames ++ drop (frames * plane_of (parsed h)) out.old }
{
    let start = h.data_offset;
    let layout = PlaneLayout::new(h.width, h.height);
    let plane = layout.total_bytes;
    for k in 0..frames {
        let to = k * plane;
        let from = start + to;
        write_plane(
            &bytes[from..from + plane],
            h.width,
            h.height,
            format,
            &mut out[to..],
        );
    }
}
