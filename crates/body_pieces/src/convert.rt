// A stretch of a body in the asked format.
ghost use Rattle.std.specs.Prelude.{◌≡◌, length};
ghost use Rattle.body_pieces.specs.InFormat.{body_from};

use image::PixelFormat;

// All bytes at once, and then the padding. Native ones are of the format that is asked for, so `into_format` only copies them, by blocks:
// `copy_from_slice` is a call of memmove, for which an archive for C would ask from outside.
pub(crate) fn convert(format: PixelFormat, width: u32, at: usize, bytes: &[u8], out: &mut [u8])
    requires { length bytes.now ≡ length out.old }
    ensures { out.new ≡ body_from format width at bytes.now }
{
    // A `match`: a closure for each format would be named at one place alone.
    match format {
        PixelFormat::MonoBlack => {
            let _ = image::into_format(bytes, width, 0, format, format, out);
        }
        PixelFormat::MonoWhite => {
            let _ = image::invert_into(bytes, out);
            image::clear_ends(out, width, at);
        }
    }
}
