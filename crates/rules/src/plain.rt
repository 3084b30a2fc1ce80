// Rows whose samples are black and white alone.
ghost use Rattle.std.specs.Prelude.{◌≡◌, ◌≤◌, length};
ghost use Rattle.rules.specs.Internal.Words.{bytes, samples_from, TellsPlain};
ghost use Rattle.rules.specs.Internal.Planes.{PlainRow};

use crate::threshold::{ONES, TOPS, gathered, word};

// Whether each byte is 0 or 255.
fn plain_word(samples: u64) -> bool
    ensures { TellsPlain samples result }
{
    (samples & ONES) * 255 == samples
}

// At most eight samples, and zeros behind them, as `word` has eight. Copied by `copy_from_slice` into an array of zeros, black and white
// rows of 3 to 33 samples take 1.6 to 1.9 times as long.
fn few(gray: &[u8]) -> u64
    requires { length gray.now ≤ 8 }
    ensures { result ≡ bytes (samples_from gray.now 0) 8 }
{
    let mut samples: u64 = 0;
    for i in 0..gray.len() {
        samples += u64::from(gray[i]) << (8 * i) as u32;
    }
    samples
}

// Whether the first `width` samples are there, with room for their row, and black and white alone. The row's bytes are written up to the
// first that has a gray sample.
pub fn plain_row(width: usize, gray: &[u8], out: &mut [u8]) -> bool
    ensures { PlainRow width gray.now out.old result out.new }
{
    if gray.len() < width || out.len() < (width + 7) / 8 {
        return false;
    }
    let count = width / 8;
    // By index: the samples and the output may be longer than the row, and the row need not be whole bytes.
    for k in 0..count {
        let samples = word(gray, 8 * k);
        if !plain_word(samples) {
            return false;
        }
        out[k] = gathered(samples & TOPS);
    }
    if width % 8 == 0 {
        return true;
    }
    let samples = few(&gray[8 * count..width]);
    if !plain_word(samples) {
        return false;
    }
    out[count] = gathered(samples & TOPS);
    true
}
