// Settings of reading, and the test of their limits.
use crate::answer::{Answer, checked};
use crate::bytes::Bytes;
use crate::planes::format_of;
use options::limits::WbmpLimits;
use options::{DecodeOptions, Limit};

// A case's input: which limits, width and height in four bytes each, the plane's bytes in eight,
// the offset in two, and a letter for each limit. Where a file is read, the offset's place holds
// the format and 1 for strict.
#[derive(Clone, Copy)]
pub(crate) struct Settings {
    limits: DecodeOptions,
    width: u32,
    height: u32,
    bytes: u64,
    place: [u8; 2],
}

impl Settings {
    pub(crate) fn read(input: &mut Bytes) -> Settings {
        let kind = input.byte();
        let width = input.long();
        let height = input.long();
        let bytes = input.longest();
        let place = input.array();
        let letters = input.array();
        let limits = match kind {
            0 => limited(letters, width, height, bytes),
            1 => DecodeOptions::new(),
            2 => WbmpLimits::default().into(),
            3 => WbmpLimits::unbounded().into(),
            _ => DecodeOptions::new().unlimited(),
        };
        Settings {
            limits,
            width,
            height,
            bytes,
            place,
        }
    }

    // The settings of reading a file.
    pub(crate) fn reading(self) -> DecodeOptions {
        let [format, strict] = self.place;
        self.limits
            .with_format(format_of(format))
            .with_strict(strict == 1)
    }
}

fn limited(letters: [u8; 4], width: u32, height: u32, bytes: u64) -> DecodeOptions {
    let [of_width, of_height, of_pixels, of_bytes] = letters;
    let (w, h) = (u64::from(width), u64::from(height));
    DecodeOptions::new()
        .with_max_width(limit(of_width, w))
        .with_max_height(limit(of_height, h))
        .with_max_pixels(limit(of_pixels, w * h))
        .with_max_bytes(limit(of_bytes, bytes))
}

// 0 stands for no limit, 1 for one below `n`, 2 for `n`, 3 for one above.
fn limit(letter: u8, n: u64) -> Limit {
    match letter {
        0 => None,
        1 => Some(n.wrapping_sub(1)),
        2 => Some(n),
        _ => Some(n.wrapping_add(1)),
    }
}

pub(crate) fn check(mut input: Bytes) -> Answer {
    let s = Settings::read(&mut input);
    let offset = usize::from(u16::from_be_bytes(s.place));
    checked(s.limits.check(s.width, s.height, s.bytes, offset))
}
