// Work buffers: what others leave in them, and what a call has to leave alone.
use crate::bytes::{behind, is_same};

// The longest work buffer, and what one holds at first.
pub(crate) const WORK: usize = 256;

pub(crate) const DIRT: i16 = 12345;

// What somebody else writes to a whole work buffer, by a letter's low bits; nothing where they are 0.
pub(crate) fn foreign(letter: u8) -> Option<i16> {
    match letter {
        0 => None,
        1 => Some(32767),
        2 => Some(-32768),
        3 => Some(129),
        4 => Some(-129),
        5 => Some(128),
        6 => Some(0),
        _ => Some(-300),
    }
}

// Whether the numbers from `start` on are as they were.
pub(crate) fn unaltered_from(work: &[i16; WORK], kept: &[i16; WORK], start: usize) -> bool {
    is_same(behind(work, start), behind(kept, start))
}
