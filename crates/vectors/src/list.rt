// Reading a block of the list, whose form tools/oracle/src/list.rs tells.
use crate::bytes::{Bytes, is_same};

// The longest text.
pub(crate) const TEXT: usize = 8192;

impl Bytes<'_> {
    pub(crate) fn number(&mut self) -> usize {
        let mut value = 0;
        for _ in 0..self.rest.len() {
            let byte = self.byte();
            value = (value << 7) | usize::from(byte & 127);
            if byte < 128 {
                return value;
            }
        }
        value << 7
    }

    // How many entries follow, each of a byte or more: no more than the block has bytes.
    pub(crate) fn count(&mut self) -> usize {
        self.number().min(self.whole.len())
    }

    // A text, its parts repeated, which is put to the front of `space`. Where it does not fit, nothing is left of the list.
    pub(crate) fn text<'b>(&mut self, space: &'b mut [u8]) -> &'b mut [u8] {
        let mut len = 0;
        for _ in 0..self.count() {
            if self.rest.is_empty() {
                break;
            }
            len = self.part(space, len);
        }
        let end = len.min(space.len());
        &mut space[..end]
    }

    // Puts a part behind the first `from` bytes, and says where it ends. Not into the rest of the space: a text is the front of the whole.
    // The last repetition may be cut.
    fn part(&mut self, out: &mut [u8], from: usize) -> usize {
        let times = self.number();
        let size = self.number();
        let part = self.take(size);
        let from = from.min(out.len());
        let end = from
            .saturating_add(size.saturating_mul(times))
            .min(out.len());
        repeat(part, size, &mut out[from..end]);
        let last = from.saturating_add(size.saturating_mul(times.saturating_sub(1)));
        if times > out.len() || times > 0 && last >= out.len() {
            self.rest = &[];
        }
        end
    }

    // Whether the next text is `bytes`.
    pub(crate) fn is_text(&mut self, bytes: &[u8]) -> bool {
        let mut space = [0; TEXT];
        let text = self.text(&mut space);
        is_same(text, bytes)
    }
}

// Fills the space with repetitions of `size` bytes each, the part's and zeros behind them.
fn repeat(part: &[u8], size: usize, space: &mut [u8]) {
    match part {
        // Most parts that are repeated are one byte.
        [byte] if size == 1 => space.fill(*byte),
        _ => {
            space.fill(0);
            // Not by copy_from_slice: tried, and that the last one is no longer than the part was not proved.
            for chunk in space.chunks_mut(size.max(1)) {
                for (to, byte) in chunk.iter_mut().zip(part) {
                    *to = *byte;
                }
            }
        }
    }
}
