// Parts of slices, what compares them, and bytes that are read one behind the other.
ghost use Rattle.std.specs.Prelude.{◌≡◌, take, drop};
ghost use Rattle.std.specs.Cmp.Lexicographic.{pointwise};

use std::array;

// The first `n` elements, or all where there are fewer.
pub(crate) fn front<T>(items: &[T], n: usize) -> &[T]
    ensures { result.now ≡ take n items.now }
{
    &items[..n.min(items.len())]
}

// The elements from the `n`th on.
pub(crate) fn behind<T>(items: &[T], n: usize) -> &[T]
    ensures { result.now ≡ drop n items.now }
{
    &items[n.min(items.len())..]
}

// Whether two lists are the same: bytes, numbers or work. All that the program compares with the list goes through here.
pub(crate) fn is_same<T: PartialEq>(a: &[T], b: &[T]) -> bool
    ensures { result ≡ pointwise T.eq a.now b.now }
{
    a == b
}

// The bytes that are left of the whole. Past their end stand zeros.
#[derive(Clone, Copy)]
pub(crate) struct Bytes<'a> {
    pub whole: &'a [u8],
    pub rest: &'a [u8],
}

impl<'a> Bytes<'a> {
    pub(crate) fn new(whole: &'a [u8]) -> Bytes<'a> {
        Bytes { whole, rest: whole }
    }

    // The next `n` bytes, or all where there are fewer. Places have 64 bits: a larger one is that of its low bits.
    pub(crate) fn take(&mut self, n: usize) -> &'a [u8] {
        let part = front(self.rest, n);
        let at = self.whole.len().wrapping_sub(self.rest.len());
        self.rest = behind(self.whole, at.wrapping_add(n));
        part
    }

    pub(crate) fn byte(&mut self) -> u8 {
        match self.rest.split_first() {
            Some((byte, rest)) => {
                self.rest = rest;
                *byte
            }
            None => 0,
        }
    }

    // A number in two bytes, the high one first.
    pub(crate) fn short(&mut self) -> usize {
        usize::from(u16::from_be_bytes(self.array()))
    }

    // A number in four bytes.
    pub(crate) fn long(&mut self) -> u32 {
        u32::from_be_bytes(self.array())
    }

    // A number in eight bytes.
    pub(crate) fn longest(&mut self) -> u64 {
        u64::from_be_bytes(self.array())
    }

    pub(crate) fn array<const N: usize>(&mut self) -> [u8; N] {
        let part = self.take(N);
        array::from_fn(|k| part.get(k).copied().unwrap_or(0))
    }
}
