// The pairs to be written as a list of their lengths.
ghost use Rattle.std.specs.Prelude.{◌≡◌, ◌<◌, ◌+◌, ◌*◌, ◌^◌, ℕ, List, length, get_or};
ghost use Rattle.ext_write.specs.Write.{flattened};

use crate::Parameter;

// Pairs that stand one behind the other in a text. Each has two lengths: the identifier's and the value's.
pub trait PairList {
    ghost lengths: { Self → List ℕ };

    // How many lengths there are.
    fn count(&self) -> usize
        ensures counted { result ≡ length (lengths self.now) }
        ensures few { result < 2 ^ 63 };

    // The length at an index, 0 past the last.
    fn length(&self, k: usize) -> usize
        ensures { result ≡ get_or (lengths self.now) k 0 };
}

// The pair at an index. A length that stands alone at the end is an identifier's, before a value of no bytes.
pub(crate) fn pair_at<P: PairList>(pairs: &P, i: usize) -> Parameter
    requires { i < 2 ^ 62 }
    ensures identifier { result.identifier_len ≡ get_or (P.lengths pairs.now) (2 * i) 0 }
    ensures value { result.value_len ≡ get_or (P.lengths pairs.now) (2 * i + 1) 0 }
{
    Parameter {
        identifier_len: pairs.length(2 * i),
        value_len: pairs.length(2 * i + 1),
    }
}

impl PairList for &[usize] {
    ghost lengths = { λ list. list.now };

    fn count(&self) -> usize {
        self.len()
    }

    fn length(&self, k: usize) -> usize {
        self.get(k).copied().unwrap_or(0)
    }
}

impl PairList for &[Parameter] {
    ghost lengths = { λ list. flattened list.now };

    fn count(&self) -> usize {
        self.len() * 2
    }

    fn length(&self, k: usize) -> usize {
        match self.get(k / 2) {
            Some(p) if k % 2 == 0 => p.identifier_len,
            Some(p) => p.value_len,
            None => 0,
        }
    }
}

// An array that is lent is the list that its slice is: without these impls a caller would have to cut the slice.
impl<const N: usize> PairList for &[usize; N] {
    ghost lengths = { λ list. list.now };

    fn count(&self) -> usize {
        let numbers: &[usize] = *self;
        numbers.count()
    }

    fn length(&self, k: usize) -> usize {
        let numbers: &[usize] = *self;
        numbers.length(k)
    }
}

impl<const N: usize> PairList for &[Parameter; N] {
    ghost lengths = { λ list. flattened list.now };

    fn count(&self) -> usize {
        let records: &[Parameter] = *self;
        records.count()
    }

    fn length(&self, k: usize) -> usize {
        let records: &[Parameter] = *self;
        records.length(k)
    }
}
