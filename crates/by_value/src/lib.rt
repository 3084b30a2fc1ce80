// Pairs to be written as up to 8 records by value. Without a heap this is the list that a function can make and return, and a struct keep;
// an array with a count is what it takes. Who has a list lends it, as `&list[..n]`.
#![tactic(auto)]

ghost use Rattle.std.specs.Prelude.{◌≡◌, take};
ghost use Rattle.ext_write.specs.Write.{flattened};

use ext_write::{PairList, Parameter};

// Of the list the first `pairs` count, all 8 where that is larger.
#[derive(Clone, Copy)]
pub struct Records {
    pub list: [Parameter; 8],
    pub pairs: usize,
}

impl Records {
    // Those that count.
    fn counted(&self) -> &[Parameter]
        ensures { result.now ≡ take self.now.pairs self.now.list }
    {
        &self.list[..self.pairs.min(8)]
    }
}

impl PairList for Records {
    ghost lengths = { λ records. flattened (take records.pairs records.list) };

    fn count(&self) -> usize {
        self.counted().count()
    }

    fn length(&self, k: usize) -> usize {
        self.counted().length(k)
    }
}
