// Answers as numbers: a refusal is its number and place, an acceptance 0 and the values given.
use crate::bytes::{Bytes, is_same};
use error::{Result, WbmpError};
use std::array;

// Behind the last number stand zeros, which the list leaves out: no count is kept.
pub(crate) type Answer = [usize; 11];

pub(crate) fn numbers(given: &[usize]) -> Answer {
    joined(given, &[])
}

// The numbers of both, one behind the other.
pub(crate) fn joined(first: &[usize], last: &[usize]) -> Answer {
    let mut given = first.iter().chain(last).copied();
    array::from_fn(|_| given.next().unwrap_or(0))
}

pub(crate) fn refused(e: WbmpError) -> Answer {
    numbers(&[usize::from(e.kind.number()), e.offset])
}

pub(crate) fn checked(answer: Result<()>) -> Answer {
    answer.map_or_else(refused, |_| [0; 11])
}

pub(crate) fn written(answer: Result<usize>) -> Answer {
    answer.map_or_else(refused, |n| numbers(&[0, n]))
}

impl Bytes<'_> {
    // Whether `got` is one of the answers that the list accepts.
    pub(crate) fn accepts(&mut self, got: &Answer) -> bool {
        let mut same = false;
        for _ in 0..self.count() {
            same |= self.is_answer(got);
        }
        same
    }

    // Whether the numbers behind their count are `got`, whose last zeros are left out. Where they are more, the first ones are compared, and
    // nothing is left of the list.
    pub(crate) fn is_answer<const N: usize>(&mut self, got: &[usize; N]) -> bool {
        let count = self.number();
        let mut told = [0; N];
        for to in told.iter_mut().take(count) {
            *to = self.number();
        }
        if count > N {
            self.rest = &[];
        }
        is_same(&told, got)
    }
}
