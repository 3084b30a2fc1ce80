// Replaying a sweep, which puts every string over its alphabet over its base text.
ghost use Rattle.std.specs.Prelude.{◌<◌};

use crate::bytes::Bytes;
use crate::case::{Case, Replayed};
use crate::group::Group;
use crate::list::TEXT;
use std::io;

// The most cases of a sweep.
const CASES: usize = 1048576;

// Where the digits of a sweep's inputs start and how many there are, its alphabet and how many letters this has, and its cases.
#[derive(Clone, Copy)]
struct Plan<'a> {
    at: usize,
    digits: usize,
    count: usize,
    letters: &'a [u8],
    cases: usize,
}

impl<'a> Plan<'a> {
    // There is one case for each string; no plan where the list has another number.
    fn read(list: &mut Bytes<'a>) -> Option<Plan<'a>> {
        let at = list.number();
        let digits = list.number().min(TEXT);
        let count = list.number();
        let plan = Plan {
            at,
            digits,
            count,
            letters: list.take(count),
            cases: list.number(),
        };
        let strings = plan.radix().checked_pow(digits as u32);
        (plan.cases <= CASES && strings == Some(plan.cases)).then_some(plan)
    }

    // No letters stand for all bytes in order.
    fn radix(self) -> usize
        ensures { 0 < result }
    {
        if self.count == 0 { 256 } else { self.count }
    }

    // Zeros stand past the alphabet's end.
    fn letter(self, digit: usize) -> u8 {
        if self.count == 0 {
            return (digit % 256) as u8;
        }
        self.letters.get(digit).copied().unwrap_or(0)
    }

    // Puts the digits of the case over the input, the most significant first; past its end none are put.
    fn spell(self, case: usize, input: &mut [u8]) {
        let radix = self.radix();
        let mut rest = case;
        for i in (0..self.digits).rev() {
            if let Some(to) = input.get_mut(self.at.wrapping_add(i)) {
                *to = self.letter(rest % radix);
            }
            rest /= radix;
        }
    }
}

impl<R: Print> Group<'_, R> {
    // A sweep whose counts are not those of its cases, or that goes past its block, is damaged: the rest of the block is left out.
    pub(crate) fn replay_sweep(&mut self, list: &mut Bytes) -> io::Result<()> {
        let mut space = [0; TEXT];
        let input = list.text(&mut space);
        if !self.replay_cases(list, input)? {
            self.tell_damaged()?;
            self.tally.add_case(Replayed {
                comparisons: 0,
                same: false,
            });
            list.rest = &[];
        }
        self.tally.end_sweep();
        Ok(())
    }

    // Whether all cases are replayed over the base text, up to the next sweep. The answers to them stand one behind the other, each behind
    // the number of successive cases that it answers.
    fn replay_cases(&mut self, list: &mut Bytes, input: &mut [u8]) -> io::Result<bool> {
        let Some(plan) = Plan::read(list) else {
            return Ok(false);
        };
        // How many cases the present answer still has: counted down by hand, since the list says it anew where it runs out.
        let mut left = 0;
        for case in 0..plan.cases {
            if list.rest.is_empty() {
                return Ok(false);
            }
            if left == 0 {
                left = list.number();
            }
            plan.spell(case, input);
            let mut answer = *list;
            self.replay_case(&mut answer, case, input)?;
            left = left.saturating_sub(1);
            if left == 0 {
                *list = answer;
            }
        }
        Ok(left == 0 && !list.rest.is_empty())
    }

    // A group's first ten wrong cases are shown.
    fn replay_case(&mut self, list: &mut Bytes, number: usize, input: &[u8]) -> io::Result<()> {
        let case = Case {
            operation: self.operation,
            input: Bytes::new(input),
        };
        let done = case.replay(list);
        self.tally.add_case(done);
        if !done.same && self.tally.wrong <= 10 {
            self.tell_wrong(number, input)?;
        }
        Ok(())
    }
}
