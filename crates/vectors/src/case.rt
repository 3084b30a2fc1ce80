// Replaying one case: a reader's answer; a writer's with the bytes that it has to write and those
// that it has to leave alone; a plane that is changed in place.
use crate::answer::refused;
use crate::bytes::{Bytes, front, is_same};
use crate::fields::{Contents, Fields, LENGTHS};
use crate::list::TEXT;
use crate::planes::convert;
use crate::stages::BEHIND;
use error::{Refusal, WbmpError};
use ext_write::PairList;

// What the output holds before each call; `want` holds it behind what is written.
const MARK: u8 = 165;

// From here on writers of fields are called over records alone.
const RECORDS: usize = 46;

// How many comparisons a case took, and whether all were right.
#[derive(Clone, Copy)]
pub(crate) struct Replayed {
    pub comparisons: usize,
    pub same: bool,
}

impl Replayed {
    pub(crate) fn add(&mut self, more: Replayed) {
        self.comparisons = self.comparisons.saturating_add(more.comparisons);
        self.same &= more.same;
    }
}

// The number of a case's operation, and its arguments.
#[derive(Clone, Copy)]
pub(crate) struct Case<'a> {
    pub operation: usize,
    pub input: Bytes<'a>,
}

impl Case<'_> {
    // Operations from 32 on are writers; 64 works in place; from 96 on they are lists of calls. The
    // list names them by numbers; an enum would name each a third time, between its number and its call.
    pub(crate) fn replay(self, list: &mut Bytes) -> Replayed {
        match self.operation {
            0..=31 => self.replay_reader(list),
            32..=63 => self.replay_writer(list),
            64..=95 => self.replay_in_place(list),
            _ => self.replay_lists(list),
        }
    }

    // It writes nothing, so the text in the list is empty.
    fn replay_reader(self, list: &mut Bytes) -> Replayed {
        let same = list.accepts(&self.answer());
        list.number();
        Replayed {
            comparisons: 1,
            same,
        }
    }

    // The plane is changed in place, and the bytes behind it stay.
    fn replay_in_place(self, list: &mut Bytes) -> Replayed {
        let mut want = [MARK; TEXT];
        let mut plane = [MARK; TEXT];
        let right = list.accepts(&convert(self.input, &mut plane));
        list.text(&mut want);
        Replayed {
            comparisons: 1,
            same: right && is_same(&plane, &want),
        }
    }

    // A writer of fields is called over lengths, and again over records where it can be.
    fn replay_writer(self, list: &mut Bytes) -> Replayed {
        let answers = *list;
        list.accepts(&[0; 11]);
        let mut want = [MARK; TEXT];
        let len = list.text(&mut want).len().min(TEXT - 1);
        let writing = Writing {
            case: self,
            answers,
            want: &want,
            len,
        };
        match self.fields() {
            Some(fields) if self.operation >= RECORDS => writing.replay(fields.over_records()),
            Some(fields) => writing.replay_fields(fields),
            None => {
                let (text, pairs): (&[u8], &[usize]) = (&[], &[]);
                writing.replay(Contents { text, pairs })
            }
        }
    }
}

// A writer's case, the answers that it accepts, the output as it has to be left, and how many of its bytes are written.
#[derive(Clone, Copy)]
struct Writing<'a> {
    case: Case<'a>,
    answers: Bytes<'a>,
    want: &'a [u8],
    len: usize,
}

impl Writing<'_> {
    // Apart, since each writer's case would pay for the lengths' space.
    #[inline(never)]
    fn replay_fields(self, fields: Fields) -> Replayed {
        let mut lengths = [0; LENGTHS];
        let mut all = self.replay(fields.over_lengths(&mut lengths));
        if fields.are_pairs() {
            all.add(self.replay(fields.over_records()));
        }
        all
    }

    // A case that is accepted gets an output exactly long enough, one longer and one too short; a
    // refused one gets none and some.
    fn replay<P: PairList + Copy>(self, contents: Contents<P>) -> Replayed {
        match self.len {
            0 => self.replay_at(contents, &[0, 64]),
            len => self.replay_at(contents, &[len, len.saturating_add(1), len - 1]),
        }
    }

    fn replay_at<P: PairList + Copy>(self, contents: Contents<P>, sizes: &[usize]) -> Replayed {
        // Apart, since a closure may copy no struct of a type parameter.
        let Contents { text, pairs } = contents;
        Replayed {
            comparisons: sizes.len(),
            same: sizes
                .iter()
                .all(|size| self.is_right(Contents { text, pairs }, *size)),
        }
    }

    // One call with an output of `size` bytes; some behind them are compared too.
    fn is_right<P: PairList + Copy>(mut self, contents: Contents<P>, size: usize) -> bool {
        let mut out = [MARK; TEXT];
        let lent = &mut out[..size.min(TEXT)];
        let got = self.case.write(contents, lent);
        let end = size.saturating_add(BEHIND);
        if size < self.len {
            let short = refused(WbmpError::new(Refusal::OutputTooShort, 0));
            return is_same(&got, &short) && is_same(front(&out, end), front(&[MARK; TEXT], end));
        }
        self.answers.accepts(&got) && is_same(front(&out, end), front(self.want, end))
    }
}
