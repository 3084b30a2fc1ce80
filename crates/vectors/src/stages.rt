// The stages of a list of calls on a session. In the block a stage is the number of its answers'
// numbers and these, the texts of its output and of the extension buffer, and the number of those
// that can then be asked and these.
use crate::answer::Answer;
use crate::bytes::{Bytes, behind, front, is_same};
use crate::case::Replayed;
use crate::work::foreign;

// The most numbers of calls and of answers in a stage.
const NUMBERS: usize = 1280;

const ANSWERS: usize = 768;

// How many bytes behind an output are compared.
pub(crate) const BEHIND: usize = 64;

// A session with what its calls are lent beside the output.
pub(crate) trait Session {
    // Runs calls given as numbers, the work buffer as the stage's letter says. The answer is how many were made; none where they altered
    // what they have to leave alone.
    fn run(
        &mut self,
        letter: Letter,
        calls: &[usize],
        out: &mut [u8],
        answers: &mut [usize],
    ) -> Option<usize>;

    // Whether the extension buffer is as the block has it.
    fn is_buffer(&self, list: &mut Bytes) -> bool;

    // Whether a stage's output need not be as the block has it.
    fn leaves_open(&self, letter: Letter) -> bool;

    // What can be asked of it.
    fn asked(&self) -> Answer;

    // What the output holds at first.
    fn mark(&self) -> u8;
}

// What a stage's letter says: what somebody else first writes to the work buffer, whether the dots of the output are left open, and whether
// the calls may alter none of the work. It says none of this to a reading.
#[derive(Clone, Copy)]
pub(crate) struct Letter {
    pub foreign: Option<i16>,
    pub dots_open: bool,
    pub work_kept: bool,
}

impl Letter {
    fn read(input: &mut Bytes) -> Letter {
        let byte = input.byte();
        Letter {
            foreign: foreign(byte % 8),
            dots_open: byte & 8 != 0,
            work_kept: byte & 16 != 0,
        }
    }
}

// In the input a stage is a letter, the length of its output and its number of calls in two bytes
// each, and the calls, five numbers of two bytes each.
#[derive(Clone, Copy)]
struct Stage<'a> {
    letter: Letter,
    size: usize,
    count: usize,
    calls: Bytes<'a>,
}

impl<'a> Stage<'a> {
    fn read(input: &mut Bytes<'a>) -> Stage<'a> {
        let letter = Letter::read(input);
        let size = input.short();
        let count = input.short();
        Stage {
            letter,
            size,
            count,
            calls: Bytes::new(input.take(count.saturating_mul(10))),
        }
    }

    // The numbers of the calls, which are put to the front of `space`.
    fn numbers(mut self, space: &mut [usize; NUMBERS]) -> &[usize] {
        let count = self.count.saturating_mul(5);
        for to in space.iter_mut().take(count) {
            *to = self.calls.short();
        }
        front(space, count)
    }
}

// Runs the stages of the input, their outputs one behind the other from `start` on. The calls are counted as comparisons.
pub(crate) fn run_stages<S: Session>(
    session: &mut S,
    list: &mut Bytes,
    mut input: Bytes,
    start: usize,
    out: &mut [u8],
) -> Replayed {
    // Not in chunks: of the bytes behind an output, those of the next one too are compared.
    let mut from = start;
    let mut all = Replayed {
        comparisons: 0,
        same: true,
    };
    for _ in 0..list.count() {
        let stage = Stage::read(&mut input);
        let at = from.min(out.len());
        all.add(Replayed {
            comparisons: stage.count,
            same: run_stage(session, list, stage, &mut out[at..]),
        });
        from = from.saturating_add(stage.size);
    }
    all
}

// Whether all calls are made, the answers are as the block has them, each byte of the stage's output unless it is left open, those behind
// it, the extension buffer, and what can be asked of the session.
fn run_stage<S: Session>(session: &mut S, list: &mut Bytes, stage: Stage, out: &mut [u8]) -> bool {
    let mut space = [0; NUMBERS];
    let mut answers = [0; ANSWERS];
    let calls = stage.numbers(&mut space);
    let size = stage.size.min(out.len());
    let made = session.run(stage.letter, calls, &mut out[..size], &mut answers);
    let told = list.is_answer(&answers);
    let dots = list.is_text(front(out, size)) || session.leaves_open(stage.letter);
    let buffer = session.is_buffer(list);
    let state = list.is_answer(&session.asked());
    made == Some(stage.count)
        && told
        && dots
        && buffer
        && state
        && is_marked(behind(out, size), session.mark())
}

// Whether the bytes behind an output, as many as are compared, are all the mark.
pub(crate) fn is_marked(bytes: &[u8], mark: u8) -> bool {
    let seen = front(bytes, BEHIND);
    is_same(seen, front(&[mark; BEHIND], seen.len()))
}

// Whether the answer of an opening and what it wrote are as the block has them.
pub(crate) fn opens(list: &mut Bytes, answer: &Answer, written: &[u8]) -> bool {
    let right = list.accepts(answer);
    list.is_text(written) && right
}
