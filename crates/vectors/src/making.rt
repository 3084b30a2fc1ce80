// Lists of calls on a making session.
use crate::answer::{Answer, numbers, written};
use crate::bytes::{Bytes, behind, front};
use crate::case::Replayed;
use crate::encoders::{options_of, rule_of, used};
use crate::fields::{Contents, Fields, LENGTHS};
use crate::list::TEXT;
use crate::stages::{Letter, Session, is_marked, opens, run_stages};
use crate::work::{DIRT, WORK, unaltered_from};
use encode_session::EncodeSession;
use ext_write::PairList;
use options::EncodeOptions;
use replay::replay_encode;

// A case's input: 1 for strict, the kind of rule, width and height in four bytes each, the rule's
// number, what the output holds at first, the lengths of the work buffer and of the output lent to
// the opening, of the fields and of the samples in two bytes each, fields, samples and stages.
#[derive(Clone, Copy)]
pub(crate) struct Making<'a> {
    options: EncodeOptions,
    pub width: u32,
    pub height: u32,
    pub mark: u8,
    work_len: usize,
    head_len: usize,
    fields: Fields<'a>,
    samples: &'a [u8],
    stages: Bytes<'a>,
}

impl<'a> Making<'a> {
    pub(crate) fn read(mut input: Bytes<'a>) -> Making<'a> {
        let strict = input.byte() == 1;
        let kind = input.byte();
        let width = input.long();
        let height = input.long();
        let number = input.byte();
        let mark = input.byte();
        let work_len = input.short();
        let head_len = input.short();
        let size = input.short();
        let samples = input.short();
        let fields = Fields::read(Bytes::new(input.take(size)));
        Making {
            options: options_of(strict, rule_of(kind, number), fields),
            width,
            height,
            mark,
            work_len,
            head_len,
            fields,
            samples: input.take(samples),
            stages: input,
        }
    }

    // Replays a list, opened over lengths, its outputs one behind the other in `out`; and again,
    // opened over records, where its fields can be told so.
    pub(crate) fn run_lists(self, list: &mut Bytes, out: &mut [u8]) -> Replayed {
        let mut again = *list;
        let mut space = [0; LENGTHS];
        let mut all = self.run_list(self.fields.over_lengths(&mut space), list, out);
        if self.fields.are_pairs() {
            let mut other = [self.mark; TEXT];
            all.add(self.run_list(self.fields.over_records(), &mut again, &mut other));
        }
        all
    }

    fn run_list<P: PairList + Copy>(
        self,
        contents: Contents<P>,
        list: &mut Bytes,
        out: &mut [u8],
    ) -> Replayed {
        let work = [DIRT; WORK];
        let head = self.head_len.min(out.len());
        let (session, answer) = EncodeSession::open(
            self.width,
            self.height,
            self.options,
            contents.text,
            contents.pairs,
            front(&work, self.work_len),
            &mut out[..head],
        );
        let right = opens(list, &written(answer), front(out, head));
        let mut all = Replayed {
            comparisons: 1,
            same: right && is_marked(behind(out, head), self.mark),
        };
        let mut maker = Maker {
            card: self,
            session,
            work,
        };
        all.add(run_stages(&mut maker, list, self.stages, self.head_len, out));
        all
    }
}

// A list under way.
#[derive(Drop)]
struct Maker<'a> {
    card: Making<'a>,
    session: EncodeSession,
    work: [i16; WORK],
}

impl<'a> Session for Maker<'a> {
    // The work buffer is first filled as the letter says. The run may alter none of it by the letter, or where the rule wants none.
    fn run(
        &mut self,
        letter: Letter,
        calls: &[usize],
        out: &mut [u8],
        answers: &mut [usize],
    ) -> Option<usize> {
        if let Some(number) = letter.foreign {
            self.work.fill(number);
        }
        let kept = self.work;
        let samples = self.card.samples;
        let made = replay_encode(
            &mut self.session,
            calls,
            samples,
            &mut self.work,
            out,
            answers,
        );
        let altered = if letter.work_kept {
            0
        } else {
            used(self.card.options.quantize, self.card.width)
        };
        unaltered_from(&self.work, &kept, altered).then_some(made)
    }

    // It has none: any text will do.
    fn is_buffer(&self, list: &mut Bytes) -> bool {
        list.is_text(&[]);
        true
    }

    fn leaves_open(&self, letter: Letter) -> bool {
        letter.dots_open
    }

    // 1 where it is closed, and how many frames are done.
    fn asked(&self) -> Answer {
        let closed = usize::from(self.session.is_closed());
        numbers(&[closed, self.session.frames() as usize])
    }

    fn mark(&self) -> u8 {
        self.card.mark
    }
}
