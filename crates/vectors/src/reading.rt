// Lists of calls on a reading session.
use crate::answer::{Answer, checked, joined, numbers};
use crate::bytes::{Bytes, front};
use crate::case::Replayed;
use crate::readers::fields_of;
use crate::settings::Settings;
use crate::stages::{Letter, Session, opens, run_stages};
use decode_session::DecodeSession;
use header::ParsedHeader;
use header_reader::FieldsSeen;
use options::DecodeOptions;
use replay::replay_decode;

// How long the extension buffer is of which the front is lent.
const BUFFER: usize = 4200;

// A case's input: the settings, what output and extension buffer hold at first, the lengths of the
// extension buffer lent to the opening and of the file in two bytes each, file and stages.
#[derive(Clone, Copy)]
pub(crate) struct Reading<'a> {
    pub options: DecodeOptions,
    pub mark: u8,
    buffer_len: usize,
    file: &'a [u8],
    stages: Bytes<'a>,
}

impl<'a> Reading<'a> {
    pub(crate) fn read(mut input: Bytes<'a>) -> Reading<'a> {
        let options = Settings::read(&mut input).reading();
        let mark = input.byte();
        let buffer_len = input.short();
        let size = input.short();
        Reading {
            options,
            mark,
            buffer_len,
            file: input.take(size),
            stages: input,
        }
    }

    // The same over another file.
    pub(crate) fn over(self, file: &'a [u8]) -> Reading<'a> {
        Reading { file, ..self }
    }

    // Replays a list, its outputs one behind the other in `out`. The opening writes nothing, so its text in the block is empty.
    pub(crate) fn run_list(self, list: &mut Bytes, out: &mut [u8]) -> Replayed {
        let buffer = [self.mark; BUFFER];
        let (session, answer) = DecodeSession::open(self.options, front(&buffer, self.buffer_len));
        let mut all = Replayed {
            comparisons: 1,
            same: opens(list, &checked(answer), b""),
        };
        let mut reader = Reader {
            mark: self.mark,
            file: self.file,
            session,
            buffer,
        };
        all.add(run_stages(&mut reader, list, self.stages, 0, out));
        all.same &= ends_with(list, reader.session.header());
        all
    }
}

// Whether the header that the session ends with is as the block has it; its text is empty, and it
// has no stages.
fn ends_with(list: &mut Bytes, header: Option<ParsedHeader>) -> bool {
    let right = list.accepts(&header.map_or([0; 11], sizes));
    list.is_text(b"");
    list.number();
    right
}

// 1, the sizes, where the body starts, the FixHeader and the fields: the order is the list's, as in files.rt.
fn sizes(h: ParsedHeader) -> Answer {
    let (width, height) = (h.width as usize, h.height as usize);
    let fix = usize::from(h.fix_header);
    joined(
        &[1, width, height, h.data_offset, fix],
        &fields_of(h.ext_fields),
    )
}

// A list under way.
#[derive(Drop)]
struct Reader<'a> {
    mark: u8,
    file: &'a [u8],
    session: DecodeSession,
    buffer: [u8; BUFFER],
}

impl<'a> Session for Reader<'a> {
    fn run(
        &mut self,
        _letter: Letter,
        calls: &[usize],
        out: &mut [u8],
        answers: &mut [usize],
    ) -> Option<usize> {
        Some(replay_decode(
            &mut self.session,
            calls,
            self.file,
            out,
            &mut self.buffer,
            answers,
        ))
    }

    fn is_buffer(&self, list: &mut Bytes) -> bool {
        list.is_text(&self.buffer)
    }

    fn leaves_open(&self, _letter: Letter) -> bool {
        false
    }

    // 1 where it is closed, how many frames are done, 1 where its fields are known, and these.
    fn asked(&self) -> Answer {
        let closed = usize::from(self.session.is_closed());
        let frames = self.session.frames() as usize;
        match self.session.fields() {
            FieldsSeen::Unread => numbers(&[closed, frames]),
            FieldsSeen::Seen(fields) => joined(&[closed, frames, 1], &fields_of(fields)),
        }
    }

    fn mark(&self) -> u8 {
        self.mark
    }
}
