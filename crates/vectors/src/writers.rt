// Calling a writer with the arguments that a case's input holds.
use crate::answer::{Answer, written};
use crate::bytes::Bytes;
use crate::case::Case;
use crate::encoders::Card;
use crate::fields::{Contents, Fields};
use crate::{encoders, files, planes, scans};
use error::Result;
use ext::ExtFieldType;
use ext_write::PairList;

impl<'a> Case<'a> {
    // The fields that a writer writes, at their place in its input. By its number, as in case.rt.
    pub(crate) fn fields(self) -> Option<Fields<'a>> {
        let mut input = self.input;
        match self.operation {
            33 | 34 | 49 | 50 => Some(Fields::read(input)),
            36 | 37 | 52 | 53 => {
                input.take(8);
                Some(Fields::read(input))
            }
            44..=63 => Some(Card::read(input).fields),
            _ => None,
        }
    }

    // The contents are those of its fields. By its number, as in case.rt.
    pub(crate) fn write<P: PairList + Copy>(self, contents: Contents<P>, out: &mut [u8]) -> Answer {
        let input = self.input;
        match self.operation {
            32 => written(integer(input, out)),
            33 | 49 => written(fields(input, contents, false, out)),
            34 | 50 => written(fields(input, contents, true, out)),
            35 => written(header(input, out)),
            36 | 52 => written(with_fields(input, contents, false, out)),
            37 | 53 => written(with_fields(input, contents, true, out)),
            38 => written(planes::wire(input, out)),
            39 => written(scans::threshold(input, out)),
            40 => scans::dither(input, out),
            41 => written(scans::ordered(input, out)),
            42 => files::decode(input, false, out),
            43 => files::decode(input, true, out),
            44 | 60 => written(encoders::images(Card::read(input), contents, out)),
            _ => encoders::gray(Card::read(input), contents, out),
        }
    }
}

fn integer(mut input: Bytes, out: &mut [u8]) -> Result<usize> {
    mbi::write_mbi_u32(input.long(), out)
}

fn header(mut input: Bytes, out: &mut [u8]) -> Result<usize> {
    let width = input.long();
    let height = input.long();
    header::write_header(width, height, out)
}

// The list has a kind for these: only a header may be without. The cases test both functions.
fn fields<P: PairList + Copy>(
    input: Bytes,
    contents: Contents<P>,
    strict: bool,
    out: &mut [u8],
) -> Result<usize> {
    let f = Fields::read(input);
    let kind = f.kind.unwrap_or(ExtFieldType::ParameterPairs11);
    if strict {
        ext_write::write_ext_fields_strict(kind, contents.text, contents.pairs, out)
    } else {
        ext_write::write_ext_fields(kind, contents.text, contents.pairs, out)
    }
}

// Width and height, then as for the fields alone.
fn with_fields<P: PairList + Copy>(
    mut input: Bytes,
    contents: Contents<P>,
    strict: bool,
    out: &mut [u8],
) -> Result<usize> {
    let width = input.long();
    let height = input.long();
    let f = Fields::read(input);
    let Contents { text, pairs } = contents;
    header::write_header_ext(width, height, f.kind, text, pairs, strict, out)
}
