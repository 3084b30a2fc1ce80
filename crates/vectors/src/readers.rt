// The answers of the readers, the checks and the lookup.
use crate::answer::{Answer, checked, joined, numbers, refused};
use crate::bytes::Bytes;
use crate::case::Case;
use crate::{files, planes, settings};
use error::Result;
use ext::{ExtFieldType, ExtFields, FixHeaderField};
use ext_write::Parameter;
use header::ParsedHeader;

impl Case<'_> {
    // By its number, as in case.rt.
    pub(crate) fn answer(self) -> Answer {
        let input = self.input;
        match self.operation {
            0 => integer(input, false),
            1 => integer(input, true),
            2 => fields(input, false),
            3 => fields(input, true),
            4 => header(header::parse_header_inner(input.rest, false)),
            5 => header(header::parse_header_inner(input.rest, true)),
            6 => header(header::parse_header_ext_inner(input.rest, false)),
            7 => header(header::parse_header_ext_inner(input.rest, true)),
            8 => lookup(input),
            9 => validate(input),
            10 => from_byte(input),
            12 => planes::white(input),
            13 => planes::geometry(input),
            14 => settings::check(input),
            15 => files::info(input.rest),
            16 => files::sniff(input.rest),
            17 => files::probe(input.rest),
            _ => length(input),
        }
    }
}

fn length(mut input: Bytes) -> Answer {
    numbers(&[0, mbi::mbi_u32_len(input.long())])
}

// `strict` picks one of two functions here and in `fields`: the cases test both.
fn integer(mut input: Bytes, strict: bool) -> Answer {
    let offset = input.short();
    let read = if strict {
        mbi::read_mbi_u32_strict(input.rest, offset)
    } else {
        mbi::read_mbi_u32(input.rest, offset)
    };
    read.map_or_else(refused, |(value, offset)| {
        numbers(&[0, offset, value as usize])
    })
}

// The FixHeader byte stands first in the bytes of the fields, too.
fn fix_of(mut bytes: Bytes) -> FixHeaderField {
    FixHeaderField::from_byte(bytes.byte())
}

fn fields(mut input: Bytes, strict: bool) -> Answer {
    let offset = input.short();
    let fix = fix_of(input);
    let read = if strict {
        ext::parse_ext_fields_strict(fix, input.rest, offset)
    } else {
        ext::parse_ext_fields(fix, input.rest, offset)
    };
    read.map_or_else(refused, |fields| joined(&[0, 0], &fields_of(fields)))
}

// 1 for kind 00 to 4 for kind 11.
fn number_of(kind: ExtFieldType) -> usize {
    1 + kind as usize
}

fn header(read: Result<ParsedHeader>) -> Answer {
    read.map_or_else(refused, sizes)
}

// The order is the list's, as in files.rt.
fn sizes(h: ParsedHeader) -> Answer {
    let (width, height) = (h.width as usize, h.height as usize);
    let fix = usize::from(h.fix_header);
    joined(
        &[0, h.data_offset, width, height, fix],
        &fields_of(h.ext_fields),
    )
}

// The kind, where the fields start, their length and the number of pairs.
pub(crate) fn fields_of(ext: Option<ExtFields>) -> [usize; 4] {
    ext.map_or([0; 4], |f| [number_of(f.ext_type), f.start, f.len, f.pairs])
}

fn lookup(mut input: Bytes) -> Answer {
    let size = input.byte();
    let identifier = input.take(usize::from(size));
    let offset = input.short();
    let found = ext::find::lookup(fix_of(input), input.rest, offset, identifier);
    found.map_or_else(refused, |value| {
        value.map_or([0; 11], |v| numbers(&[0, 0, 1, v.start, v.len]))
    })
}

fn validate(mut input: Bytes) -> Answer {
    let size = input.byte();
    let identifier = input.take(usize::from(size));
    checked(Parameter::validate(identifier, input.rest))
}

fn from_byte(input: Bytes) -> Answer {
    let fix = fix_of(input);
    let follow = usize::from(fix.ext_fields_follow);
    numbers(&[0, usize::from(fix.raw), follow, number_of(fix.ext_type)])
}
