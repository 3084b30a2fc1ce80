// Fields that a case's input holds to be written: their kind, how many lengths in two bytes, the
// lengths, a byte each, and the text. The lengths of at most eight pairs can be told as records too.
use crate::bytes::{Bytes, behind, front};
use by_value::Records;
use ext::{ExtFieldType, FixHeaderField};
use ext_write::Parameter;
use std::array;

// The most lengths in one input.
pub(crate) const LENGTHS: usize = 4096;

#[derive(Clone, Copy)]
pub(crate) struct Fields<'a> {
    pub kind: Option<ExtFieldType>,
    count: usize,
    // Of more lengths those behind are text, where they are not told as records.
    pub most: usize,
    rest: &'a [u8],
}

// What a writer writes of fields: the text, and the lengths in one of their forms.
#[derive(Clone, Copy)]
pub(crate) struct Contents<'a, P> {
    pub text: &'a [u8],
    pub pairs: P,
}

impl<'a> Fields<'a> {
    pub(crate) fn read(mut input: Bytes<'a>) -> Fields<'a> {
        let kind = kind_of(input.byte());
        let count = input.short();
        Fields {
            kind,
            count,
            most: LENGTHS,
            rest: input.rest,
        }
    }

    // Over the lengths, each widened, at the front of `space`.
    pub(crate) fn over_lengths<'b>(
        self,
        space: &'b mut [usize; LENGTHS],
    ) -> Contents<'a, &'b [usize]> {
        let lengths = front(self.rest, self.count.min(self.most));
        for (to, from) in space.iter_mut().zip(lengths) {
            *to = usize::from(*from);
        }
        Contents {
            text: behind(self.rest, lengths.len()),
            pairs: front(space, lengths.len()),
        }
    }

    // Whether they can be told as records.
    pub(crate) fn are_pairs(self) -> bool {
        self.count <= 16 && self.count % 2 == 0
    }

    // Over eight records, of which the pairs count; behind them stand some made of the text.
    pub(crate) fn over_records(self) -> Contents<'a, Records> {
        let mut lengths = self.rest.iter().map(|b| usize::from(*b));
        Contents {
            text: behind(self.rest, self.count),
            pairs: Records {
                list: array::from_fn(|_| Parameter {
                    identifier_len: lengths.next().unwrap_or(0),
                    value_len: lengths.next().unwrap_or(0),
                }),
                pairs: self.count / 2,
            },
        }
    }
}

// Bits 6-5 of a FixHeader byte, both set from 3 on; 4 stands for no fields. No From: both types belong to other crates.
fn kind_of(number: u8) -> Option<ExtFieldType> {
    (number != 4).then_some(FixHeaderField::from_byte(number.min(3) << 5).ext_type)
}
