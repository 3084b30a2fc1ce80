// Answers as numbers.
ghost use Rattle.std.specs.Prelude.{◌≡◌, ◌+◌, ◌*◌, ◌^◌, ◌<◌};
ghost use Rattle.ext.specs.Kinds.{ext_span};
ghost use Rattle.error.specs.Answer.{number};
ghost use Rattle.capi.specs.Lent.{fields_kind, fields_start, fields_length, fields_pairs};

use error::WbmpError;
use ext::ExtFields;

// A refusal: its number in the low eight bits, and its place above them. `From` could ask nothing of the place.
pub(crate) fn pack(e: WbmpError) -> u64
    requires { e.offset < 2 ^ 56 }
    ensures { result ≡ number e.kind + 256 * e.offset }
{
    u64::from(e.kind.number()) + 256 * e.offset as u64
}

// The fields of a header as the four numbers that C gets; all 0 where there are none.
#[derive(Default, Drop)]
pub(crate) struct FieldNumbers {
    pub kind: u8,
    pub start: usize,
    pub len: usize,
    pub pairs: usize,
}

impl From<Option<ExtFields>> for FieldNumbers {
    ghost from_gives = { λ fields r. r ≡ record {
      kind = fields_kind (ext_span fields);
      start = fields_start (ext_span fields);
      len = fields_length (ext_span fields);
      pairs = fields_pairs (ext_span fields);
    } };

    fn from(fields: Option<ExtFields>) -> FieldNumbers {
        match fields {
            Some(f) => FieldNumbers {
                kind: 1 + f.ext_type as u8,
                start: f.start,
                len: f.len,
                pairs: f.pairs,
            },
            None => FieldNumbers::default(),
        }
    }
}
