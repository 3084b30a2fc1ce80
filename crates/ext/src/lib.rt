// Extension fields, WAP 4.4.1 to 4.4.3: their kinds and classes, read and looked up.
#![tactic(auto)]

ghost use Rattle.std.specs.Prelude.{◌≡◌, ◌-◌};
ghost use Rattle.ext.specs.Kinds.{SplitFix, pair_header, kind_number, span, fields_span};

mod class;
pub mod find;
mod read;

pub use class::{identifier_in_class, is_rfc2234_alpha_digit, is_rfc2234_char, value_in_class};
pub use read::{parse_ext_fields, parse_ext_fields_inner, parse_ext_fields_strict};

// An octet or a pair starts less than this far from the first one.
pub const MAX_EXT_FIELD_BYTES: usize = 4096;

// The kind of the fields: bits 6-5 of the FixHeader byte.
#[derive(Clone, Copy)]
pub enum ExtFieldType {
    Bitfield00,
    Reserved01,
    Reserved10,
    ParameterPairs11,
}

// The FixHeader byte, taken apart: the Rust's, its public fields too.
#[derive(Clone, Copy)]
pub struct FixHeaderField {
    pub raw: u8,
    pub ext_fields_follow: bool,
    pub ext_type: ExtFieldType,
}

impl FixHeaderField {
    // Not `From`: the public name is the Rust's, and stays.
    pub fn from_byte(raw: u8) -> FixHeaderField
        ensures { SplitFix raw result }
    {
        FixHeaderField {
            raw,
            ext_fields_follow: 128 <= raw,
            // No `TryFrom`: of two bits none is refused.
            ext_type: match raw / 32 % 4 {
                0 => ExtFieldType::Bitfield00,
                1 => ExtFieldType::Reserved01,
                2 => ExtFieldType::Reserved10,
                _ => ExtFieldType::ParameterPairs11,
            },
        }
    }
}

// The header byte of a pair, taken apart.
#[derive(Clone, Copy)]
pub struct PairHeader {
    pub identifier_len: u8,
    pub value_len: u8,
    pub more: bool,
}

impl PairHeader {
    // Not `From`, as above.
    pub fn from_byte(raw: u8) -> PairHeader
        ensures { result ≡ pair_header raw }
    {
        PairHeader {
            identifier_len: raw / 16 % 8,
            value_len: raw % 16,
            more: 128 <= raw,
        }
    }
}

// Fields of an input: their kind, where they start, how many bytes they are, and how many pairs (0 unless the kind is 11).
#[derive(Clone, Copy)]
pub struct ExtFields {
    pub ext_type: ExtFieldType,
    pub start: usize,
    pub len: usize,
    pub pairs: usize,
}

impl ExtFields {
    // Fields that stand from `start` to `end`.
    pub fn new(ext_type: ExtFieldType, start: usize, end: usize, pairs: usize) -> ExtFields
        ensures { fields_span result ≡ span (kind_number ext_type) start (end - start) pairs }
    {
        ExtFields {
            ext_type,
            start,
            len: end.saturating_sub(start),
            pairs,
        }
    }
}

// The value of a pair, by its place in the input, which a slice of it would not tell.
#[derive(Clone, Copy)]
pub struct ValueSpan {
    pub start: usize,
    pub len: usize,
}
