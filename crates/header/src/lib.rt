// Headers, read whole and written: Type, FixHeader, fields, Width, Height (WAP 4.4.1).
#![tactic(auto)]

use ext::{ExtFieldType, ExtFields};

mod read;
mod write;

pub use read::{parse_header_ext_inner, parse_header_inner, parse_header_mode};
pub use write::{begin_header, write_header, write_header_ext};

// What a header reader demands and honours. Each reader of the Rust is one choice of these.
#[derive(Clone, Copy)]
pub struct HeaderMode {
    // Integers do not start with 0x80.
    pub shortest: bool,
    // The FixHeader byte is 0.
    pub fix_zero: bool,
    // Fields are read where bit 7 of the FixHeader byte says that they follow; where this is false, that byte is skipped whatever it says.
    pub fields: bool,
    // Identifiers and values of pairs are in their classes.
    pub classes: bool,
}

#[derive(Clone, Copy)]
pub struct ParsedHeader {
    pub width: u32,
    pub height: u32,
    pub data_offset: usize,
    pub fix_header: u8,
    pub ext_fields: Option<ExtFields>,
}
