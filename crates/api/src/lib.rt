// What is told of a file before its dots are read.
#![tactic(auto)]

use ext::ExtFields;

mod facts;
mod front;
mod sniffing;

pub use facts::info;
pub use sniffing::{probe, sniff};

// Its fields are of the Rust's `ImageInfo`: no `ParsedHeader` is between.
#[derive(Clone, Copy)]
pub struct ImageInfo {
    pub width: u32,
    pub height: u32,
    pub frames: u32,
    pub fix_header: u8,
    pub ext_fields: Option<ExtFields>,
    pub data_offset: usize,
}

#[derive(Clone, Copy, PartialEq, Eq)]
pub enum Sniffed {
    // The header and 1 to 16 whole planes.
    Exact,
    // The header, at least one row, and less than a plane.
    Truncated,
    Neither,
}
