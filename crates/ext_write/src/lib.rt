// Extension fields to be written, WAP 4.4.1 to 4.4.3: checked and put.
#![tactic(auto)]

mod list;
mod pairs;
mod validate;
mod write;

use error::{Refusal, Result};
pub use list::PairList;
pub use write::{
    begin_fields, check_fields, check_pairs, put_pairs, write_ext_fields, write_ext_fields_strict,
};

// The lengths of a pair to be written.
#[derive(Clone, Copy)]
pub struct Parameter {
    pub identifier_len: usize,
    pub value_len: usize,
}

// A check of pairs on its way: where the next pair stands in the text, where it starts in the fields, and the first refusal.
// `start` is exact up to the pair that passes 4,096, and stays from there on. No check reads it: it is what a ceiling of 4,096 on where a
// pair starts would test, as `proofs/StartCounted` says. `at` is an index, here and below: the rest of the text would bring its lifetime.
#[derive(Drop)]
struct PairsCheck {
    at: usize,
    start: usize,
    refusal: Option<Refusal>,
}

// Where the next pair to put stands in the text, and where it goes in the output.
#[derive(Drop)]
struct PairsPut {
    at: usize,
    to: usize,
}

// All but the pairs is written: how many bytes that is with them, and where the first pair goes, where any is left to put.
#[derive(Clone, Copy)]
pub struct PairsBegun {
    pub end: usize,
    pub pairs: Option<usize>,
}
