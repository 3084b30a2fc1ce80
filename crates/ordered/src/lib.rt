// The ordered rule: its numbers, and the dots of a part of a row.
#![tactic(auto)]

mod dots;
mod table;

pub use dots::ordered_row_dots;
pub use table::{known_side, numbers};
