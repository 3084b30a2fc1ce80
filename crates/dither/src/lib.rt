// The dots of a part of a row by error diffusion, as the engine makes them.
#![tactic(auto)]

mod dots;
mod entry;
mod row;

pub use dots::RowStart;
pub use entry::{RowDots, dither_row_bytes, dither_row_dots};
