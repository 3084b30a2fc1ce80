// The rules, and the threshold rule's dots: for a part of a row, whole bytes of a row, whole planes; rows of black and white samples.
#![tactic(auto)]

mod entry;
mod plain;
mod plane;
mod threshold;

pub use entry::{packs, threshold_row_bytes, threshold_row_dots};
pub use plain::plain_row;
pub use plane::threshold_plane;
