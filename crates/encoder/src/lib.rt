// Whole writing and whole making of files.
#![tactic(auto)]

mod file;
mod gray8;
mod planes;

pub use gray8::encode_gray8;
pub use planes::encode_images;
