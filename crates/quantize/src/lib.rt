// 8-bit gray to packed bits under a rule: the engine, and whole planes.
#![tactic(auto)]

mod asked;
mod engine;
mod turn;
mod whole;

pub use asked::{check_rule, enough_work, known_rule};
pub use engine::{Quantizer, Spot};
pub use whole::{dither_bits, from_gray8, ordered_bits, quantize_gray8, threshold_bits};
