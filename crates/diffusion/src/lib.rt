// Floyd and Steinberg's dithering of a whole plane: a row keeps for each column the sum of what it hands down, and what a dot hands on
// stands in tables.
#![tactic(auto)]

mod ones;
mod pairs;
mod parts;
mod plane;
mod row;
mod rows;
mod tables;

pub use plane::dither_plane;
