// Headers read byte by byte.
#![tactic(auto)]

use ext::ExtFields;

mod faults;
mod fields;
mod integers;
mod phase;
mod reader;
mod run;
mod step;

pub use reader::{HeaderReader, HeaderStep};
pub use run::Ran;

// The fields of a file so far, once their last byte was taken. In an Option of an Option two of three values would be None.
#[derive(Clone, Copy)]
pub enum FieldsSeen {
    Unread,
    Seen(Option<ExtFields>),
}
