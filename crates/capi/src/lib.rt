// Sniffing, info and whole reading as C asks for them; the crate capi_c exports them, and include/wbmp.h has the declarations.
#![tactic(auto)]

mod asked;
mod calls;
mod numbers;

pub use calls::{wbmp_info, wbmp_read, wbmp_sniff};
