//! Key lines from their text, in the tags of HylaFAX's sendq(5): which list of lines a text spells, or its first fault.
#![tactic(auto)]

mod laws;
mod reading;

pub use laws::written_is_read;
pub use reading::{cut_line, one_fault_or_one_list, read_lines};
