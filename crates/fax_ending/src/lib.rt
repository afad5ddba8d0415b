//! How a command ends: with a status, and where something went wrong a line for people that says what.
#![tactic(auto)]

mod ending;
mod fault_line;

pub use ending::Ending;
pub use fault_line::{FaultLine, Place};
