//! The queue at its desk: it answers messages by a clock, and a whole input from empty tables on.
#![tactic(auto)]

mod conversing;
mod desk;
pub mod laws;
mod replaying;

pub use conversing::converse;
pub use desk::Desk;
pub use replaying::replay;
