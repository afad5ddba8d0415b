//! One arrival: what is answered to it, and what it makes of the tables.
#![tactic(auto)]

mod acceptance;
mod accepting;
mod arrival;
mod batch;
mod floor;
mod known;
pub mod laws;
mod looking;
mod queue;
mod refusing;
mod sender;

pub use fax_decide::{Fault, Office};
pub use fax_run::Arrival;
pub use queue::Queue;
