//! The machine over whole runs: what an arrival says, what comes of it at a queue, and what a list of arrivals, or of
//! sessions, leads to. It stands on no store. The laws of [`laws`] are of these definitions alone.
#![tactic(auto)]

mod arrival;
pub mod laws;

pub use arrival::Arrival;
