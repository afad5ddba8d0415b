//! The worker of a modem: which request it begins, how that is said and its answer read, and what it holds then.
//!
//! A [`Worker`] is what a journal has. The laws of [`laws`] are of definitions alone.
#![tactic(auto)]

mod answer;
mod body_fault;
mod grant;
pub mod laws;
mod pending;
mod reading;
mod reason;
mod saying;
mod worker;

pub use answer::{Answer, Look};
pub use grant::{Handed, Held};
pub use pending::Pending;
pub use reading::read_refusal;
pub use reason::Reason;
pub use saying::{Said, call_word};
pub use worker::{Action, NotNow, Worker};
