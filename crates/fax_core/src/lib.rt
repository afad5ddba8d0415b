//! The faxq machine: what the queue is, and what each request makes of it.
//!
//! The definitions stand in `specs/`; they are what every layer above is proved against. `Job` and
//! `Queue` say what there is, `Decisions` has each rule on records alone, `Machine` puts what they give
//! into the queue, and `Sound` says what holds of every queue that comes of it. What is proved of the
//! definitions is stated in `Laws`, and [`laws`] has it as contracts.
//!
//! The functions decide on the records that they are given, and none of them needs memory. Each gives
//! exactly what its definition says: a [`Change`] of the job, or a refusal.
#![tactic(auto)]

mod ageing;
mod ask;
mod change;
mod choice;
mod client;
mod fit;
mod grants;
mod import;
pub mod laws;
mod report;
mod state;
mod submission;
mod times;
mod worker;

pub use ageing::{Aging, aged, aged_job};
pub use ask::{Ask, JobAsk};
pub use change::{Altered, Change};
pub use choice::{better, due, grant};
pub use client::{alter, kill, resume, suspend};
pub use fit::fits;
pub use grants::Grant;
pub use import::bring;
pub use report::{Ending, Outcome, Report};
pub use state::{State, state_at};
pub use submission::submit;
pub use times::{Times, has_ended};
pub use worker::{call, outcome, page, stops};
