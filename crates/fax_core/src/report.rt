//! What a worker reports.

use fax_job::{Call, Status};

/// What a worker reports on a grant.
#[derive(Drop)]
pub enum Report {
    Call(Call),
    /// A page that was confirmed; pages count from 1.
    Page(u16),
    Outcome(Outcome),
}

/// How a worker says that a grant ended.
#[derive(Clone, Copy, Debug, PartialEq, Eq)]
pub enum Ending {
    /// All pages are sent.
    Done,
    /// The job may be tried again.
    Retry,
    /// The job has failed.
    Fail,
}

/// What a worker says of a grant when it is over.
#[derive(Drop)]
pub struct Outcome {
    /// Whether it reported a call.
    pub dialed: bool,
    /// How many pages it reported.
    pub pages: u16,
    pub ending: Ending,
    /// Empty where none is given.
    pub reason: Status,
}
