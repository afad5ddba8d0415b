//! What is asked of the queue.

use crate::report::Report;
use fax_job::{Alter, Import, Moment, Name, Order, RequestNumber};

/// What is asked of the queue. Numbers of jobs and grants are as they were written.
#[derive(Drop)]
pub enum Ask {
    Submission(Order),
    /// A job of an older queue.
    Bring(Import),
    /// A client's request on the job of that number.
    OnJob { job: u64, ask: JobAsk },
    /// Whether the modem is down from now on.
    Mark { modem: Name, down: bool },
    /// What the modem is to send.
    Next { modem: Name },
    /// A worker's report on the grant of that number.
    OnGrant { grant: u64, report: Report },
    /// The client has no use for its replies through this number. It is the client's floor from now on.
    GiveUp { upto: RequestNumber },
    /// Jobs that ended before that moment are to leave.
    Purge { before: Moment },
}

/// What a client asks of a job.
#[derive(Drop)]
pub enum JobAsk {
    Suspend,
    Resume,
    Kill,
    Alter(Alter),
}
