//! What a client may ask to see.

/// What a client asks to see.
#[derive(Clone, Copy)]
pub enum View {
    /// The key lines of the job of this number (sendq(5)). The number is as it was written: from 1, and
    /// of 18 digits at most.
    Job { job: u64 },
    /// The key lines of the times of the job of this number: when it came in, and when it ended.
    Times { job: u64 },
    /// The listing of all jobs.
    Jobs,
    /// The listing of the 200 jobs with the greatest numbers, or of all where there are fewer.
    Newest,
    /// A line for each modem.
    Modems,
}
