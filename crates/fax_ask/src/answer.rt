//! What accepted requests are answered with.

/// A grant, as it is told to a worker.
#[derive(Clone, Copy)]
pub struct Handed<'a> {
    pub grant: u32,
    pub job: u32,
    /// The number to dial, in its canonical form.
    pub number: &'a str,
    /// The first page to send; pages count from 1.
    pub from: u16,
    /// The last page to send.
    pub to: u16,
}

/// What an accepted request is answered with.
#[derive(Clone, Copy)]
pub enum Answer<'a> {
    /// The number of the job that a submission made.
    Submitted { job: u32 },
    /// The number of the job that was brought in, and its state, from 1 to 8 (sendq(5)).
    Brought { job: u32, state: u8 },
    /// Through which number a client has given up its replies.
    Floored { floor: u64 },
    /// How many jobs a purge took out.
    Purged { jobs: u16 },
    /// The state of a job, from 1 to 8 (sendq(5)).
    Stands { job: u32, state: u8 },
    /// Whether a modem is down.
    Marked { down: bool },
    /// No job may go to the modem.
    NoneToSend,
    /// What the modem is to send.
    Given(Handed<'a>),
    /// Whether the worker is to stop.
    Called { stop: bool },
    /// How many pages of the job are confirmed, and whether the worker is to stop.
    Confirmed { npages: u16, stop: bool },
    /// Key lines: those of a job (sendq(5)) or of its times, or one for each modem.
    Lines(&'a [u8]),
    /// The listing of jobs (faxstat(1)).
    Listing(&'a [u8]),
}
