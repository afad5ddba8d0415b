//! What a queue answers to a worker.

ghost use Rattle.std.specs.Prelude.{◌≡◌, ◌≤◌};
ghost use Rattle.fax_value.specs.Limits.{most_pages};
ghost use Rattle.fax_worker.specs.Answer.{answer_of, fault_in};

use crate::grant::Handed;
use fax_job::{Call, Refusal};
use std::marker::Model;

/// What a queue answers to a worker's request.
#[derive(Drop)]
pub enum Answer {
    /// No job may go to the modem.
    NoneToSend,
    /// What the modem is to send.
    Given(Handed),
    /// Whether the worker is to stop.
    Called { stop: bool },
    /// How many pages of the job are confirmed, and whether the worker is to stop.
    Confirmed { npages: u16, stop: bool },
    /// The state of the job, from 1 to 8 (sendq(5)).
    Stands { job: u32, state: u8 },
    /// Through which number the client has given up its replies.
    Floored { floor: u64 },
    /// The request is refused, without details.
    Refused(Refusal),
    /// The number isn't served, with the notice of its rule.
    Rejected { notice: String },
    /// The modem holds a grant: whether a call was reported on it, and the grant.
    Busy { called: bool, handed: Handed },
    /// The page isn't the next one: how many pages of the job are confirmed.
    PageOrder { npages: u16 },
}

impl Answer {
    /// The refusal, if the request is refused.
    pub fn refusal(&self) -> Option<Refusal>
        ensures { result ≡ fault_in (answer_of self.now) }
    {
        match self {
            Answer::Refused(refusal) => Some(*refusal),
            Answer::Rejected { notice: _ } => Some(Refusal::Rejected),
            Answer::Busy {
                called: _,
                handed: _,
            } => Some(Refusal::ModemBusy),
            Answer::PageOrder { npages: _ } => Some(Refusal::PageOrder),
            _ => None,
        }
    }
}

/// What a worker sees of the grant that its modem holds: how the call went, and how many pages are confirmed.
pub struct Look {
    call: Option<Call>,
    pages: u16,
}

// By hand, so that a proof lets it go in one step.
impl Drop for Look {
    fn drop(self) {
        let Look { call: _, pages: _ } = self;
    }
}

impl Model for Look {
    ghost use Rattle.std.specs.Prelude.{◌≤◌};
    ghost use Rattle.fax_value.specs.Limits.{most_pages};
    ghost use Rattle.fax_worker.specs.Worker.{Look as Record};

    ghost Value = { Record };

    ghost view = { λ look. record { call = look.call; pages = look.pages } };

    ghost invariant = { λ look. look.pages ≤ most_pages };
}

impl Look {
    pub fn new(call: Option<Call>, pages: u16) -> Look
        requires { pages ≤ most_pages }
        ensures { result ≡ record { call = call; pages = pages } }
    {
        Look { call, pages }
    }

    /// How the call went.
    pub(crate) fn call(&self) -> Option<Call>
        ensures { result ≡ self.now.call }
    {
        self.call
    }

    /// How many pages are confirmed.
    pub(crate) fn pages(&self) -> u16
        ensures pages { result ≡ self.now.pages }
        ensures most { result ≤ most_pages }
    {
        self.pages
    }
}
