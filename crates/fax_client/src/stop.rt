//! Why a command ends without its answer.

ghost use Rattle.std.specs.Prelude.{◌≡◌};
ghost use Rattle.fax_client.specs.Stop.{stop_status};

use fax_ending::{Ending, FaultLine, Place};
use fax_job::Refusal;
use fax_journal::StoreFault;
use fax_worker::NotNow;
use std::alloc::AllocError;

/// Why a command ends without what it is for.
#[derive(Clone, Copy, Debug, PartialEq, Eq)]
pub enum Stop {
    /// What is asked for can't come now. Nothing was sent.
    NotNow,
    /// No answer came in time. The request stays in the journal.
    Later,
    /// The journal can't be read or written, or is another client's.
    Journal,
    /// The queue refuses the request.
    Refused(Refusal),
    NoMemory,
}

impl From<AllocError> for Stop {
    fn from(_: AllocError) -> Stop {
        Stop::NoMemory
    }
}

impl From<StoreFault> for Stop {
    fn from(_: StoreFault) -> Stop {
        Stop::Journal
    }
}

impl From<NotNow> for Stop {
    fn from(_: NotNow) -> Stop {
        Stop::NotNow
    }
}

impl Stop {
    /// How the command ends.
    pub fn ending(self) -> Ending<'static>
        ensures { result.status ≡ stop_status self }
    {
        match self {
            Stop::NotNow => Ending::usage(FaultLine::of("faxqd: not now", Place::Nowhere)),
            Stop::Later => Ending::later("faxqd: no answer"),
            Stop::Journal => Ending::failed("faxqd: journal"),
            Stop::Refused(refusal) => Ending::fault(FaultLine {
                what: "faxqd: refused ",
                place: Place::Number(u64::from(refusal.status())),
                between: " ",
                word: refusal.word(),
            }),
            Stop::NoMemory => Ending::failed("faxqd: no memory"),
        }
    }
}
