//! When a job came in, and when it ended.

ghost use Rattle.std.specs.Prelude.{◌≡◌};
ghost use Rattle.fax_core.specs.Times.{has_ended};

use fax_job::{Moment, Phase};

/// When a job came in, and when it ended.
#[derive(Clone, Copy, Debug, PartialEq, Eq)]
pub struct Times {
    /// The job's number.
    pub job: u32,
    /// The moment of the request that brought it, or 0 where that isn't known.
    pub submitted: Moment,
    /// The moment of the request by which it was done or failed, 0 until then.
    pub ended: Moment,
}

/// Whether a job of that phase is over: it is done, or has failed.
pub fn has_ended(phase: Phase) -> bool
    ensures { result ≡ has_ended phase }
{
    match phase {
        Phase::Done | Phase::Failed => true,
        Phase::Held | Phase::Waiting | Phase::Granted => false,
    }
}
