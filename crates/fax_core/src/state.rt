//! The state of a job, by sendq(5).

ghost use Rattle.std.specs.Prelude.{◌≡◌};
ghost use Rattle.fax_core.specs.Job.{job_of};
ghost use Rattle.fax_core.specs.State.{state_at, state_number, waiting_state};

use crate::ageing::is_past;
use fax_job::{Job, JobFields, Moment, Phase};

/// The states of a job, by sendq(5).
#[derive(Clone, Copy, Debug, PartialEq, Eq)]
pub enum State {
    /// Suspended by its client.
    Suspended,
    /// Its time to send or its number's hours haven't come.
    Pending,
    /// It waits before it is tried again.
    Sleeping,
    /// There are as many calls to its number as there may be.
    Blocked,
    /// It may go.
    Ready,
    /// A modem has it.
    Active,
    Done,
    Failed,
}

impl State {
    /// The number that stands for it, from 1 to 8.
    pub fn number(self) -> u8
        ensures { result ≡ state_number self }
    {
        match self {
            State::Suspended => 1,
            State::Pending => 2,
            State::Sleeping => 3,
            State::Blocked => 4,
            State::Ready => 5,
            State::Active => 6,
            State::Done => 7,
            State::Failed => 8,
        }
    }
}

/// The number of a job's state at `t`. `in_hours` tells whether calls to the job's number may begin at
/// `t`, `calls` how many there are to it, and `limit` how many there may be.
pub fn state_at(job: &Job, in_hours: bool, calls: u64, limit: u64, t: Moment) -> u8
    ensures { result ≡ state_at (job_of job.now) in_hours calls limit t }
{
    state_of(job.fields(), in_hours, calls, limit, t).number()
}

fn state_of(fields: &JobFields, in_hours: bool, calls: u64, limit: u64, t: Moment) -> State
    ensures { state_number result ≡ state_at (job_of fields.now) in_hours calls limit t }
{
    match fields.phase {
        Phase::Done => State::Done,
        Phase::Failed => State::Failed,
        Phase::Granted => State::Active,
        // A kill time that is past shows before it is stored.
        Phase::Held | Phase::Waiting if is_past(fields.killtime, t) => State::Failed,
        Phase::Held => State::Suspended,
        Phase::Waiting => waiting_state(fields, in_hours, calls, limit, t),
    }
}

/// The state of a waiting job whose kill time isn't past: its times are looked at first, then its
/// hours, then the calls to its number.
fn waiting_state(fields: &JobFields, in_hours: bool, calls: u64, limit: u64, t: Moment) -> State
    ensures { state_number result ≡ waiting_state (job_of fields.now) in_hours calls limit t }
{
    if t.seconds() < fields.tts.seconds() {
        State::Pending
    } else if t.seconds() < fields.next {
        State::Sleeping
    } else if !in_hours {
        State::Pending
    } else if limit <= calls {
        State::Blocked
    } else {
        State::Ready
    }
}
