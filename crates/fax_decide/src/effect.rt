//! What an accepted request changes in the tables.

ghost use Rattle.std.specs.Prelude.{◌≡◌, true, OnErr};
ghost use Rattle.fax_core.specs.Queue.{Queue};
ghost use Rattle.fax_run.specs.Verdict.{without};
ghost use Rattle.fax_value.specs.Name.{IsName};
ghost use Rattle.fax_store.specs.Calls.{BecomesWhere, FailsOnly, Follows};
ghost use Rattle.fax_decide.specs.Effect.{IsNumberLeft, IsWritable, Suits, given_in, numbered, written};

use fax_core::Grant;
use fax_job::{Job, Moment, Name, RequestNumber};
use fax_store::{Meta, StoreFault, Work};
use sqlite::Alter;

/// What an accepted request changes in the queue, beside ageing it and setting the clock. A job that was there keeps its
/// extra lines, whatever those of its record are.
pub enum Effect {
    Nothing,
    /// The job is new, of the next number.
    NewJob(Job),
    /// The job of that number is now this one.
    ChangedJob(Job),
    /// The modem is marked as down, or as up.
    Marked { modem: Name, down: bool },
    /// The job is now this one, and the grant is new, of the next number.
    NewGrant { job: Job, grant: Grant },
    /// The job and the grant are now these.
    Reported { job: Job, grant: Grant },
    /// The job is now this one, and the grant of that number is closed.
    Closed { job: Job, grant: u32 },
    /// The client gives up its replies through this number.
    GivenUp { upto: RequestNumber },
    /// The jobs of these numbers leave, with their times and grants.
    Purged { jobs: Vec<u32> },
}

// By hand, so that a proof lets it go in one step.
impl Drop for Effect {
    fn drop(self) {
        match self {
            Effect::Nothing
            | Effect::NewJob(_)
            | Effect::ChangedJob(_)
            | Effect::Marked { modem: _, down: _ }
            | Effect::NewGrant { job: _, grant: _ }
            | Effect::Reported { job: _, grant: _ }
            | Effect::Closed { job: _, grant: _ }
            | Effect::GivenUp { upto: _ }
            | Effect::Purged { jobs: _ } => {}
        }
    }
}

impl Effect {
    /// Makes the change at `t` that this client asked for, but for the clock and the next numbers. It is at most two calls of
    /// the work.
    ///
    /// # Errors
    ///
    /// `Unavailable`, or `Strange` where what is new has a key that is taken, what is written is past its limits, or the
    /// client is no name.
    pub fn write<S: Alter>(
        &self,
        work: &mut Work<'_, S>,
        client: &str,
        t: Moment,
    ) -> Result<(), StoreFault>
        ensures leaves { Follows S.Store work.old work.new }
        ensures fails { OnErr result (work.new.failed ≡ true) }
        ensures changes { BecomesWhere S.Store work.old work.new (Suits self.now) (written t self.now)
            (without client.now (given_in self.now)) }
        ensures cause { FailsOnly S.Store work.old work.new result (λ m k. IsWritable self.now m × IsName client.now) }
    {
        match self {
            Effect::Nothing => Ok(()),
            Effect::NewJob(job) => work.put_job(job, t),
            Effect::ChangedJob(job) => work.put_change(job, t),
            Effect::Marked { modem, down } => work.set_down(modem.as_str(), *down),
            Effect::NewGrant { job, grant } => {
                work.put_change(job, t)?;
                work.put_grant(grant)
            }
            Effect::Reported { job, grant } => {
                work.put_change(job, t)?;
                work.put_report(grant)
            }
            Effect::Closed { job, grant } => {
                work.put_change(job, t)?;
                work.close_grant(*grant)
            }
            Effect::GivenUp { upto } => work.give_up(client, *upto),
            Effect::Purged { jobs } => work.purge(jobs.as_slice()),
        }
    }

    /// The clock and the next numbers after the change at `t`, where these are those before.
    pub fn numbered(&self, t: Moment, before: Meta) -> Meta
        ensures { (m : Queue) → IsNumberLeft self.now m → before.next_job ≡ m.next_job → before.next_grant ≡ m.next_grant
            → result ≡ numbered t self.now before }
    {
        let mut after = Meta { clock: t, ..before };
        match self {
            Effect::NewJob(_) => after.next_job = after.next_job.saturating_add(1),
            Effect::NewGrant { job: _, grant: _ } => {
                after.next_grant = after.next_grant.saturating_add(1);
            }
            Effect::Nothing
            | Effect::ChangedJob(_)
            | Effect::Marked { modem: _, down: _ }
            | Effect::Reported { job: _, grant: _ }
            | Effect::Closed { job: _, grant: _ }
            | Effect::GivenUp { upto: _ }
            | Effect::Purged { jobs: _ } => {}
        }
        after
    }
}
