//! What is known of the queue within a work, so that nothing is read or written more often than it has to be.

ghost use Rattle.std.specs.Prelude.{◌≡◌, ◌⊎◌, None, Some, true, false};
ghost use Rattle.fax_core.specs.Ageing.{is_past};
ghost use Rattle.fax_core.specs.Job.{job_of};
ghost use Rattle.fax_core.specs.Queue.{Queue};
ghost use Rattle.fax_decide.specs.Effect.{IsNumberLeft, accepted, written};
ghost use Rattle.fax_store.specs.Job.{with_expired};
ghost use Rattle.fax_tables.specs.Meta.{meta_of};
ghost use Rattle.fax_tables.specs.Tables.{IsLawfulMeta};
ghost use Rattle.fax_value.specs.Limits.{last_moment};
ghost use Rattle.fax_once.specs.Known.{IsAgedAfter, IsMoved, Knows, Settles, meta_in, pending_in};

use fax_decide::Effect;
use fax_job::{Job, Moment};
use fax_store::{Meta, StoreFault, Work};
use sqlite::Alter;

/// What is known of the clock and the next numbers.
#[derive(Clone, Copy)]
enum Numbers {
    /// The tables have them.
    Unread,
    /// The tables have these.
    Written(Meta),
    /// They are these, which the tables don't have yet.
    Pending(Meta),
}

impl Numbers {
    /// What is known of them after a change, where they were these before it and are these after it.
    fn moved(&self, before: &Meta, after: &Meta) -> Numbers
        ensures { IsMoved self.now before.now after.now result }
    {
        match self {
            Numbers::Unread | Numbers::Written(_) if after == before => Numbers::Written(*after),
            _ => Numbers::Pending(*after),
        }
    }
}

/// What is known of the queue within a work.
#[derive(Clone, Copy)]
pub(crate) struct Known {
    numbers: Numbers,
    /// A moment by which nothing expires any more.
    aged: Option<Moment>,
}

impl Known {
    pub(crate) fn nothing() -> Known
        ensures { (m : Queue) → Knows result m m }
    {
        Known {
            numbers: Numbers::Unread,
            aged: None,
        }
    }

    /// The clock and the next numbers, where they are known.
    pub(crate) fn meta(self) -> Option<Meta>
        ensures { result ≡ meta_in self.numbers }
    {
        match self.numbers {
            Numbers::Unread => None,
            Numbers::Written(meta) | Numbers::Pending(meta) => Some(meta),
        }
    }

    /// The clock and the next numbers, where they have still to be written.
    fn pending(&self) -> Option<Meta>
        ensures { result ≡ pending_in self.now.numbers }
    {
        match self.numbers {
            Numbers::Unread | Numbers::Written(_) => None,
            Numbers::Pending(meta) => Some(meta),
        }
    }

    /// Whether nothing expires by that moment.
    pub(crate) fn is_aged(self, t: Moment) -> bool
        ensures { result ≡ true → self.aged ≡ Some t }
    {
        match self.aged {
            Some(aged) => aged == t,
            None => false,
        }
    }

    /// What is known after a change at `t`, which isn't written yet, where these are the clock and the next numbers before it.
    pub(crate) fn after(&self, effect: &Effect, t: Moment, before: Meta) -> Known
        ensures { (tables m : Queue) → Knows self.now tables m → before ≡ meta_of m → IsLawfulMeta m
            → IsNumberLeft effect.now (with_expired t m)
            → Knows result (written t effect.now (with_expired t tables)) (accepted t effect.now m) }
    {
        let after = effect.numbered(t, before);
        Known {
            numbers: self.numbers.moved(&before, &after),
            aged: aged_after(effect, t),
        }
    }

    /// Writes the clock and the next numbers where that is still to be done. Returns what is known then.
    ///
    /// # Errors
    ///
    /// `Unavailable`.
    pub(crate) fn settle<S: Alter>(self, work: &mut Work<'_, S>) -> Result<Known, StoreFault>
        ensures { Settles S.Store work.old work.new result self }
    {
        let Some(meta) = self.pending() else {
            return Ok(self);
        };
        work.put_meta(Meta { ..meta })?;
        Ok(Known {
            numbers: Numbers::Written(meta),
            aged: self.aged,
        })
    }
}

/// By which moment nothing expires after a change at `t`, where that is known.
fn aged_after(effect: &Effect, t: Moment) -> Option<Moment>
    ensures { IsAgedAfter effect.now t result }
{
    match effect {
        Effect::NewJob(job) if !is_past(job, t) => Some(t),
        _ => None,
    }
}

/// Whether the job's kill time is over.
fn is_past(job: &Job, t: Moment) -> bool
    ensures { result ≡ false → is_past (job_of job.now).killtime t ≡ false }
{
    match job.fields().killtime {
        Some(killtime) => killtime <= t,
        None => false,
    }
}
