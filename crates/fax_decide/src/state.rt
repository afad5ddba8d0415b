//! The state of a job, by sendq(5).

ghost use Rattle.std.specs.Prelude.{◌≡◌};
ghost use Rattle.fax_core.specs.Job.{job_of};
ghost use Rattle.fax_core.specs.State.{state as job_state};
ghost use Rattle.fax_decide.specs.Fault.{OrNoAnswer};
ghost use Rattle.fax_decide.specs.Looking.{Consults};
ghost use Rattle.fax_decide.specs.Settings.{settings_of};
ghost use Rattle.fax_decide.specs.State.{state_with};

use crate::fault::Fault;
use crate::office::Office;
use fax_core::state_at;
use fax_job::{Job, Moment};
use fax_store::Store;
use sqlite::Alter;
use std::alloc::Global;

impl Office {
    /// The state of a job at `t`, where that many calls are open to its number.
    pub(crate) fn state_with(
        &self,
        alloc: Global,
        job: &Job,
        calls: u64,
        t: Moment,
    ) -> Result<u8, Fault>
        ensures { OrNoAnswer result (λ found.
            found ≡ state_with (settings_of self.now.setup self.now.controls) (job_of job.now) calls t) }
    {
        let rule = self.rule_of(alloc, &job.fields().dial)?;
        let is_in_hours = self.minute_at(t)?.is_in_hours(rule);
        Ok(state_at(job, is_in_hours, calls, u64::from(rule.calls), t))
    }
}

/// The state of a job at `t`, with the calls to its number that the store has.
pub(crate) fn state_of<S: Alter>(
    store: &mut Store<S>,
    office: &Office,
    alloc: Global,
    job: &Job,
    t: Moment,
) -> Result<u8, Fault>
    ensures { Consults S.Store store.old store.new result (λ m. OrNoAnswer result (λ found. found
        ≡ job_state (settings_of office.now.setup office.now.controls) m t (job_of job.now))) }
{
    let calls = store.active_to(&job.fields().dial)?;
    office.state_with(alloc, job, calls, t)
}
