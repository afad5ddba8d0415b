//! Imports.

ghost use Rattle.std.specs.Prelude.{◌≡◌, Ok};
ghost use Rattle.fax_ask.specs.Answer.{Replied};
ghost use Rattle.fax_ask.specs.Response.{accepted_response};
ghost use Rattle.fax_core.specs.Ageing.{aged};
ghost use Rattle.fax_core.specs.Import.{bring};
ghost use Rattle.fax_core.specs.Job.{job_of};
ghost use Rattle.fax_core.specs.Machine.{brought_in};
ghost use Rattle.fax_core.specs.Reply.{Brought};
ghost use Rattle.fax_core.specs.Settings.{Rule as MachineRule};
ghost use Rattle.fax_core.specs.Sound.{Sound};
ghost use Rattle.fax_core.specs.State.{state as job_state};
ghost use Rattle.fax_job.specs.Job.{IsLawful};
ghost use Rattle.fax_decide.specs.Decision.{Decides};
ghost use Rattle.fax_decide.specs.Fault.{OrNoAnswer};
ghost use Rattle.fax_decide.specs.Looking.{Consults, DecidesBy};
ghost use Rattle.fax_decide.specs.Read.{IsReadImport};
ghost use Rattle.fax_decide.specs.Settings.{machine_rule, rule_for, settings_of};

use crate::decision::{Decision, answered, take};
use crate::effect::Effect;
use crate::fault::Fault;
use crate::office::Office;
use crate::state::state_of;
use crate::submission::refused;
use fax_ask::{Answer, Reply};
use fax_core::bring;
use fax_job::{Import, Job, Moment};
use fax_store::{Meta, Store};
use sqlite::Alter;
use std::alloc::Global;

/// Decides an import at `t`, by the rule of its number. `meta` has the number of its job.
pub(crate) fn decide_import<S: Alter>(
    store: &mut Store<S>,
    office: &Office,
    alloc: Global,
    import: Import,
    meta: &Meta,
    t: Moment,
) -> Result<Decision, Fault>
    ensures { DecidesBy S.Store store.old store.new result meta.now t
        (λ m. brought_in (settings_of office.now.setup office.now.controls) (aged t m) t
        (machine_rule office.now.setup (rule_for office.now.controls import.order.dial))
        (bring import (machine_rule office.now.setup (rule_for office.now.controls import.order.dial))
        m.next_job office.now.setup.max_jobs t)) (IsReadImport import) }
{
    let rule = office.rule_of(alloc, &import.order.dial)?;
    match bring(import, rule, meta.next_job, office.setup.max_jobs(), t) {
        Ok(job) => brought(store, office, alloc, job, t),
        Err(refusal) => refused(alloc, refusal, rule),
    }
}

/// The job is new, and its number and its state are told.
fn brought<S: Alter>(
    store: &mut Store<S>,
    office: &Office,
    alloc: Global,
    job: Job,
    t: Moment,
) -> Result<Decision, Fault>
    ensures { Consults S.Store store.old store.new result (λ m. (rule : MachineRule) → Sound m
        → job.job ≡ m.next_job → OrNoAnswer result (Decides
        (brought_in (settings_of office.now.setup office.now.controls) (aged t m) t rule (Ok (job_of job))) m t)) }
{
    let reply = told(store, office, alloc, &job, t);
    take(Effect::NewJob(job), reply)
}

/// The reply that tells a new job and its state at `t`.
fn told<S: Alter>(
    store: &mut Store<S>,
    office: &Office,
    alloc: Global,
    job: &Job,
    t: Moment,
) -> Result<Reply, Fault>
    ensures consults { Consults S.Store store.old store.new result (λ m. OrNoAnswer result (λ reply. reply
        ≡ accepted_response (Replied (Brought job.now.job
        (job_state (settings_of office.now.setup office.now.controls) m t (job_of job.now)))))) }
    ensures lawful { IsLawful job.now }
{
    let number = job.fields().job;
    let state = state_of(store, office, alloc, job, t)?;
    let answer = Answer::Brought { job: number, state };
    answered(alloc, &answer)
}
