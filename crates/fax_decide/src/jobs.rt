//! A client's requests on a job.

ghost use Rattle.std.specs.Prelude.{◌≡◌, false, Some, Ok, IfOk};
ghost use Rattle.fax_ask.specs.Answer.{Replied};
ghost use Rattle.fax_ask.specs.Response.{accepted_response};
ghost use Rattle.fax_core.specs.Ageing.{aged};
ghost use Rattle.fax_core.specs.Change.{changed as changed_by, decided};
ghost use Rattle.fax_core.specs.Decisions.{job_asked};
ghost use Rattle.fax_core.specs.Job.{job_of};
ghost use Rattle.fax_core.specs.Machine.{changed as change_step, on_job};
ghost use Rattle.fax_core.specs.Queue.{job_numbered};
ghost use Rattle.fax_core.specs.Reply.{Stands};
ghost use Rattle.fax_core.specs.State.{state as job_state};
ghost use Rattle.fax_core.specs.Times.{has_ended};
ghost use Rattle.fax_decide.specs.Decision.{Decides};
ghost use Rattle.fax_decide.specs.Fault.{OnlyNoAnswer, OrNoAnswer};
ghost use Rattle.fax_decide.specs.Looking.{Consults};
ghost use Rattle.fax_decide.specs.Read.{IsReadOn};
ghost use Rattle.fax_decide.specs.Records.{KeepsRecord, job_in};
ghost use Rattle.fax_decide.specs.Settings.{settings_of};

use crate::decision::{Decision, answered, applied, take};
use crate::effect::Effect;
use crate::fault::Fault;
use crate::office::Office;
use crate::records::brief_at;
use crate::state::state_of;
use fax_ask::{Answer, Reply};
use fax_core::{Change, JobAsk, alter, kill, resume, suspend};
use fax_job::{Job, Moment, Refusal};
use fax_store::Store;
use sqlite::Alter;
use std::alloc::Global;

/// What a client's request makes of the job at `t`.
fn asked(job: &Job, ask: JobAsk, t: Moment) -> Result<Change, Refusal>
    ensures { decided (job_of job.now) result ≡ job_asked ask t (job_of job.now) }
{
    match ask {
        JobAsk::Suspend => suspend(job),
        JobAsk::Resume => resume(job),
        JobAsk::Kill => kill(job),
        JobAsk::Alter(changes) => alter(job, changes, t),
    }
}

/// Decides a request on the job of that number at `t`.
pub(crate) fn decide_on_job<S: Alter>(
    store: &mut Store<S>,
    office: &Office,
    alloc: Global,
    number: u64,
    ask: JobAsk,
    t: Moment,
) -> Result<Decision, Fault>
    ensures { Consults S.Store store.old store.new result (λ m. IfOk result (Decides
        (on_job (settings_of office.now.setup office.now.controls) (aged t m) t ask
        (job_numbered number (aged t m))) m t) × (IsReadOn ask → OnlyNoAnswer result)) }
{
    let Some(job) = brief_at(store, number, t)? else {
        return Ok(Decision::Refused(Reply::refused(Refusal::NoJob)));
    };
    match asked(&job, ask, t) {
        Ok(change) => changed(store, office, alloc, job, change, t),
        Err(refusal) => Ok(Decision::Refused(Reply::refused(refusal))),
    }
}

/// The job is changed, and its state from now on is told.
fn changed<S: Alter>(
    store: &mut Store<S>,
    office: &Office,
    alloc: Global,
    job: Job,
    change: Change,
    t: Moment,
) -> Result<Decision, Fault>
    ensures { Consults S.Store store.old store.new result (λ m.
        (job_numbered job.job (aged t m) ≡ Some (job_in (aged t m) job) → has_ended job.phase ≡ false → IfOk result (Decides
        (change_step (settings_of office.now.setup office.now.controls) (aged t m) t
        (Ok (changed_by change (job_in (aged t m) job)))) m t)) × (KeepsRecord change job → OnlyNoAnswer result)) }
{
    let job = applied(change, job)?;
    let reply = stands(store, office, alloc, &job, t);
    take(Effect::ChangedJob(job), reply)
}

/// The reply that tells the state of a job from `t` on.
fn stands<S: Alter>(
    store: &mut Store<S>,
    office: &Office,
    alloc: Global,
    job: &Job,
    t: Moment,
) -> Result<Reply, Fault>
    ensures { Consults S.Store store.old store.new result (λ m. OrNoAnswer result (λ reply. reply
        ≡ accepted_response (Replied (Stands job.now.job
        (job_state (settings_of office.now.setup office.now.controls) m t (job_of job.now)))))) }
{
    let state = state_of(store, office, alloc, job, t)?;
    let answer = Answer::Stands {
        job: job.fields().job,
        state,
    };
    answered(alloc, &answer)
}
