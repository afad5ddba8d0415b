//! A worker's reports on a grant.

ghost use Rattle.std.specs.Prelude.{◌≡◌, ◌≤◌, ◌+◌, ◌-◌, ◌↔◌, ℕ, length, Some, true, false, Ok, IfOk, IsErr, IsOk};
ghost use Rattle.fax_ask.specs.Answer.{Replied};
ghost use Rattle.fax_ask.specs.Response.{accepted_response, refused_response};
ghost use Rattle.fax_core.specs.Ageing.{aged};
ghost use Rattle.fax_core.specs.Change.{changed};
ghost use Rattle.fax_core.specs.Decisions.{call as call_of, page as page_of, outcome as outcome_of};
ghost use Rattle.fax_core.specs.Job.{job_of};
ghost use Rattle.fax_core.specs.Fits.{fits};
ghost use Rattle.fax_core.specs.Machine.{on_both, on_grant, reported, call_reply, page_reply, outcome_reply, keys_of_job, without_job};
ghost use Rattle.fax_ask.specs.Detail.{has_detail};
ghost use Rattle.fax_core.specs.Queue.{Queue, grant_numbered};
ghost use Rattle.fax_core.specs.Reply.{NoKeys, Pages, Refused, Stands};
ghost use Rattle.fax_core.specs.Sound.{Sound};
ghost use Rattle.fax_core.specs.State.{calls_to};
ghost use Rattle.fax_core.specs.Times.{has_ended};
ghost use Rattle.fax_core.specs.declared.grants.Grant.{Grant as GrantOf};
ghost use Rattle.fax_dest.specs.Setup.{delay_of};
ghost use Rattle.fax_value.specs.Limits.{most_pages};
ghost use Rattle.fax_store.specs.Grant.{IsSameGrant};
ghost use Rattle.fax_decide.specs.Decision.{Decides};
ghost use Rattle.fax_decide.specs.Fault.{OrNoAnswer};
ghost use Rattle.fax_decide.specs.Looking.{Consults};
ghost use Rattle.fax_decide.specs.Records.{KeepsRecord, job_in};
ghost use Rattle.fax_decide.specs.Report.{ArePagesWithin, AreThere};
ghost use Rattle.fax_decide.specs.Settings.{settings_of};
ghost use Rattle.fax_decide.specs.State.{state_with};

use crate::decision::{Decision, answered, applied, take};
use crate::effect::Effect;
use crate::fault::Fault;
use crate::office::Office;
use crate::records::{brief_at, grant_at};
use fax_ask::{Answer, Detail, Reply};
use fax_core::{Change, Grant, Outcome, Report, call, fits, outcome, page, stops};
use fax_job::{Call, Job, Moment, Refusal};
use fax_store::Store;
use sqlite::Alter;
use std::alloc::Global;

/// Decides a report on the grant of that number at `t`.
pub(crate) fn decide_report<S: Alter>(
    store: &mut Store<S>,
    office: &Office,
    alloc: Global,
    number: u64,
    report: Report,
    t: Moment,
) -> Result<Decision, Fault>
    ensures { Consults S.Store store.old store.new result (λ m. Sound m → OrNoAnswer result (Decides
        (on_grant (settings_of office.now.setup office.now.controls) (aged t m) t report
        (grant_numbered number m)) m t)) }
{
    let Some(grant) = grant_at(store, number)? else {
        return Ok(Decision::Refused(Reply::refused(Refusal::NoGrant)));
    };
    match brief_at(store, u64::from(grant.job), t)? {
        Some(job) => report_on(store, office, alloc, job, grant, report, t),
        None => without_job(&grant),
    }
}

/// Decides a report on a grant and its job. Where they don't fit together, nothing is decided; a closed
/// grant needn't fit any more.
fn report_on<S: Alter>(
    store: &mut Store<S>,
    office: &Office,
    alloc: Global,
    job: Job,
    grant: Grant,
    report: Report,
    t: Moment,
) -> Result<Decision, Fault>
    ensures consults { Consults S.Store store.old store.new result (λ m. Sound m
        → AreThere m t job grant → ArePagesWithin grant
        → OrNoAnswer result (Decides (on_both (settings_of office.now.setup office.now.controls) (aged t m) t
        report grant (Some (job_in (aged t m) job))) m t)) }
    ensures closed { grant.is_open ≡ false → IsOk result }
    ensures misfit { grant.is_open ≡ true → fits job (Some grant) ≡ false → IsErr result }
{
    if grant.is_open && !fits(&job, Some(&grant)) {
        return Err(Fault::Strange);
    }
    match report {
        Report::Call(said) => decide_call(alloc, job, grant, said, t),
        Report::Page(said) => decide_page(alloc, job, grant, said, t),
        Report::Outcome(said) => decide_outcome(store, office, alloc, job, grant, said, t),
    }
}

/// An open grant has its job in every sound queue: where it has none, nothing is decided.
fn without_job(grant: &Grant) -> Result<Decision, Fault>
    ensures decided { (m : Queue) (t : ℕ)
        → IfOk result (Decides (Refused (without_job grant.now.is_open) NoKeys) m t) }
    ensures misfit { IsErr result ↔ (grant.now.is_open ≡ true) }
{
    if grant.is_open {
        return Err(Fault::Strange);
    }
    Ok(Decision::Refused(Reply::refused(Refusal::GrantClosed)))
}

fn decide_call(
    alloc: Global,
    job: Job,
    grant: Grant,
    said: Call,
    t: Moment,
) -> Result<Decision, Fault>
    ensures decided { (m : Queue) → AreThere m t job grant → ArePagesWithin grant
        → (grant.is_open ≡ true → (fits job (Some grant) ≡ true) × (has_ended job.phase ≡ false))
        → OrNoAnswer result (Decides (reported (aged t m) (call_reply t) (job_in (aged t m) job)
        (call_of said (job_in (aged t m) job) grant)) m t) }
    ensures closed { grant.is_open ≡ false → IsOk result }
{
    match call(&job, &grant, said) {
        Ok(change) => called(alloc, job, change, grant.with_call(said), t),
        Err(refusal) => Ok(Decision::Refused(Reply::refused(refusal))),
    }
}

fn called(
    alloc: Global,
    job: Job,
    change: Change,
    grant: Grant,
    t: Moment,
) -> Result<Decision, Fault>
    ensures { (m : Queue) (before : GrantOf) → AreThere m t job before → IsSameGrant before grant
        → grant.number ≡ before.number → grant.confirmed ≤ most_pages → has_ended job.phase ≡ false
        → KeepsRecord change job
        → OrNoAnswer result (Decides (reported (aged t m) (call_reply t) (job_in (aged t m) job)
        (Ok (record { job = changed change (job_in (aged t m) job); grant = grant }))) m t) }
{
    let job = applied(change, job)?;
    let answer = Answer::Called {
        stop: stops(&job, t),
    };
    take(Effect::Reported { job, grant }, answered(alloc, &answer))
}

fn decide_page(
    alloc: Global,
    job: Job,
    grant: Grant,
    said: u16,
    t: Moment,
) -> Result<Decision, Fault>
    ensures decided { (m : Queue) → AreThere m t job grant → ArePagesWithin grant
        → (grant.is_open ≡ true → (fits job (Some grant) ≡ true) × (has_ended job.phase ≡ false))
        → OrNoAnswer result (Decides (reported (aged t m) (page_reply t) (job_in (aged t m) job)
        (page_of said (job_in (aged t m) job) grant)) m t) }
    ensures closed { grant.is_open ≡ false → IsOk result }
{
    match page(&job, &grant, said) {
        Ok(change) => confirmed(alloc, job, change, grant.with_page(), t),
        Err(refusal) => page_refused(alloc, &job, refusal),
    }
}

/// A page report is refused: where it is no page that comes next, it is told how many are confirmed.
fn page_refused(alloc: Global, job: &Job, refusal: Refusal) -> Result<Decision, Fault>
    requires { ¬ (refusal ≡ Refusal.PageOrder) → has_detail refusal ≡ false }
    ensures reply { OrNoAnswer result (λ decision. decision
        ≡ Decision.Refused (refused_response refusal (keys_of_job refusal (job_of job.now)))) }
    ensures made { ¬ (refusal ≡ Refusal.PageOrder) → IsOk result }
{
    if refusal == Refusal::PageOrder {
        return page_order(alloc, job);
    }
    Ok(Decision::Refused(Reply::refused(refusal)))
}

/// A page that isn't the next one is refused, and it is told how many are confirmed.
fn page_order(alloc: Global, job: &Job) -> Result<Decision, Fault>
    ensures { OrNoAnswer result (λ decision. decision
        ≡ Decision.Refused (refused_response Refusal.PageOrder (Pages job.now.npages))) }
{
    let detail = Detail::PageOrder {
        npages: job.fields().npages,
    };
    Ok(Decision::Refused(Reply::refused_with(alloc, &detail)?))
}

fn confirmed(
    alloc: Global,
    job: Job,
    change: Change,
    grant: Grant,
    t: Moment,
) -> Result<Decision, Fault>
    ensures { (m : Queue) (before : GrantOf) → AreThere m t job before → IsSameGrant before grant
        → grant.number ≡ before.number → 1 ≤ before.first_page
        → grant.first_page + grant.confirmed ≡ length (changed change (job_of job)).sent + 1 → has_ended job.phase ≡ false
        → KeepsRecord change job
        → OrNoAnswer result (Decides (reported (aged t m) (page_reply t) (job_in (aged t m) job)
        (Ok (record { job = changed change (job_in (aged t m) job); grant = grant }))) m t) }
{
    let job = applied(change, job)?;
    let answer = Answer::Confirmed {
        npages: job.fields().npages,
        stop: stops(&job, t),
    };
    take(Effect::Reported { job, grant }, answered(alloc, &answer))
}

fn decide_outcome<S: Alter>(
    store: &mut Store<S>,
    office: &Office,
    alloc: Global,
    job: Job,
    grant: Grant,
    said: Outcome,
    t: Moment,
) -> Result<Decision, Fault>
    ensures consults { Consults S.Store store.old store.new result (λ m. Sound m → AreThere m t job grant
        → OrNoAnswer result (Decides (reported (aged t m)
        (outcome_reply (settings_of office.now.setup office.now.controls) t) (job_in (aged t m) job)
        (outcome_of said (job_in (aged t m) job) grant (delay_of office.now.setup grant.call) t)) m t)) }
    ensures closed { grant.is_open ≡ false → IsOk result }
{
    // It is within its bound, and so is the moment from which the job may be tried again.
    let _seconds = t.seconds();
    let delay = office.setup.delay(grant.call);
    match outcome(&job, &grant, said, delay, t) {
        Ok(change) => ended(store, office, alloc, job, change, &grant, t),
        Err(refusal) => Ok(Decision::Refused(Reply::refused(refusal))),
    }
}

/// The grant is closed, and the state of its job from now on is told.
fn ended<S: Alter>(
    store: &mut Store<S>,
    office: &Office,
    alloc: Global,
    job: Job,
    change: Change,
    grant: &Grant,
    t: Moment,
) -> Result<Decision, Fault>
    ensures { Consults S.Store store.old store.new result (λ m. Sound m → AreThere m t job grant.now
        → grant.now.is_open ≡ true → KeepsRecord change job
        → OrNoAnswer result (Decides (reported (aged t m)
        (outcome_reply (settings_of office.now.setup office.now.controls) t) (job_in (aged t m) job)
        (Ok (record { job = changed change (job_in (aged t m) job); grant = record grant.now { is_open = false } }))) m t)) }
{
    let job = applied(change, job)?;
    let reply = stands(store, office, alloc, &job, t);
    let effect = Effect::Closed {
        job,
        grant: grant.number,
    };
    take(effect, reply)
}

/// The reply that tells the state of a job from `t` on, where one call to its number ends.
fn stands<S: Alter>(
    store: &mut Store<S>,
    office: &Office,
    alloc: Global,
    job: &Job,
    t: Moment,
) -> Result<Reply, Fault>
    ensures { Consults S.Store store.old store.new result (λ m. OrNoAnswer result (λ reply. reply
        ≡ accepted_response (Replied (Stands job.now.job
        (state_with (settings_of office.now.setup office.now.controls) (job_of job.now)
        (calls_to job.now.dial m - 1) t))))) }
{
    // The call of the grant that is closed counts no more.
    let calls = store.active_to(&job.fields().dial)?.saturating_sub(1);
    let answer = Answer::Stands {
        job: job.fields().job,
        state: office.state_with(alloc, job, calls, t)?,
    };
    answered(alloc, &answer)
}
