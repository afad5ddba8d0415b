//! What a client sees of the queue: a job, its times, the listing of all jobs or of the newest, or the modems.

ghost use Rattle.std.specs.Prelude.{◌≡◌, [], ◌∷◌, ◌++◌, IfOk, OnOk, map};
ghost use Rattle.std.specs.List.Sorted.{IsStrictlyIncreasing};
ghost use Rattle.fax_ask.specs.Answer.{Listed, Shown};
ghost use Rattle.fax_ask.specs.Response.{accepted_response};
ghost use Rattle.fax_ask.specs.declared.view.View.TheVariants.{Job as OneJob, Jobs as AllJobs, Newest as NewestJobs};
ghost use Rattle.fax_core.specs.Ageing.{aged_job};
ghost use Rattle.fax_core.specs.Job.{job_of};
ghost use Rattle.fax_core.specs.State.{state as job_state};
ghost use Rattle.fax_job.specs.JobLines.{job_lines};
ghost use Rattle.fax_job.specs.Spelling.{printed};
ghost use Rattle.fax_text.specs.Listing.{listing_of, number_of};
ghost use Rattle.fax_decide.specs.Fault.{OrNoAnswer};
ghost use Rattle.fax_decide.specs.Looking.{Consults, Views};
ghost use Rattle.fax_decide.specs.Settings.{settings_of};
ghost use Rattle.fax_decide.specs.Newest.{HasNewest};
ghost use Rattle.fax_run.specs.View.{newest, view, with_state};

use crate::fault::Fault;
use crate::modem_list::show_modems;
use crate::office::Office;
use crate::records::job_at;
use crate::state::state_of;
use crate::times::show_times;
use fax_ask::{Answer, Reply, View};
use fax_core::aged_job;
use fax_job::{Job, Moment, Refusal, write_lines};
use fax_store::Store;
use fax_text::list;
use sqlite::Alter;
use std::alloc::{AllocError, Global};

/// How many jobs are listed as the newest.
const NEWEST: usize = 200;

/// How many numbers below the next one are read first for these.
const RECENT: u32 = 1000;

/// What a client asks to see, of the queue as it is at `t`. Nothing is stored.
///
/// # Errors
///
/// [`Fault`].
pub fn show<S: Alter>(
    store: &mut Store<S>,
    office: &Office,
    alloc: Global,
    asked: View,
    t: Moment,
) -> Result<Reply, Fault>
    ensures { Views S.Store store.old store.new result
        (λ m. view (settings_of office.now.setup office.now.controls) m t asked) }
{
    match asked {
        View::Job { job } => show_job(store, office, alloc, job, t),
        View::Times { job } => show_times(store, alloc, job, t),
        View::Jobs => show_jobs(store, office, alloc, t),
        View::Newest => show_newest(store, office, alloc, t),
        View::Modems => show_modems(store, office, alloc),
    }
}

/// The key lines of the job of that number, by a copy aged at `t`, with its state there. Nothing is
/// stored.
fn show_job<S: Alter>(
    store: &mut Store<S>,
    office: &Office,
    alloc: Global,
    number: u64,
    t: Moment,
) -> Result<Reply, Fault>
    ensures { Consults S.Store store.old store.new result (λ m. OrNoAnswer result (λ reply. reply
        ≡ view (settings_of office.now.setup office.now.controls) m t (OneJob number))) }
{
    match job_at(store, number, t)? {
        Some(job) => shown(store, office, alloc, &job, t),
        None => Ok(Reply::refused(Refusal::NoJob)),
    }
}

/// The reply that shows a job with its state at `t`.
fn shown<S: Alter>(
    store: &mut Store<S>,
    office: &Office,
    alloc: Global,
    job: &Job,
    t: Moment,
) -> Result<Reply, Fault>
    ensures { Consults S.Store store.old store.new result (λ m. OrNoAnswer result (λ reply. reply
        ≡ accepted_response (Shown (printed (job_lines job.now
        (job_state (settings_of office.now.setup office.now.controls) m t (job_of job.now))))))) }
{
    let state = state_of(store, office, alloc, job, t)?;
    Ok(shown_with(alloc, job, state)?)
}

/// The reply that shows a job with that state.
fn shown_with(alloc: Global, job: &Job, state: u8) -> Result<Reply, AllocError>
    ensures { IfOk result (λ reply. reply ≡ accepted_response (Shown (printed (job_lines job.now state)))) }
{
    let lines = job.lines_at(alloc, state)?;
    let bytes = write_lines(alloc, &lines)?;
    Reply::accepted(alloc, &Answer::Lines(bytes.as_slice()))
}

// ---- the listing

/// The listing of all jobs, by copies aged at `t`, with their states there. Nothing is stored, and their extra lines, which
/// it doesn't show, aren't read.
fn show_jobs<S: Alter>(
    store: &mut Store<S>,
    office: &Office,
    alloc: Global,
    t: Moment,
) -> Result<Reply, Fault>
    ensures { Views S.Store store.old store.new result
        (λ m. view (settings_of office.now.setup office.now.controls) m t AllJobs) }
{
    let jobs = store.briefs()?;
    let rows = with_states(store, office, alloc, jobs, t)?;
    Ok(listed(office, alloc, rows.as_slice())?)
}

/// The listing of the newest jobs, by copies aged at `t`, with their states there. Nothing is stored.
fn show_newest<S: Alter>(
    store: &mut Store<S>,
    office: &Office,
    alloc: Global,
    t: Moment,
) -> Result<Reply, Fault>
    ensures { Views S.Store store.old store.new result
        (λ m. view (settings_of office.now.setup office.now.controls) m t NewestJobs) }
{
    let jobs = recent(store)?;
    let rows = with_states(store, office, alloc, jobs, t)?;
    Ok(listed(office, alloc, newest(rows.as_slice()))?)
}

/// The jobs from some number on, without their extra lines: at least as many as are listed as the newest, or all. If
/// numbers have no large gaps, at most [`RECENT`] jobs are read.
fn recent<S: Alter>(store: &mut Store<S>) -> Result<Vec<Job>, Fault>
    ensures { Consults S.Store store.old store.new result
        (λ m. OrNoAnswer result (λ jobs. HasNewest m jobs.items)) }
{
    let next = store.meta()?.next_job;
    let jobs = store.briefs_from(next.saturating_sub(RECENT))?;
    if jobs.len() >= NEWEST {
        return Ok(jobs);
    }
    Ok(store.briefs()?)
}

/// The last [`NEWEST`] of these, or all where there are fewer.
fn newest(rows: &[(Job, u8)]) -> &[(Job, u8)]
    ensures { result.now ≡ newest rows.now }
{
    &rows[rows.len().saturating_sub(NEWEST)..]
}

/// The jobs aged at `t`, each with the number of its state there.
fn with_states<S: Alter>(
    store: &mut Store<S>,
    office: &Office,
    alloc: Global,
    jobs: Vec<Job>,
    t: Moment,
) -> Result<Vec<(Job, u8)>, Fault>
    ensures { Consults S.Store store.old store.new result (λ m. OrNoAnswer result (λ rows. rows.items
        ≡ map (λ job. with_state (settings_of office.now.setup office.now.controls) m t (aged_job t (job_of job)))
        jobs.items)) }
{
    let mut rows = Vec::with_capacity(alloc, jobs.len())?;
    for job in jobs {
        let job = aged_job(job, t);
        let state = state_of(store, office, alloc, &job, t)?;
        add_row(&mut rows, job, state)?;
    }
    Ok(rows)
}

/// Puts a job with its state behind the others.
fn add_row(rows: &mut Vec<(Job, u8)>, job: Job, state: u8) -> Result<(), AllocError>
    ensures { OnOk result (rows.new.items ≡ rows.old.items ++ (job, state) ∷ []) }
{
    rows.push((job, state))?;
    Ok(())
}

/// The reply that lists jobs that stand in ascending order of their numbers.
fn listed(office: &Office, alloc: Global, jobs: &[(Job, u8)]) -> Result<Reply, AllocError>
    ensures { IsStrictlyIncreasing (map number_of jobs.now) → IfOk result (λ reply. reply
        ≡ accepted_response (Listed (listing_of (settings_of office.now.setup office.now.controls).shows jobs.now))) }
{
    let text = list(alloc, jobs, office.setup.zone())?;
    Reply::accepted(alloc, &Answer::Listing(text.as_slice()))
}
