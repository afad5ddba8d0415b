//! Imports.

ghost use Rattle.std.specs.Prelude.{◌≡◌, ℕ, Bool, Ok};
ghost use Rattle.fax_core.specs.Import.{bring, brought, going_on, is_ended, old_job};
ghost use Rattle.fax_core.specs.Job.{job_of};
ghost use Rattle.fax_core.specs.Submission.{rule_of, submitted, recorded};

use crate::state::State;
use crate::submission::{is_over, new_fields};
use crate::worker::has_pages_left;
use fax_job::{Import, Job, JobFields, Moment, Phase, Refusal, Status};
use fax_rule::Rule;

/// The job of an import, by the rule of its number. What was done or had failed stays so. What all pages of
/// are sent is done, what has no dial or no try left fails, what was suspended is held, and the rest waits;
/// so no job comes in as granted. `next_job` is its number, and `max_jobs` the greatest that a job may have.
///
/// # Errors
///
/// `Rejected` where the rule has a notice, and `TooManyPages` where there are more pages than the rule
/// allows, each unless the job was done or had failed; `Full` where the number is over its greatest; in
/// this order. `Unavailable` where the job would be no lawful one, as [`Job::new`] tells: from an import
/// that [`fax_job::Lines::to_import`] gave, and a number from 1 to 999999, it always is.
pub fn bring(
    import: Import,
    rule: &Rule,
    next_job: u32,
    max_jobs: u32,
    t: Moment,
) -> Result<Job, Refusal>
    ensures { (hours : ℕ → Bool) → submitted result ≡ recorded (bring import (rule_of rule.now hours) next_job max_jobs t) }
{
    let is_ended = is_ended(import.state);
    if !is_ended && rule.notice.is_some() {
        return Err(Refusal::Rejected);
    }
    if !is_ended && is_over(import.order.totpages, rule.pages) {
        return Err(Refusal::TooManyPages);
    }
    if max_jobs < next_job {
        return Err(Refusal::Full);
    }
    brought_job(import, next_job, t)
}

/// Whether a state is one that no job leaves.
fn is_ended(state: u8) -> bool
    ensures { result ≡ is_ended state }
{
    state == State::Done.number() || state == State::Failed.number()
}

fn brought_job(import: Import, job: u32, t: Moment) -> Result<Job, Refusal>
    ensures { submitted result ≡ recorded (Ok (brought import.state (old_job import job t))) }
{
    let state = import.state;
    match Job::new(brought(state, old_fields(import, job, t))) {
        Some(job) => Ok(job),
        None => Err(Refusal::Unavailable),
    }
}

/// What the older queue had, under the new number.
fn old_fields(import: Import, job: u32, t: Moment) -> JobFields
    ensures { job_of result ≡ old_job import job t }
{
    JobFields {
        npages: import.npages,
        ntries: import.ntries,
        tottries: import.tottries,
        ndials: import.ndials,
        totdials: import.totdials,
        status: import.status,
        ..new_fields(import.order, job, t)
    }
}

/// What becomes of a job that stood in that state.
fn brought(state: u8, fields: JobFields) -> JobFields
    ensures { job_of result ≡ brought state (job_of fields) }
{
    if state == State::Done.number() {
        in_phase(fields, Phase::Done)
    } else if state == State::Failed.number() {
        in_phase(fields, Phase::Failed)
    } else {
        going_on(state, fields)
    }
}

/// What becomes of a job that wasn't over.
fn going_on(state: u8, fields: JobFields) -> JobFields
    ensures { job_of result ≡ going_on state (job_of fields) }
{
    if !has_pages_left(&fields) {
        over(fields, Phase::Done, Status::empty())
    } else if fields.maxdials <= fields.totdials {
        over(fields, Phase::Failed, Status::too_many_dials())
    } else if fields.maxtries <= fields.tottries {
        over(fields, Phase::Failed, Status::too_many_tries())
    } else if state == State::Suspended.number() {
        in_phase(fields, Phase::Held)
    } else {
        in_phase(fields, Phase::Waiting)
    }
}

fn in_phase(fields: JobFields, phase: Phase) -> JobFields
    ensures { result ≡ record fields { phase = phase } }
{
    JobFields { phase, ..fields }
}

fn over(fields: JobFields, phase: Phase, status: Status) -> JobFields
    ensures { result ≡ record fields { phase = phase; status = status } }
{
    JobFields {
        phase,
        status,
        ..fields
    }
}
