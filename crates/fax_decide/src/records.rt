//! Jobs and grants by the numbers that requests name.

ghost use Rattle.std.specs.Prelude.{◌≡◌, ◌<◌, ◌≤◌, MatchOption};
ghost use Rattle.std.specs.Option.{option_map};
ghost use Rattle.fax_core.specs.Ageing.{aged};
ghost use Rattle.fax_core.specs.Job.{job_of};
ghost use Rattle.fax_core.specs.Queue.{job_numbered, grant_numbered};
ghost use Rattle.fax_value.specs.Limits.{last_grant, last_job};
ghost use Rattle.fax_tables.specs.Fault.{OrUnavailable};
ghost use Rattle.fax_decide.specs.Looking.{Consults};
ghost use Rattle.fax_decide.specs.Records.{job_in};

use fax_core::{Grant, aged_job};
use fax_job::limits::{LAST_GRANT, LAST_JOB};
use fax_job::{Job, Moment};
use fax_store::{Store, StoreFault};
use sqlite::Alter;

/// The number, where a job may have it.
pub(crate) fn job_number(number: u64) -> Option<u32>
    ensures { MatchOption result (last_job < number) (λ found. (found ≡ number) × number ≤ last_job) }
{
    if number > u64::from(LAST_JOB) {
        return None;
    }
    Some(number as u32)
}

/// The job of that number, as it is at `t`, if there is one.
pub(crate) fn job_at<S: Alter>(
    store: &mut Store<S>,
    number: u64,
    t: Moment,
) -> Result<Option<Job>, StoreFault>
    ensures consults { Consults S.Store store.old store.new result (λ m.
        OrUnavailable result (λ found. option_map (λ f. job_of f) found ≡ job_numbered number (aged t m))) }
    ensures past { last_job < number → result ≡ Ok None }
{
    let Some(number) = job_number(number) else {
        return Ok(None);
    };
    match store.job(number)? {
        Some(job) => Ok(Some(aged_job(job, t))),
        None => Ok(None),
    }
}

/// The job of that number without its extra lines, as it is at `t`, if there is one.
pub(crate) fn brief_at<S: Alter>(
    store: &mut Store<S>,
    number: u64,
    t: Moment,
) -> Result<Option<Job>, StoreFault>
    ensures consults { Consults S.Store store.old store.new result (λ m.
        OrUnavailable result (λ found. option_map (job_in (aged t m)) found ≡ job_numbered number (aged t m))) }
    ensures past { last_job < number → result ≡ Ok None }
{
    let Some(number) = job_number(number) else {
        return Ok(None);
    };
    match store.brief(number)? {
        Some(brief) => Ok(Some(aged_job(brief, t))),
        None => Ok(None),
    }
}

/// The grant of that number, if there is one.
pub(crate) fn grant_at<S: Alter>(
    store: &mut Store<S>,
    number: u64,
) -> Result<Option<Grant>, StoreFault>
    ensures consults { Consults S.Store store.old store.new result (λ m.
        OrUnavailable result (λ found. found ≡ grant_numbered number m)) }
    ensures past { last_grant < number → result ≡ Ok None }
{
    if number > u64::from(LAST_GRANT) {
        return Ok(None);
    }
    store.grant(number as u32)
}
