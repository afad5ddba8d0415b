//! Submissions.

ghost use Rattle.std.specs.Prelude.{◌≡◌, ℕ, Bool, Ok};
ghost use Rattle.fax_job.specs.Job.{is_lawful};
ghost use Rattle.fax_core.specs.Decisions.{submit, is_over, new_job};
ghost use Rattle.fax_core.specs.Job.{fields_of};
ghost use Rattle.fax_core.specs.Submission.{rule_of, submitted, recorded};

use fax_job::{Job, JobFields, Moment, Order, Phase, Refusal, Status, Wish};
use fax_rule::Rule;

/// The new job of an order, by the rule of its number: it waits with all its pages left, and without a
/// time to send it may go at once. `next_job` is its number, and `max_jobs` the greatest that a job may
/// have.
///
/// # Errors
///
/// `Rejected` where the rule has a notice, `TooManyPages` where the order has more pages than the rule
/// allows, `Full` where the number is over its greatest, in this order. `Unavailable` where the job
/// would be no lawful one, as [`Job::new`] tells: from an order that [`fax_job::Lines::to_order`] gave,
/// and a number from 1 to 999999, it always is.
pub fn submit(
    order: Order,
    rule: &Rule,
    next_job: u32,
    max_jobs: u32,
    t: Moment,
) -> Result<Job, Refusal>
    ensures { (hours : ℕ → Bool) → submitted result ≡ recorded (submit order (rule_of rule.now hours) next_job max_jobs t) }
{
    if rule.notice.is_some() {
        return Err(Refusal::Rejected);
    }
    if is_over(order.totpages, rule.pages) {
        return Err(Refusal::TooManyPages);
    }
    if max_jobs < next_job {
        return Err(Refusal::Full);
    }
    new_job(order, next_job, t)
}

/// Whether there are more pages than the rule allows.
pub(crate) fn is_over(pages: u16, limit: Option<u16>) -> bool
    ensures { result ≡ is_over pages limit }
{
    match limit {
        Some(limit) => limit < pages,
        None => false,
    }
}

fn new_job(order: Order, job: u32, t: Moment) -> Result<Job, Refusal>
    ensures { submitted result ≡ recorded (Ok (new_job order job t)) }
{
    match Job::new(new_fields(order, job, t)) {
        Some(job) => Ok(job),
        None => Err(Refusal::Unavailable),
    }
}

pub(crate) fn new_fields(order: Order, job: u32, t: Moment) -> JobFields
    ensures { result ≡ fields_of (new_job order job t) }
{
    JobFields {
        job,
        dial: order.dial,
        modem: order.modem,
        jobtag: order.jobtag,
        tts: order.tts.unwrap_or(t),
        killtime: order.killtime,
        priority: order.priority,
        npages: 0,
        totpages: order.totpages,
        ntries: 0,
        tottries: 0,
        maxtries: order.maxtries,
        ndials: 0,
        totdials: 0,
        maxdials: order.maxdials,
        phase: Phase::Waiting,
        wish: Wish::Go,
        next: 0,
        status: Status::empty(),
        extra: order.extra,
    }
}
