//! A worker's reports on a grant.

ghost use Rattle.std.specs.Prelude.{◌≡◌, ◌+◌, ◌≤◌, ◌&&◌, Some, false, is_none, is_some, not};
ghost use Rattle.fax_core.specs.Change.{changed, decided_with};
ghost use Rattle.fax_core.specs.Decisions.{call, after_call, is_connected, is_done, is_empty, page, page_of, outcome, ended, retried, phase_after, stops};
ghost use Rattle.fax_core.specs.Job.{job_of};
ghost use Rattle.fax_core.specs.declared.grants.Grant.{Grant};
ghost use Rattle.fax_job.specs.declared.job.Wish.TheVariants.{Go};
ghost use Rattle.fax_value.specs.Limits.{longest_delay};

use crate::ageing::is_past;
use crate::change::Change;
use crate::grants::Grant;
use crate::report::{Ending, Outcome};
use fax_job::limits::TRIES_OF_PAGE;
use fax_job::{Call, Job, JobFields, Moment, Phase, Refusal, Status, Wish};

/// Takes the report of a call, which goes with [`Grant::with_call`]. A connected call is a try, and ends
/// a row of dials that came to nothing.
///
/// # Errors
///
/// `GrantClosed`, or `CallKnown` where a call was reported.
pub fn call(job: &Job, grant: &Grant, reported: Call) -> Result<Change, Refusal>
    ensures { decided_with (record grant.now { call = Some reported }) (job_of job.now) result
        ≡ call reported (job_of job.now) grant.now }
{
    if !grant.is_open {
        return Err(Refusal::GrantClosed);
    }
    if grant.call.is_some() {
        return Err(Refusal::CallKnown);
    }
    Ok(after_call(job, reported))
}

fn after_call(job: &Job, reported: Call) -> Change
    ensures { changed result (job_of job.now) ≡ after_call reported (job_of job.now) }
{
    let fields = job.fields();
    match reported {
        Call::Connected => Change {
            ndials: 0,
            totdials: fields.totdials + 1,
            ntries: fields.ntries + 1,
            tottries: fields.tottries + 1,
            ..Change::none(fields)
        },
        Call::Busy | Call::NoAnswer | Call::NoCarrier | Call::Other => Change {
            ndials: fields.ndials + 1,
            totdials: fields.totdials + 1,
            ..Change::none(fields)
        },
    }
}

/// Takes the report that a page was confirmed, which goes with [`Grant::with_page`].
///
/// # Errors
///
/// `GrantClosed`, `NotConnected` where no connected call was reported, or `PageOrder` where the page isn't
/// the first that is left, in this order.
pub fn page(job: &Job, grant: &Grant, confirmed: u16) -> Result<Change, Refusal>
    ensures { decided_with (record grant.now { confirmed = grant.now.confirmed + 1 }) (job_of job.now) result
        ≡ page confirmed (job_of job.now) grant.now }
{
    if !grant.is_open {
        return Err(Refusal::GrantClosed);
    }
    if !is_connected(grant.call) {
        return Err(Refusal::NotConnected);
    }
    next_page(job, confirmed)
}

fn is_connected(known: Option<Call>) -> bool
    ensures { result ≡ is_connected known }
{
    matches!(known, Some(Call::Connected))
}

fn next_page(job: &Job, confirmed: u16) -> Result<Change, Refusal>
    ensures { (g : Grant) → decided_with (record g { confirmed = g.confirmed + 1 }) (job_of job.now) result
        ≡ page_of (job_of job.now).left confirmed (job_of job.now) g }
{
    let fields = job.fields();
    if fields.totpages <= fields.npages || confirmed != fields.npages + 1 {
        return Err(Refusal::PageOrder);
    }
    Ok(Change {
        npages: confirmed,
        ntries: 0,
        ..Change::none(fields)
    })
}

/// The job after the outcome of its grant, which is closed then. `delay` is how many seconds the job waits before it
/// may be tried again, at most 86400.
///
/// # Errors
///
/// `GrantClosed`; `CallKnown` or `CallMissing` where the outcome says otherwise of a call than was
/// reported; `PagesMismatch` where it says another number of pages than was confirmed; `PagesLeft` where
/// it is `Done` with pages left; in this order.
pub fn outcome(
    job: &Job,
    grant: &Grant,
    said: Outcome,
    delay: u64,
    t: Moment,
) -> Result<Change, Refusal>
    requires delay { delay ≤ longest_delay }
    ensures { decided_with (record grant.now { is_open = false }) (job_of job.now) result
        ≡ outcome said (job_of job.now) grant.now delay t }
{
    if !grant.is_open {
        return Err(Refusal::GrantClosed);
    }
    if denies_call(said.dialed, grant.call) {
        return Err(Refusal::CallKnown);
    }
    if lacks_call(said.dialed, grant.call) {
        return Err(Refusal::CallMissing);
    }
    if said.pages != grant.confirmed {
        return Err(Refusal::PagesMismatch);
    }
    let fields = job.fields();
    if is_done(said.ending) && has_pages_left(fields) {
        return Err(Refusal::PagesLeft);
    }
    Ok(ended(fields, said, delay, t))
}

/// The outcome knows of no call, and one was reported.
fn denies_call(dialed: bool, known: Option<Call>) -> bool
    ensures { result ≡ (not dialed && is_some known) }
{
    !dialed && known.is_some()
}

/// The outcome knows of a call, and none was reported.
fn lacks_call(dialed: bool, known: Option<Call>) -> bool
    ensures { result ≡ (dialed && is_none known) }
{
    dialed && known.is_none()
}

fn is_done(ending: Ending) -> bool
    ensures { result ≡ is_done ending }
{
    match ending {
        Ending::Done => true,
        Ending::Retry | Ending::Fail => false,
    }
}

pub(crate) fn has_pages_left(fields: &JobFields) -> bool
    ensures { result ≡ not (is_empty (job_of fields.now).left) }
{
    fields.npages < fields.totpages
}

/// What becomes of the job: with all pages confirmed it is done, whatever the outcome says.
fn ended(fields: &JobFields, said: Outcome, delay: u64, t: Moment) -> Change
    requires delay { delay ≤ longest_delay }
    ensures { changed result (job_of fields.now) ≡ ended (job_of fields.now).left said (job_of fields.now) delay t }
{
    if fields.totpages <= fields.npages {
        return over(fields, Phase::Done, Status::empty());
    }
    match said.ending {
        Ending::Done | Ending::Fail => over(fields, Phase::Failed, said.reason),
        Ending::Retry => retried(fields, said.reason, delay, t),
    }
}

/// The job leaves its modem, and its client's wish is over.
fn over(fields: &JobFields, phase: Phase, status: Status) -> Change
    ensures { changed result (job_of fields.now) ≡ record (job_of fields.now) { phase = phase; wish = Go; status = status } }
{
    Change {
        phase,
        wish: Wish::Go,
        status: Some(status),
        ..Change::none(fields)
    }
}

/// The job fails where it was to be killed, its kill time is past, or its dials or tries are used up, or
/// three tries of one page failed; else it goes on after the delay.
fn retried(fields: &JobFields, reason: Status, delay: u64, t: Moment) -> Change
    requires delay { delay ≤ longest_delay }
    ensures { changed result (job_of fields.now) ≡ retried (job_of fields.now) reason delay t }
{
    if fields.wish == Wish::Kill {
        over(fields, Phase::Failed, Status::killed())
    } else if is_past(fields.killtime, t) {
        over(fields, Phase::Failed, Status::kill_time_expired())
    } else if fields.maxdials <= fields.totdials {
        over(fields, Phase::Failed, Status::too_many_dials())
    } else if fields.maxtries <= fields.tottries {
        over(fields, Phase::Failed, Status::too_many_tries())
    } else if TRIES_OF_PAGE <= fields.ntries {
        over(fields, Phase::Failed, Status::unable_to_transmit())
    } else {
        Change {
            next: (u64::from(t.seconds()) + delay) as u32,
            ..over(fields, phase_after(fields.wish), reason)
        }
    }
}

/// A job that was to be held is held; any other waits.
fn phase_after(wish: Wish) -> Phase
    ensures { result ≡ phase_after wish }
{
    match wish {
        Wish::Hold => Phase::Held,
        Wish::Go | Wish::Kill => Phase::Waiting,
    }
}

/// Whether the worker that has the job is to stop: its client wishes it held or killed, or its kill time
/// is past.
pub fn stops(job: &Job, t: Moment) -> bool
    ensures { result ≡ stops (job_of job.now) t }
{
    let fields = job.fields();
    fields.wish != Wish::Go || is_past(fields.killtime, t)
}
