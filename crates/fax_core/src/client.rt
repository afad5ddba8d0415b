//! A client's requests on a job.

ghost use Rattle.std.specs.Prelude.{◌≡◌, nat_le, unwrap_or};
ghost use Rattle.std.specs.Option.{option_map};
ghost use Rattle.fax_core.specs.Change.{decided};
ghost use Rattle.fax_core.specs.Decisions.{suspend, resume, kill, alter, altered, within_limits};
ghost use Rattle.fax_core.specs.Job.{job_of};

use crate::change::{Altered, Change};
use fax_job::{Alter, Job, JobFields, Moment, Phase, Refusal, Status, Wish};

/// Suspends a job: a waiting one is held, a granted one is to be held when it comes back.
///
/// # Errors
///
/// `JobActive` where it is granted and to be killed, `JobOver` where it is done or failed.
pub fn suspend(job: &Job) -> Result<Change, Refusal>
    ensures { decided (job_of job.now) result ≡ suspend (job_of job.now) }
{
    let fields = job.fields();
    match (fields.phase, fields.wish) {
        (Phase::Held, _) => Ok(Change::none(fields)),
        (Phase::Waiting, _) => Ok(Change::to_phase(fields, Phase::Held)),
        (Phase::Granted, Wish::Go) => Ok(Change::to_wish(fields, Wish::Hold)),
        (Phase::Granted, Wish::Hold) => Ok(Change::none(fields)),
        (Phase::Granted, Wish::Kill) => Err(Refusal::JobActive),
        (Phase::Done | Phase::Failed, _) => Err(Refusal::JobOver),
    }
}

/// Resumes a job: a held one waits, and its next time stays; a granted one that was to be held isn't
/// any more.
///
/// # Errors
///
/// `NotSuspended` where it waits, `JobActive` where it is granted and not to be held, `JobOver` where
/// it is done or failed.
pub fn resume(job: &Job) -> Result<Change, Refusal>
    ensures { decided (job_of job.now) result ≡ resume (job_of job.now) }
{
    let fields = job.fields();
    match (fields.phase, fields.wish) {
        (Phase::Held, _) => Ok(Change::to_phase(fields, Phase::Waiting)),
        (Phase::Waiting, _) => Err(Refusal::NotSuspended),
        (Phase::Granted, Wish::Hold) => Ok(Change::to_wish(fields, Wish::Go)),
        (Phase::Granted, Wish::Go | Wish::Kill) => Err(Refusal::JobActive),
        (Phase::Done | Phase::Failed, _) => Err(Refusal::JobOver),
    }
}

/// Kills a job: a held or a waiting one fails, with the status `Killed`; a granted one fails when it
/// comes back.
///
/// # Errors
///
/// `JobOver` where it is done or failed.
pub fn kill(job: &Job) -> Result<Change, Refusal>
    ensures { decided (job_of job.now) result ≡ kill (job_of job.now) }
{
    let fields = job.fields();
    match fields.phase {
        Phase::Held | Phase::Waiting => Ok(Change::to_failed(fields, Status::killed())),
        Phase::Granted => Ok(Change::to_wish(fields, Wish::Kill)),
        Phase::Done | Phase::Failed => Err(Refusal::JobOver),
    }
}

/// Alters a held job: what is said is set, and a time to send that is said as empty is `t`.
///
/// # Errors
///
/// `NotSuspended` where the job waits, `JobActive` where it is granted, `JobOver` where it is done or
/// failed; `LimitReached` where it would have no dial or no try left.
pub fn alter(job: &Job, changes: Alter, t: Moment) -> Result<Change, Refusal>
    ensures { decided (job_of job.now) result ≡ alter changes (job_of job.now) t }
{
    let fields = job.fields();
    match fields.phase {
        Phase::Held => alter_held(fields, changes, t),
        Phase::Waiting => Err(Refusal::NotSuspended),
        Phase::Granted => Err(Refusal::JobActive),
        Phase::Done | Phase::Failed => Err(Refusal::JobOver),
    }
}

fn alter_held(fields: &JobFields, changes: Alter, t: Moment) -> Result<Change, Refusal>
    ensures { decided (job_of fields.now) result ≡ within_limits (altered changes (job_of fields.now) t) }
{
    if is_used_up(changes.maxdials, fields.maxdials, fields.totdials)
        || is_used_up(changes.maxtries, fields.maxtries, fields.tottries)
    {
        return Err(Refusal::LimitReached);
    }
    Ok(Change {
        altered: Altered {
            modem: changes.modem,
            jobtag: changes.jobtag,
            tts: new_tts(changes.tts, t),
            killtime: changes.killtime,
            priority: changes.priority,
            maxtries: changes.maxtries,
            maxdials: changes.maxdials,
        },
        ..Change::none(fields)
    })
}

/// Whether as many are used as there may be.
fn is_used_up(new_limit: Option<u16>, limit: u16, used: u16) -> bool
    ensures { result ≡ nat_le (unwrap_or new_limit limit) used }
{
    new_limit.unwrap_or(limit) <= used
}

/// The time to send that is set; said as empty, it is `t`.
fn new_tts(said: Option<Option<Moment>>, t: Moment) -> Option<Moment>
    ensures { result ≡ option_map (λ tts. unwrap_or tts t) said }
{
    match said {
        Some(tts) => Some(tts.unwrap_or(t)),
        None => None,
    }
}
