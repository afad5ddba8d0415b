//! Which job goes next, and that it is granted.

ghost use Rattle.std.specs.Prelude.{◌≡◌, ℕ, List};
ghost use Rattle.fax_core.specs.Best.{better};
ghost use Rattle.fax_core.specs.Change.{decided_with};
ghost use Rattle.fax_core.specs.Decisions.{grant, granted};
ghost use Rattle.fax_core.specs.Job.{job_of};
ghost use Rattle.fax_core.specs.State.{is_due, is_waiting};

use crate::ageing::is_past;
use crate::change::Change;
use fax_job::{Job, Moment, Phase, Refusal, Wish};

/// What a job says for itself of being ready at `t`: it waits, its kill time isn't past, and its time to
/// send and its next time have come. The hours of its number and the calls to it are another matter.
pub fn due(job: &Job, t: Moment) -> bool
    ensures { result ≡ is_due (job_of job.now) t }
{
    let fields = job.fields();
    is_waiting(fields.phase)
        && !is_past(fields.killtime, t)
        && fields.tts.seconds() <= t.seconds()
        && fields.next <= t.seconds()
}

fn is_waiting(phase: Phase) -> bool
    ensures { result ≡ is_waiting phase }
{
    match phase {
        Phase::Waiting => true,
        Phase::Held | Phase::Granted | Phase::Done | Phase::Failed => false,
    }
}

/// Whether `job` goes before `other`, by sendq(5): the lower priority first, then the earlier time to
/// send, then the lower number.
pub fn better(job: &Job, other: &Job) -> bool
    ensures { result ≡ better (job_of job.now) (job_of other.now) }
{
    let job = job.fields();
    let other = other.fields();
    job.priority < other.priority
        || (job.priority == other.priority
            && (job.tts.seconds() < other.tts.seconds()
                || (job.tts.seconds() == other.tts.seconds() && job.job < other.job)))
}

/// Grants a job, which goes with [`Grant::new`](crate::Grant::new): it is active, and its client wishes
/// nothing else yet. `next_grant` is the grant's number, and `max_grants` the greatest that a grant may
/// have.
///
/// # Errors
///
/// `Full` where the number is over its greatest.
pub fn grant(job: &Job, next_grant: u32, max_grants: u32) -> Result<Change, Refusal>
    ensures { (modem : List ℕ) → decided_with (granted (job_of job.now) modem next_grant).grant (job_of job.now) result
        ≡ grant (job_of job.now) modem next_grant max_grants }
{
    if max_grants < next_grant {
        return Err(Refusal::Full);
    }
    Ok(Change {
        phase: Phase::Granted,
        wish: Wish::Go,
        ..Change::none(job.fields())
    })
}
