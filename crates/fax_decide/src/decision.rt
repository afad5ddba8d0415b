//! What is decided of a request.

ghost use Rattle.std.specs.Prelude.{◌≡◌, Err, IfOk, IsOk, MatchResult, Ok};
ghost use Rattle.fax_ask.specs.Answer.{told};
ghost use Rattle.fax_ask.specs.Response.{accepted_response};
ghost use Rattle.fax_core.specs.Change.{changed};
ghost use Rattle.fax_core.specs.Job.{job_of};
ghost use Rattle.fax_core.specs.Submission.{recorded};
ghost use Rattle.fax_job.specs.Job.{IsLawful};
ghost use Rattle.fax_decide.specs.Fault.{OrNoAnswer};
ghost use Rattle.fax_decide.specs.Records.{KeepsRecord};

use crate::effect::Effect;
use crate::fault::Fault;
use fax_ask::{Answer, Reply};
use fax_core::Change;
use fax_job::Job;
use std::alloc::Global;

/// What is decided of a request.
#[derive(Drop)]
pub enum Decision {
    /// It is accepted: what it changes, and the reply, which is kept.
    Taken { effect: Effect, reply: Reply },
    /// It is refused, and changes nothing.
    Refused(Reply),
}

/// A request is taken for this effect, with that reply, if there is one.
pub(crate) fn take(effect: Effect, reply: Result<Reply, Fault>) -> Result<Decision, Fault>
    ensures { MatchResult reply (λ reply. result ≡ Ok (Decision.Taken effect reply)) (λ fault. result ≡ Err fault) }
{
    let reply = reply?;
    Ok(Decision::Taken { effect, reply })
}

/// The reply that tells an answer.
pub(crate) fn answered(alloc: Global, answer: &Answer<'_>) -> Result<Reply, Fault>
    ensures { OrNoAnswer result (λ reply. reply ≡ accepted_response (told answer.now)) }
{
    Ok(Reply::accepted(alloc, answer)?)
}

/// The job after a change. Where it would be no lawful one, as after no change that is decided of a job, there is none.
pub(crate) fn applied(change: Change, job: Job) -> Result<Job, Fault>
    ensures after { IfOk result (λ after. Ok (job_of after) ≡ recorded (Ok (changed change (job_of job)))) }
    ensures kept { KeepsRecord change job → IsOk result }
    ensures lawful { IsLawful job }
{
    // The job itself is lawful.
    let _fields = job.fields();
    match change.applied_to(job) {
        Ok(job) => Ok(job),
        Err(_) => Err(Fault::Strange),
    }
}
