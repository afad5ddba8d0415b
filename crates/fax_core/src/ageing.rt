//! What time alone does to a job.

ghost use Rattle.std.specs.Prelude.{◌≡◌};
ghost use Rattle.fax_job.specs.declared.job.Phase.TheVariants.{Failed};
ghost use Rattle.fax_core.specs.Ageing.{is_past, expires, aged_job, aged_by, aging};
ghost use Rattle.fax_core.specs.Job.{job_of};

use fax_job::{Job, JobFields, Moment, Phase, Status};

/// What time alone does to a job.
#[derive(Clone, Copy, Debug, PartialEq, Eq)]
pub enum Aging {
    /// The job is as it was.
    Stays,
    /// The job fails: its kill time has come.
    Expires,
}

/// Whether a job fails at `t`: it is held or waiting, and its kill time is from 1 to `t`.
pub fn aged(job: &Job, t: Moment) -> Aging
    ensures job { aged_by result (job_of job.now) ≡ aged_job t (job_of job.now) }
    ensures aging { result ≡ aging job.now.phase job.now.killtime t }
{
    let fields = job.fields();
    if expires(fields.phase) && is_past(fields.killtime, t) {
        Aging::Expires
    } else {
        Aging::Stays
    }
}

/// The job as it is at `t`: failed, with the status `Kill time expired`, where [`aged`] says so.
pub fn aged_job(job: Job, t: Moment) -> Job
    ensures { job_of result ≡ aged_job t (job_of job) }
{
    match aged(&job, t) {
        Aging::Stays => job,
        Aging::Expires => failed(job, Status::kill_time_expired()),
    }
}

fn failed(job: Job, status: Status) -> Job
    ensures { result ≡ record job { phase = Failed; status = status } }
{
    let fields = JobFields {
        phase: Phase::Failed,
        status,
        ..job.into_fields()
    };
    Job::new(fields).unwrap()
}

/// Whether a job of that phase fails when its kill time comes.
fn expires(phase: Phase) -> bool
    ensures { result ≡ expires phase }
{
    match phase {
        Phase::Held | Phase::Waiting => true,
        Phase::Granted | Phase::Done | Phase::Failed => false,
    }
}

/// Whether there is a kill time from 1 to `t`.
pub(crate) fn is_past(killtime: Option<Moment>, t: Moment) -> bool
    ensures { result ≡ is_past killtime t }
{
    match killtime {
        Some(killtime) => 1 <= killtime.seconds() && killtime.seconds() <= t.seconds(),
        None => false,
    }
}
