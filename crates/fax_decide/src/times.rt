//! What a client sees of the times of a job.

ghost use Rattle.std.specs.Prelude.{◌≡◌, ◌&&◌, IfOk, if◌then◌else◌};
ghost use Rattle.fax_ask.specs.Answer.{Shown};
ghost use Rattle.fax_ask.specs.Response.{accepted_response};
ghost use Rattle.fax_core.specs.Ageing.{aged, expires, is_past};
ghost use Rattle.fax_core.specs.Queue.{times_numbered};
ghost use Rattle.fax_core.specs.Sound.{Sound};
ghost use Rattle.fax_job.specs.Spelling.{printed};
ghost use Rattle.fax_text.specs.Times.{times_lines};
ghost use Rattle.fax_run.specs.View.{times_viewed};
ghost use Rattle.fax_decide.specs.Fault.{OrNoAnswer};
ghost use Rattle.fax_decide.specs.Looking.{Consults};

use crate::fault::Fault;
use crate::records::job_number;
use fax_ask::{Answer, Reply};
use fax_core::{Aging, Times, aged};
use fax_job::{Job, Moment, Refusal};
use fax_store::Store;
use fax_text::push_times;
use sqlite::Alter;
use std::alloc::{AllocError, Global};

/// The key lines of the times of the job of that number, by a copy aged at `t`. Nothing is stored.
pub(crate) fn show_times<S: Alter>(
    store: &mut Store<S>,
    alloc: Global,
    number: u64,
    t: Moment,
) -> Result<Reply, Fault>
    ensures { Consults S.Store store.old store.new result (λ m. Sound m → OrNoAnswer result (λ reply. reply
        ≡ times_viewed (times_numbered number (aged t m)))) }
{
    match times_at(store, number, t)? {
        Some(times) => Ok(shown(alloc, times)?),
        None => Ok(Reply::refused(Refusal::NoJob)),
    }
}

/// The times of the job of that number, as they are at `t`, if it is there. Where it has times and isn't there, as in no
/// sound queue, there is no answer.
fn times_at<S: Alter>(store: &mut Store<S>, number: u64, t: Moment) -> Result<Option<Times>, Fault>
    ensures { Consults S.Store store.old store.new result (λ m. Sound m → OrNoAnswer result (λ found. found
        ≡ times_numbered number (aged t m))) }
{
    let Some(number) = job_number(number) else {
        return Ok(None);
    };
    let Some(times) = store.times(number)? else {
        return Ok(None);
    };
    match store.brief(number)? {
        Some(job) => Ok(Some(times_by(&job, times, t))),
        None => Err(Fault::Strange),
    }
}

/// The times of a job as they are at `t`: it ended then, where its kill time has come.
fn times_by(job: &Job, times: Times, t: Moment) -> Times
    ensures { result ≡ (if expires job.now.phase && is_past job.now.killtime t then record times { ended = t }
        else times) }
{
    match aged(job, t) {
        Aging::Stays => times,
        Aging::Expires => Times { ended: t, ..times },
    }
}

/// The reply that shows these times.
fn shown(alloc: Global, times: Times) -> Result<Reply, AllocError>
    ensures { IfOk result (λ reply. reply
        ≡ accepted_response (Shown (printed (times_lines times.submitted times.ended)))) }
{
    let mut lines = Vec::new(alloc);
    push_times(&mut lines, times.submitted, times.ended)?;
    Reply::accepted(alloc, &Answer::Lines(lines.as_slice()))
}
