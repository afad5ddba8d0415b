//! A worker's request is sent until it is answered.

ghost use Rattle.std.specs.Prelude.{◌≡◌, IfOk, IfSome, Some};
ghost use Rattle.fax_journal.specs.Journal.{Answers};
ghost use Rattle.fax_worker.specs.Answer.{answer_of};
ghost use Rattle.fax_worker.specs.Worker.{Worker as Record};
ghost use Rattle.fax_client.specs.Asking.{MayLook, heard};
ghost use Rattle.fax_client.specs.Course.{Events, Follows, IsAt, Start};
ghost use Rattle.fax_client.specs.Line.{Reply};
ghost use Rattle.fax_client.specs.Working.{IsAnswerIn, IsReadIn, Move, workers};

use crate::line::Line;
use crate::look::look_in;
use crate::message::{get_modems, post_message};
use crate::stop::Stop;
use fax_http::{Answer as Response, AnswerFault};
use fax_journal::Journal;
use fax_worker::{Answer, Look, Pending, Worker};
use sqlite::Alter;
use std::alloc::Global;

/// The most tries, which are a second apart at least: it is never reached.
pub(crate) const TRIES: u64 = 1_000_000_000_000;

/// The status of a listing (RFC 9110, section 15.3.1).
const OK: u16 = 200;

/// The queue's answer to a worker's unanswered request, and what the grant of a busy modem has. It is asked for again and
/// again, with the same bytes, until it comes or all tries are done: any other reply says nothing.
///
/// # Errors
///
/// `Later` if it didn't come in time; `NoMemory`.
pub(crate) fn ask_until_answered<S: Alter + Drop, L: Line<Journal<S>>>(
    alloc: Global,
    journal: &Journal<S>,
    line: &mut L,
    worker: &Worker,
    pending: &Pending,
    tries: u64,
) -> Result<(Answer, Look), Stop>
    ensures { (kept : Answers) (first : Start (Journal S) L Record) (earlier : Events (Journal S) Move) → worker.now.unanswered ≡ Some pending.now
        → IsAt S.Store L.carries L.pauses (workers kept) first earlier line.old worker.now journal.now
        → (events : Events (Journal S) Move)
        × Follows S.Store L.carries L.pauses (workers kept) first earlier events line.new worker.now journal.now
        × IfOk result (λ r. IsAnswerIn events worker.now.client pending.now (answer_of r.0)) }
{
    let said = pending.said(alloc)?;
    let message = post_message(
        alloc,
        worker.client(),
        pending.number(),
        said.path.as_str(),
        said.body.as_bytes(),
    )?;
    for _ in 0..tries {
        let answer = ask_once(
            alloc,
            journal,
            line,
            worker.client(),
            pending,
            message.as_slice(),
        )?;
        if let Some(answered) = answer {
            return Ok(answered);
        }
        if !line.pause() {
            return Err(Stop::Later);
        }
    }
    Err(Stop::Later)
}

/// Sends a request once. Its answer, if that came, with what the grant of a busy modem has.
fn ask_once<S: Alter + Drop, L: Line<Journal<S>>>(
    alloc: Global,
    journal: &Journal<S>,
    line: &mut L,
    client: &str,
    pending: &Pending,
    message: &[u8],
) -> Result<Option<(Answer, Look)>, Stop>
    ensures { (middle : L) × (back : Reply) × L.carries line.old journal.now message.now back middle
        × MayLook L.carries middle journal.now line.new
        × IfOk result (λ found. IfSome found (λ r. IsReadIn pending.now.ask back (answer_of r.0))) }
{
    match read_once(alloc, journal, line, pending, message)? {
        Some(answer) => with_look(journal, line, client, answer),
        None => Ok(None),
    }
}

/// The answer to a request that is sent once, if it came.
fn read_once<S: Alter + Drop, L: Line<Journal<S>>>(
    alloc: Global,
    journal: &Journal<S>,
    line: &mut L,
    pending: &Pending,
    message: &[u8],
) -> Result<Option<Answer>, Stop>
    ensures { (back : Reply) × L.carries line.old journal.now message.now back line.new
        × IfOk result (λ found. IfSome found (λ answer. IsReadIn pending.now.ask back (answer_of answer))) }
{
    match exchange(journal, line, message)? {
        Some(reply) => Ok(pending.read_answer(alloc, reply.status, reply.body.as_slice())?),
        None => Ok(None),
    }
}

/// What comes back for a message, if something does.
pub(crate) fn exchange<S: Alter + Drop, L: Line<Journal<S>>>(
    journal: &Journal<S>,
    line: &mut L,
    message: &[u8],
) -> Result<Option<Response>, Stop>
    ensures { (back : Reply) × L.carries line.old journal.now message.now back line.new × (result ≡ heard back) }
{
    match line.exchange(journal, message) {
        Ok(reply) => Ok(Some(reply)),
        Err(AnswerFault::NoReply) => Ok(None),
        Err(AnswerFault::NoMemory) => Err(Stop::NoMemory),
    }
}

/// An answer with what the modem's grant has, if that is wanted and can be had.
fn with_look<S: Alter + Drop, L: Line<Journal<S>>>(
    journal: &Journal<S>,
    line: &mut L,
    modem: &str,
    answer: Answer,
) -> Result<Option<(Answer, Look)>, Stop>
    ensures line { MayLook L.carries line.old journal.now line.new }
    ensures answer { IfOk result (λ found. IfSome found (λ r. r.0 ≡ answer)) }
{
    let Some(grant) = grant_to_look_at(&answer) else {
        return Ok(Some((answer, Look::new(None, 0))));
    };
    let Some(reply) = exchange(journal, line, get_modems().as_bytes())? else {
        return Ok(None);
    };
    match look_in_reply(reply, modem, grant) {
        Some(look) => Ok(Some((answer, look))),
        None => Ok(None),
    }
}

/// What a listing of the modems says of this modem's grant, if it shows that.
fn look_in_reply(reply: Response, modem: &str, grant: u32) -> Option<Look> {
    if reply.status != OK {
        return None;
    }
    match String::from_utf8(reply.body) {
        Ok(listing) => look_in(listing.as_str(), modem, grant),
        Err(_) => None,
    }
}

/// The grant of a busy modem that has a call, which the worker doesn't know.
fn grant_to_look_at(answer: &Answer) -> Option<u32> {
    match answer {
        Answer::Busy {
            called: true,
            handed,
        } => Some(handed.grant()),
        _ => None,
    }
}
