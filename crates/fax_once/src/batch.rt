//! A batch: arrivals that are answered one after the other within one work, before any of it is committed.

ghost use Rattle.std.specs.Prelude.{◌≡◌, [], false, true};
ghost use Rattle.fax_decide.specs.Settings.{settings_of};
ghost use Rattle.fax_once.specs.Batch.{AnswersEach, AnswersIn, AnswersTogether, LooksWithin, SettlesFor, is_accepted, reply_in};
ghost use Rattle.fax_once.specs.Looking.{Submits};

use crate::acceptance::{Answered, answer_new};
use crate::known::Known;
use crate::looking::{Looked, NewRequest, look_up};
use fax_ask::{Method, Reply, Routes};
use fax_decide::{Fault, Office};
use fax_run::Arrival;
use fax_store::{Store, StoreFault, Work};
use sqlite::Alter;
use std::alloc::{AllocError, Global};

impl Answered {
    /// Whether what it changes is written.
    fn is_accepted(&self) -> bool
        ensures { result ≡ is_accepted self.now }
    {
        match self {
            Answered::Unchanged(_) => false,
            Answered::Accepted(_) => true,
        }
    }

    fn into_reply(self) -> Reply
        ensures { result ≡ reply_in self }
    {
        match self {
            Answered::Unchanged(reply) | Answered::Accepted(reply) => reply,
        }
    }
}

/// How a batch ended that was answered.
#[derive(Drop)]
pub(crate) enum Batch {
    /// It is done, and these are the replies.
    Done(Vec<Reply>),
    /// What it changes could not be committed.
    Failed,
}

/// Answers arrivals one after the other, in one transaction. Where none is accepted, nothing is committed.
///
/// # Errors
///
/// As those of [`answer_each`], and lack of memory for the replies; nothing has changed.
pub(crate) fn answer_together<S: Alter>(
    store: &mut Store<S>,
    office: &Office,
    routes: &Routes,
    alloc: Global,
    arrivals: &[Arrival<'_>],
) -> Result<Batch, Fault>
    ensures { AnswersTogether S.Store store.old store.new result (settings_of office.now.setup office.now.controls)
        arrivals.now }
{
    let mut replies = Vec::with_capacity(alloc, arrivals.len())?;
    let mut work = store.begin()?;
    if !answer_each(&mut work, office, routes, alloc, arrivals, &mut replies)? {
        return Ok(Batch::Done(replies));
    }
    match work.commit() {
        Ok(()) => Ok(Batch::Done(replies)),
        Err(_) => Ok(Batch::Failed),
    }
}

/// Answers arrivals one after the other, each by the tables as those before it left them within the work. Returns whether
/// one was accepted.
///
/// # Errors
///
/// As those of [`answer_within`], for the first arrival without an answer, and of [`Known::settle`]. Then nothing of the work
/// is to be committed.
fn answer_each<S: Alter>(
    work: &mut Work<'_, S>,
    office: &Office,
    routes: &Routes,
    alloc: Global,
    arrivals: &[Arrival<'_>],
    replies: &mut Vec<Reply>,
) -> Result<bool, Fault>
    requires on { work.old.failed ≡ false }
    requires none { replies.old.items ≡ [] }
    ensures { AnswersEach S.Store work.old work.new result (settings_of office.now.setup office.now.controls) arrivals.now
        replies.new.items }
{
    let mut has_accepted = false;
    let mut known = Known::nothing();
    for arrival in arrivals {
        let answered = answer_within(work, office, routes, alloc, arrival, &mut known)?;
        has_accepted |= answered.is_accepted();
        if let Err(full) = replies.push(answered.into_reply()) {
            return Err(AllocError::from(full).into());
        }
    }
    known.settle(work)?;
    Ok(has_accepted)
}

/// Answers an arrival within a work.
///
/// # Errors
///
/// Lack of memory and the faults of the store. Then the work isn't to be committed.
fn answer_within<S: Alter>(
    work: &mut Work<'_, S>,
    office: &Office,
    routes: &Routes,
    alloc: Global,
    arrival: &Arrival<'_>,
    known: &mut Known,
) -> Result<Answered, Fault>
    requires { work.old.failed ≡ false }
    ensures { AnswersIn S.Store work.old work.new result (settings_of office.now.setup office.now.controls) arrival.now known.old known.new }
{
    *known = settle_for(work, arrival, *known)?;
    match look_within(work, office, routes, alloc, arrival)? {
        Looked::Known(reply) => Ok(Answered::Unchanged(reply)),
        Looked::New(NewRequest { sender, ask, floor }) => {
            answer_new(work, office, alloc, arrival, &sender, ask, floor, known)
        }
    }
}

/// Writes the clock and the next numbers where that is still to be done, unless the arrival submits a job: neither the look at
/// its reply nor its decision reads them in the tables. Returns what is known then.
///
/// # Errors
///
/// `Unavailable`.
fn settle_for<S: Alter>(
    work: &mut Work<'_, S>,
    arrival: &Arrival<'_>,
    known: Known,
) -> Result<Known, StoreFault>
    ensures { SettlesFor S.Store work.old work.new result arrival.now known }
{
    if submits(arrival) {
        return Ok(known);
    }
    known.settle(work)
}

/// Whether the arrival submits a job.
fn submits(arrival: &Arrival<'_>) -> bool
    ensures { result ≡ true → Submits arrival.now }
{
    arrival.method == Method::Post && arrival.path == "/jobs"
}

/// Looks at the tables for an arrival, as they stand within a work.
fn look_within<'a, S: Alter>(
    work: &mut Work<'_, S>,
    office: &Office,
    routes: &Routes,
    alloc: Global,
    arrival: &Arrival<'a>,
) -> Result<Looked<'a>, Fault>
    requires { work.old.failed ≡ false }
    ensures { LooksWithin S.Store work.old work.new result (settings_of office.now.setup office.now.controls) arrival.now }
{
    let looked = look_up(work.store, office, routes, alloc, arrival);
    if work.check() {
        looked
    } else {
        Err(Fault::NoAnswer)
    }
}
