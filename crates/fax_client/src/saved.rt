//! A worker in its journal.

ghost use Rattle.std.specs.Prelude.{◌≡◌, IfOk, MatchResult, None, Option, option_map, string_bytes, true};
ghost use Rattle.fax_journal.specs.Calls.{shown};
ghost use Rattle.fax_journal.specs.Entry.{Entry as Stored};
ghost use Rattle.fax_journal.specs.Journal.{Answers, Rests, TablesMean};
ghost use Rattle.fax_worker.specs.Sayable.{AreSteady};
ghost use Rattle.fax_worker.specs.Worker.{Worker as Record};
ghost use Rattle.fax_client.specs.Saved.{HasWorker, IsBetween, IsKept, IsNew, Loads, entry_of, request_of};

use crate::stop::Stop;
use fax_ask::{Ask, Method, Routes};
use fax_job::{Name, Refusal, RequestNumber};
use fax_journal::{Entry, Journal, Request};
use fax_worker::{Held, Pending, Said, Worker};
use sqlite::Alter;
use std::alloc::{AllocError, Global};

/// The worker of a modem's journal. A journal that was never set is a new worker's, whose name as a client is the
/// modem's, if that is known.
///
/// # Errors
///
/// `Journal`, also if the journal has no worker; `NotNow` if it was never set and no modem is known.
pub(crate) fn load<S: Alter + Drop>(
    alloc: Global,
    journal: &mut Journal<S>,
    modem: Option<&Name>,
) -> Result<Worker, Stop>
    ensures { (entry : Option Stored) (kept : Answers) → Rests (TablesMean entry kept) (shown S.Store journal.old)
        → Loads entry kept (shown S.Store journal.old) (shown S.Store journal.new) result }
{
    match journal.entry()? {
        Some(entry) => worker_of(alloc, entry),
        None => new_worker(alloc, modem),
    }
}

/// A worker that has asked for nothing yet.
fn new_worker(alloc: Global, modem: Option<&Name>) -> Result<Worker, Stop>
    ensures { IfOk result (λ worker. IsNew worker) }
{
    let Some(modem) = modem else {
        return Err(Stop::NotNow);
    };
    let client = modem.copy(alloc)?;
    match RequestNumber::new(1) {
        Some(last) => Ok(Worker::new(client, last)),
        None => Err(Stop::NotNow),
    }
}

/// The worker of an entry, if it is one's.
fn worker_of(alloc: Global, entry: Entry) -> Result<Worker, Stop>
    ensures { IfOk result (λ worker. entry ≡ entry_of worker) }
{
    let Entry {
        client,
        last,
        unanswered,
        held,
    } = entry;
    let pending = match unanswered {
        Some(request) => Some(pending_of(alloc, request)?),
        None => None,
    };
    Worker::restored(client, last, pending, held).ok_or(Stop::Journal)
}

/// The request that a worker says so, byte for byte.
fn pending_of(alloc: Global, request: Request) -> Result<Pending, Stop>
    ensures { IfOk result (λ pending. request ≡ request_of pending) }
{
    let pending = read_pending(alloc, &request)?;
    let said = pending.said(alloc)?;
    if !is_said(&said, &request) {
        return Err(Stop::Journal);
    }
    Ok(pending)
}

/// The request that the queue reads from what is kept, under its number, if a worker says it.
fn read_pending(alloc: Global, request: &Request) -> Result<Pending, Stop>
    ensures { IfOk result (λ pending. pending.number ≡ request.now.number) }
{
    let routes = Routes::new(alloc)?;
    match routes.read_ask(
        alloc,
        Method::Post,
        request.path.as_str(),
        request.body.as_slice(),
    ) {
        Ok(Ask::Step(ask)) => Pending::new(request.number, ask).ok_or(Stop::Journal),
        Err(Refusal::Unavailable) => Err(Stop::NoMemory),
        _ => Err(Stop::Journal),
    }
}

/// Whether the request has that path and body, and no key.
fn is_said(said: &Said, request: &Request) -> bool
    ensures path { result ≡ true → request.now.path ≡ string_bytes said.now.path }
    ensures body { result ≡ true → request.now.body ≡ string_bytes said.now.body }
    ensures key { result ≡ true → request.now.key ≡ None }
{
    request.key.is_none()
        && request.path.as_str() == said.path.as_str()
        && request.body.as_slice() == said.body.as_bytes()
}

/// Makes the worker what the journal has.
///
/// # Errors
///
/// `Journal`, and the journal has what it had; or `NoMemory`.
pub(crate) fn save<S: Alter + Drop>(
    alloc: Global,
    journal: &mut Journal<S>,
    worker: Worker,
) -> Result<Worker, Stop>
    ensures same { IfOk result (λ saved. saved ≡ worker) }
    ensures saves { (kept : Answers) (before : Record) (first : Journal S) →
        IsKept (HasWorker kept before) (shown S.Store first) (shown S.Store journal.old)
        → MatchResult result (λ _. IsKept (HasWorker kept worker) (shown S.Store first) (shown S.Store journal.new))
        (λ _. IsBetween (HasWorker kept before) (HasWorker kept worker) (shown S.Store first) (shown S.Store journal.new)) }
{
    let (client, last, pending, held) = worker.into_parts();
    let unanswered = requested(alloc, &pending)?;
    let entry = Entry {
        client,
        last,
        unanswered,
        held,
    };
    journal.set(&entry)?;
    let Entry {
        client,
        last,
        unanswered: _,
        held,
    } = entry;
    Ok(again(client, last, pending, held))
}

/// The worker of these parts, which were a worker's.
fn again(client: Name, last: RequestNumber, pending: Option<Pending>, held: Option<Held>) -> Worker
    requires { AreSteady pending held }
    ensures { result ≡ record { client = client; last = last; unanswered = pending; held = held } }
{
    match Worker::restored(client, last, pending, held) {
        Some(worker) => worker,
        None => unreachable!(),
    }
}

/// The unanswered request as it is kept, if there is one.
fn requested(alloc: Global, pending: &Option<Pending>) -> Result<Option<Request>, AllocError>
    ensures { IfOk result (λ request. request ≡ option_map request_of pending.now) }
{
    match pending {
        Some(pending) => Ok(Some(request_of(alloc, pending)?)),
        None => Ok(None),
    }
}

/// A request as it is kept, and sent each time.
fn request_of(alloc: Global, pending: &Pending) -> Result<Request, AllocError>
    ensures { IfOk result (λ request. request ≡ request_of pending.now) }
{
    let said = pending.said(alloc)?;
    Ok(Request {
        number: pending.number(),
        path: said.path,
        body: said.body.into_bytes(),
        key: None,
    })
}
