//! Requests of any kind, each sent until it is answered.

ghost use Rattle.std.specs.Prelude.{◌≡◌, ◌⊎◌, ℕ, IfOk, IfSome, List, MatchResult, None, Option, Some, option_map, string_bytes, true};
ghost use Rattle.fax_ask.specs.Ask.{IsAsk};
ghost use Rattle.fax_ask.specs.declared.ask.Ask.TheVariants.{Step};
ghost use Rattle.fax_ask.specs.declared.method.Method.TheVariants.{Post};
ghost use Rattle.fax_journal.specs.Calls.{shown};
ghost use Rattle.fax_journal.specs.Entry.{Entry as Stored, Request as Asked};
ghost use Rattle.fax_journal.specs.Journal.{Answers, Rests, Serves, TablesMean};
ghost use Rattle.fax_client.specs.Answered.{IsReadAs};
ghost use Rattle.fax_client.specs.Course.{Events, Follows, IsAt, IsBefore, Start};
ghost use Rattle.fax_client.specs.Line.{Reply};
ghost use Rattle.fax_client.specs.Posting.{Client, Finishes, IsAnswerIn, IsBegun, IsNew, IsOf, IsStored, Move, Posts, clients, kept_under, returned};
ghost use Rattle.fax_client.specs.Saved.{HasEntry, IsBetween, IsKept, IsLoaded, IsUntouched};

use crate::answered::{Answered, read_answered, read_asked};
use crate::asking::{TRIES, exchange};
use crate::line::Line;
use crate::message::post_message;
use crate::number::{Ticks, is_in_later_window, next_number};
use crate::stop::Stop;
use fax_core::Ask;
use fax_job::{Name, RequestNumber};
use fax_journal::{Entry, Journal, Request};
use sqlite::Alter;
use std::alloc::{AllocError, Global};

/// A request that a client wants answered.
#[derive(Clone, Copy)]
pub struct Posting<'a> {
    /// The client's name, which is its journal's too.
    pub client: &'a str,
    /// The key under which the answer is remembered.
    pub key: Option<&'a str>,
    pub path: &'a str,
    pub body: &'a [u8],
}

/// The body of the queue's reply. What the journal has unanswered is finished first; if that is this request, it is the
/// answer. With a key that has an answer nothing is sent.
///
/// # Errors
///
/// `Refused` by the queue; `Later` if the answer didn't come in time: the request stays in the journal. `Journal`, also if
/// the journal is another client's or a worker's.
pub fn post<S: Alter + Drop, L: Line<Journal<S>>>(
    alloc: Global,
    journal: &mut Journal<S>,
    line: &mut L,
    now: Ticks,
    asked: Posting<'_>,
) -> Result<Vec<u8>, Stop>
    ensures { (entry : Option Stored) (kept : Answers) → Rests (TablesMean entry kept) (shown S.Store journal.old)
        → Posts S.Store L.carries L.pauses entry kept asked.entry.client.now (option_map (λ k. k.now) asked.entry.key) asked.entry.path.now asked.entry.body.now
        line.old line.new journal.old journal.new result }
{
    let entry = load(alloc, journal, asked.client)?;
    let earlier = entry.last;
    let is_begun = is_this(&entry.unanswered, asked);
    let (entry, left) = finish(alloc, journal, line, entry)?;
    let was_refused = is_refused(&left);
    if is_begun {
        give_up_if(alloc, journal, line, now, entry, was_refused)?;
        return returned(left);
    }
    if let Some(answer) = kept_answer(journal, asked.key)? {
        return Ok(answer);
    }
    let entry = begin(alloc, journal, entry, now, asked)?;
    let (entry, answered) = finish(alloc, journal, line, entry)?;
    let wanted = was_refused || is_refused(&answered) || is_in_later_window(entry.last, earlier);
    give_up_if(alloc, journal, line, now, entry, wanted)?;
    returned(answered)
}

/// The answer that the journal keeps under the key, if there are both.
fn kept_answer<S: Alter + Drop>(
    journal: &mut Journal<S>,
    key: Option<&str>,
) -> Result<Option<Vec<u8>>, Stop>
    ensures { (kept : Answers) (e : Stored) (first : Journal S) →
        IsKept (HasEntry kept (IsStored e)) (shown S.Store first) (shown S.Store journal.old)
        → MatchResult result (λ found. IsKept (HasEntry kept (IsStored e)) (shown S.Store first) (shown S.Store journal.new)
        × IfSome found (λ answer. (word : List ℕ) × (option_map (λ k. k.now) key.entry ≡ Some word)
        × (Serves (shown S.Store journal.new) → kept word ≡ Some answer.items)))
        (λ _. IsBetween (HasEntry kept (IsStored e)) (HasEntry kept (IsStored e)) (shown S.Store first) (shown S.Store journal.new)) }
{
    let Some(key) = key else {
        return Ok(None);
    };
    Ok(journal.answer(key)?)
}

/// What is returned for an answer.
fn returned(answered: Option<Answered>) -> Result<Vec<u8>, Stop>
    ensures { IfSome answered (λ a. result ≡ returned a) }
{
    match answered {
        Some(Answered::Accepted(body)) => Ok(body),
        Some(Answered::Refused(refusal)) => Err(Stop::Refused(refusal)),
        None => Err(Stop::NotNow),
    }
}

fn is_refused(answered: &Option<Answered>) -> bool {
    match answered {
        Some(answered) => answered.is_refused(),
        None => false,
    }
}

/// Forgets the answer of a key. No clause speaks of the key: `checks/run journals.keys` tries it.
///
/// # Errors
///
/// `Journal`, also if the journal is another client's.
pub fn forget<S: Alter + Drop>(
    alloc: Global,
    journal: &mut Journal<S>,
    client: &str,
    key: &str,
) -> Result<(), Stop> {
    let _entry = load(alloc, journal, client)?;
    Ok(journal.forget(key)?)
}

// ---- the entry

/// What the journal of this client has.
fn load<S: Alter + Drop>(
    alloc: Global,
    journal: &mut Journal<S>,
    client: &str,
) -> Result<Entry, Stop>
    ensures own { IfOk result (λ e. e.client ≡ client.now) }
    ensures loads { (entry : Option Stored) (kept : Answers) → Rests (TablesMean entry kept) (shown S.Store journal.old)
        → MatchResult result (λ e. IsLoaded entry kept (IsStored e) (shown S.Store journal.old) (shown S.Store journal.new))
        (λ _. IsUntouched entry kept (shown S.Store journal.old) (shown S.Store journal.new)) }
{
    match journal.entry()? {
        Some(entry) => if_own(entry, client),
        None => new_entry(alloc, client),
    }
}

/// The entry, if it is that client's, and no worker's.
fn if_own(entry: Entry, client: &str) -> Result<Entry, Stop>
    ensures same { IfOk result (λ own. entry ≡ own) }
    ensures own { IfOk result (λ own. own.client ≡ client.now) }
{
    if entry.client.as_str() == client && entry.held.is_none() {
        Ok(entry)
    } else {
        Err(Stop::Journal)
    }
}

fn new_entry(alloc: Global, client: &str) -> Result<Entry, Stop>
    ensures new { IfOk result (λ entry. IsNew entry) }
    ensures own { IfOk result (λ entry. entry.client ≡ client.now) }
{
    let Ok(client) = Name::read(alloc, client) else {
        return Err(Stop::NotNow);
    };
    let Some(last) = RequestNumber::new(1) else {
        return Err(Stop::NotNow);
    };
    Ok(Entry {
        client,
        last,
        unanswered: None,
        held: None,
    })
}

/// Makes this the entry of the journal.
fn set<S: Alter + Drop>(journal: &mut Journal<S>, entry: &Entry) -> Result<(), Stop>
    ensures { (kept : Answers) (before : Stored) (first : Journal S) →
        IsKept (HasEntry kept (IsStored before)) (shown S.Store first) (shown S.Store journal.old)
        → MatchResult result (λ _. IsKept (HasEntry kept (IsStored entry.now)) (shown S.Store first) (shown S.Store journal.new))
        (λ _. IsBetween (HasEntry kept (IsStored before)) (HasEntry kept (IsStored entry.now)) (shown S.Store first) (shown S.Store journal.new)) }
{
    Ok(journal.set(entry)?)
}

// ---- a request

/// Whether the unanswered request is this one: the same path and body, under the same key if there is one.
fn is_this(unanswered: &Option<Request>, asked: Posting<'_>) -> bool
    ensures { result ≡ true → (r : Asked) × (unanswered.now ≡ Some r)
        × IsOf (option_map (λ k. k.now) asked.entry.key) asked.entry.path.now asked.entry.body.now r }
{
    match unanswered {
        Some(request) => is_same(request, asked),
        None => false,
    }
}

fn is_same(request: &Request, asked: Posting<'_>) -> bool
    ensures { result ≡ true → IsOf (option_map (λ k. k.now) asked.entry.key) asked.entry.path.now asked.entry.body.now request.now }
{
    is_key(&request.key, asked.key)
        && request.path.as_str() == asked.path
        && request.body.as_slice() == asked.body
}

fn is_key(key: &Option<String>, asked: Option<&str>) -> bool
    ensures { result ≡ true → option_map string_bytes key.now ≡ option_map (λ k. k.now) asked.entry }
{
    match (key, asked) {
        (Some(key), Some(asked)) => key.as_str() == asked,
        (None, None) => true,
        _ => false,
    }
}

/// Makes a request the unanswered one, in the journal too.
fn begin<S: Alter + Drop>(
    alloc: Global,
    journal: &mut Journal<S>,
    entry: Entry,
    now: Ticks,
    asked: Posting<'_>,
) -> Result<Entry, Stop>
    ensures { (kept : Answers) (first : Journal S) →
        IsKept (HasEntry kept (IsStored entry)) (shown S.Store first) (shown S.Store journal.old)
        → MatchResult result (λ begun. (r : Asked) × IsBegun entry r begun
        × IsOf (option_map (λ k. k.now) asked.entry.key) asked.entry.path.now asked.entry.body.now r
        × IsKept (HasEntry kept (IsStored begun)) (shown S.Store first) (shown S.Store journal.new))
        (λ _. (after : Stored) × ((after ≡ entry) ⊎ ((r : Asked) × IsBegun entry r after))
        × IsBetween (HasEntry kept (IsStored entry)) (HasEntry kept (IsStored after)) (shown S.Store first) (shown S.Store journal.new)) }
{
    if !is_free(&entry) {
        return Err(Stop::Later);
    }
    let Some(number) = next_number(entry.last, now) else {
        return Err(Stop::NotNow);
    };
    let request = requested(alloc, number, asked)?;
    let begun = with_request(entry, number, request);
    set(journal, &begun)?;
    Ok(begun)
}

fn is_free(entry: &Entry) -> bool
    ensures { result ≡ true → entry.now.unanswered ≡ None }
{
    entry.unanswered.is_none()
}

/// The entry, in which the request under that number is the unanswered one.
fn with_request(entry: Entry, number: RequestNumber, request: Request) -> Entry
    ensures { result ≡ record entry { last = number; unanswered = Some request } }
{
    Entry {
        client: entry.client,
        last: number,
        unanswered: Some(request),
        held: entry.held,
    }
}

fn requested(
    alloc: Global,
    number: RequestNumber,
    asked: Posting<'_>,
) -> Result<Request, AllocError>
    ensures number { IfOk result (λ r. r.number ≡ number) }
    ensures of { IfOk result (λ r. IsOf (option_map (λ k. k.now) asked.entry.key) asked.entry.path.now asked.entry.body.now r) }
{
    let key = key_of(alloc, asked.key)?;
    let path = String::from_str(alloc, asked.path)?;
    let body = Vec::from_slice(alloc, asked.body)?;
    Ok(Request {
        number,
        path,
        body,
        key,
    })
}

fn key_of(alloc: Global, key: Option<&str>) -> Result<Option<String>, AllocError>
    ensures { IfOk result (λ made. option_map string_bytes made ≡ option_map (λ k. k.now) key.entry) }
{
    match key {
        Some(key) => Ok(Some(String::from_str(alloc, key)?)),
        None => Ok(None),
    }
}

// ---- its answer

/// Sends the unanswered request, if there is one, until it is answered. What is accepted is kept under its key before the
/// journal lets the request go.
fn finish<S: Alter + Drop, L: Line<Journal<S>>>(
    alloc: Global,
    journal: &mut Journal<S>,
    line: &mut L,
    entry: Entry,
) -> Result<(Entry, Option<Answered>), Stop>
    ensures { (kept : Answers) (first : Start (Journal S) L Client) (before : Events (Journal S) Move)
        → IsAt S.Store L.carries L.pauses clients first before line.old (record { entry = entry; answers = kept }) journal.old
        → MatchResult result (λ r. (events : Events (Journal S) Move) × (later : Answers)
        × Follows S.Store L.carries L.pauses clients first before events line.new (record { entry = r.0; answers = later }) journal.new
        × Finishes entry.unanswered events r.1)
        (λ _. IsBefore S.Store L.carries L.pauses clients first line.new journal.new) }
{
    let (entry, request) = let_go(entry);
    let Some(request) = request else {
        return Ok((entry, None));
    };
    let client = entry.client.as_str();
    let answered = ask_until_answered(alloc, journal, line, client, &request, TRIES)?;
    keep(journal, &request, &answered)?;
    set(journal, &entry)?;
    Ok((entry, Some(answered)))
}

/// The entry with nothing unanswered, and the request that was, if there is one.
fn let_go(entry: Entry) -> (Entry, Option<Request>)
    ensures entry { result.0 ≡ record entry { unanswered = None } }
    ensures request { result.1 ≡ entry.unanswered }
{
    let Entry {
        client,
        last,
        unanswered,
        held,
    } = entry;
    let entry = Entry {
        client,
        last,
        unanswered: None,
        held,
    };
    (entry, unanswered)
}

/// Keeps an accepted answer under the request's key, if it has one.
fn keep<S: Alter + Drop>(
    journal: &mut Journal<S>,
    request: &Request,
    answered: &Answered,
) -> Result<(), Stop>
    ensures { (kept : Answers) (e : Stored) (first : Journal S) →
        IsKept (HasEntry kept (IsStored e)) (shown S.Store first) (shown S.Store journal.old)
        → MatchResult result (λ _. IsKept (HasEntry (kept_under request.now.key answered.now kept) (IsStored e)) (shown S.Store first) (shown S.Store journal.new))
        (λ _. IsBetween (HasEntry kept (IsStored e)) (HasEntry (kept_under request.now.key answered.now kept) (IsStored e)) (shown S.Store first) (shown S.Store journal.new)) }
{
    match (&request.key, answered) {
        (Some(key), Answered::Accepted(body)) => {
            Ok(journal.remember(key.as_str(), body.as_slice())?)
        }
        _ => Ok(()),
    }
}

/// The queue's answer. Its request is sent again and again, with the same bytes, until it comes or all tries are done.
fn ask_until_answered<S: Alter + Drop, L: Line<Journal<S>>>(
    alloc: Global,
    journal: &Journal<S>,
    line: &mut L,
    client: &str,
    request: &Request,
    tries: u64,
) -> Result<Answered, Stop>
    ensures { (first : Start (Journal S) L Client) (earlier : Events (Journal S) Move) (c : Client)
        → c.entry.unanswered ≡ Some request.now → c.entry.client ≡ client.now
        → IsAt S.Store L.carries L.pauses clients first earlier line.old c journal.now
        → (events : Events (Journal S) Move) × Follows S.Store L.carries L.pauses clients first earlier events line.new c journal.now
        × IfOk result (λ a. IsAnswerIn events c.entry.client request.now a) }
{
    let path = request.path.as_str();
    let body = request.body.as_slice();
    let message = post_message(alloc, client, request.number, path, body)?;
    let asked = read_asked(alloc, request)?;
    for _ in 0..tries {
        let answer = ask_once(alloc, journal, line, request, &asked, message.as_slice())?;
        if let Some(answered) = answer {
            return Ok(answered);
        }
        if !line.pause() {
            return Err(Stop::Later);
        }
    }
    Err(Stop::Later)
}

/// The answer to a request that is sent once, if it came.
fn ask_once<S: Alter + Drop, L: Line<Journal<S>>>(
    alloc: Global,
    journal: &Journal<S>,
    line: &mut L,
    request: &Request,
    asked: &Option<Ask>,
    message: &[u8],
) -> Result<Option<Answered>, Stop>
    requires { IfSome asked.now (λ ask. IsAsk Post request.now.path request.now.body (Step ask)) }
    ensures { (back : Reply) × L.carries line.old journal.now message.now back line.new
        × IfOk result (λ found. IfSome found (λ answered. IsReadAs request.now back answered)) }
{
    match exchange(journal, line, message)? {
        Some(reply) => Ok(read_answered(alloc, request, asked, reply)?),
        None => Ok(None),
    }
}

// ---- replies are given up

/// Gives up the replies so far, if that is wanted. That takes no more than one try: what isn't answered then the next
/// command finishes.
fn give_up_if<S: Alter + Drop, L: Line<Journal<S>>>(
    alloc: Global,
    journal: &mut Journal<S>,
    line: &mut L,
    now: Ticks,
    entry: Entry,
    wanted: bool,
) -> Result<(), Stop>
    ensures { (kept : Answers) (first : Start (Journal S) L Client) (before : Events (Journal S) Move)
        → IsAt S.Store L.carries L.pauses clients first before line.old (record { entry = entry; answers = kept }) journal.old
        → MatchResult result (λ _. (events : Events (Journal S) Move) × (c : Client)
        × Follows S.Store L.carries L.pauses clients first before events line.new c journal.new)
        (λ _. IsBefore S.Store L.carries L.pauses clients first line.new journal.new) }
{
    if !wanted {
        return Ok(());
    }
    let upto = entry.last.get();
    let body = format!(in alloc; "{{\"upto\":{upto}}}")?;
    let floor = Posting {
        client: "",
        key: None,
        path: "/numbers/floor",
        body: body.as_bytes(),
    };
    let entry = begin(alloc, journal, entry, now, floor)?;
    let (entry, request) = let_go(entry);
    let Some(request) = request else {
        return Ok(());
    };
    match ask_until_answered(alloc, journal, line, entry.client.as_str(), &request, 1) {
        Ok(_) => set(journal, &entry),
        Err(Stop::Later) => Ok(()),
        Err(stop) => Err(stop),
    }
}
