//! What the tables say of a request before anything is decided: its reply, where that is known, or that its number is new.

ghost use Rattle.std.specs.Prelude.{◌≡◌, if◌then◌else◌};
ghost use Rattle.std.specs.Str.{bytes_eq};
ghost use Rattle.fax_ask.specs.Response.{kept_response, refused_response};
ghost use Rattle.fax_core.specs.Ledger.{IsKeptStatus};
ghost use Rattle.fax_core.specs.Reply.{NoKeys};
ghost use Rattle.fax_decide.specs.Settings.{settings_of};
ghost use Rattle.fax_once.specs.Looking.{LooksAt, LooksFor, LooksForReply, Sees};
ghost use Rattle.fax_run.specs.Arrival.{said_of};

use crate::arrival::says;
use crate::refusing::refuse_ask;
use crate::sender::Sender;
use fax_ask::{Ask, Reply, Routes, View};
use fax_core::Ask as Step;
use fax_decide::{Fault, Office, show};
use fax_job::{Moment, Refusal};
use fax_run::Arrival;
use fax_store::{Kept, Store};
use sqlite::Alter;
use std::alloc::Global;

/// A step under a number that is above the floor of its client and has no kept reply.
#[derive(Drop)]
pub(crate) struct NewRequest<'a> {
    pub(crate) sender: Sender<'a>,
    pub(crate) ask: Step,
    /// Through which number the client has given up its replies.
    pub(crate) floor: u64,
}

/// What the tables say of a request.
#[derive(Drop)]
pub(crate) enum Looked<'a> {
    /// This is its reply, and nothing changes.
    Known(Reply),
    New(NewRequest<'a>),
}

/// Looks at the tables for an arrival, as they stand now: within a transaction or not.
///
/// # Errors
///
/// As those of [`crate::Queue::answer`].
pub(crate) fn look_up<'a, S: Alter>(
    store: &mut Store<S>,
    office: &Office,
    routes: &Routes,
    alloc: Global,
    arrival: &Arrival<'a>,
) -> Result<Looked<'a>, Fault>
    ensures { LooksAt S.Store store.old store.new result (settings_of office.now.setup office.now.controls) arrival.now }
{
    match routes.read_ask(alloc, arrival.method, arrival.path, arrival.body) {
        Ok(ask) => look_for(store, office, alloc, arrival, ask),
        Err(refusal) => Ok(Looked::Known(refuse_ask(alloc, arrival, refusal)?)),
    }
}

/// Looks for what an arrival asks for.
fn look_for<'a, S: Alter>(
    store: &mut Store<S>,
    office: &Office,
    alloc: Global,
    arrival: &Arrival<'a>,
    ask: Ask,
) -> Result<Looked<'a>, Fault>
    ensures { LooksFor S.Store store.old store.new result (settings_of office.now.setup office.now.controls) arrival.now ask }
{
    match ask {
        Ask::View(view) => {
            let reply = see(store, office, alloc, view, arrival.moment)?;
            Ok(Looked::Known(reply))
        }
        Ask::Step(step) => match Sender::of(arrival) {
            Ok(sender) => look_for_reply(store, arrival, &sender, step),
            Err(refusal) => Ok(Looked::Known(Reply::refused(refusal))),
        },
    }
}

/// Shows what a client asks to see, at the later of that moment and the clock.
fn see<S: Alter>(
    store: &mut Store<S>,
    office: &Office,
    alloc: Global,
    view: View,
    moment: Moment,
) -> Result<Reply, Fault>
    ensures { Sees S.Store store.old store.new result (settings_of office.now.setup office.now.controls) view moment }
{
    let meta = store.meta()?;
    let t = meta.clock.later(moment);
    show(store, office, alloc, view, t)
}

/// Looks for a reply that was kept to a request. A number through the floor of its client is refused.
fn look_for_reply<'a, S: Alter>(
    store: &mut Store<S>,
    arrival: &Arrival<'a>,
    sender: &Sender<'a>,
    ask: Step,
) -> Result<Looked<'a>, Fault>
    ensures { LooksForReply S.Store store.old store.new result arrival.now sender.now ask }
{
    let floor = store.floor(sender.client)?;
    if sender.number.get() <= floor {
        return Ok(Looked::Known(Reply::refused(Refusal::GivenUp)));
    }
    match store.kept(sender.client, sender.number)? {
        Some(kept) => Ok(Looked::Known(repeat(arrival, kept))),
        None => Ok(Looked::New(NewRequest {
            sender: Sender {
                client: sender.client,
                number: sender.number,
            },
            ask,
            floor,
        })),
    }
}

/// The reply to a request whose number has a kept reply: that reply where the client says the same bytes, and a
/// refusal else. It takes no memory.
fn repeat(arrival: &Arrival<'_>, kept: Kept) -> Reply
    requires { IsKeptStatus kept.status }
    ensures { result ≡ (if bytes_eq kept.said.items
        (said_of arrival.now) then kept_response kept.status kept.body.items else refused_response Refusal.NumberReused NoKeys) }
{
    if says(arrival, &kept.said) {
        Reply::kept(kept.status, kept.body)
    } else {
        Reply::refused(Refusal::NumberReused)
    }
}
