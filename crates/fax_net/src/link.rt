//! What a server keeps of one connection: what it said and isn't answered yet, and what is still to be written to it.
ghost use Rattle.std.specs.Prelude.{◌≡◌, ◌≤◌, ◌<◌, ◌⊎◌, IsTrue, ◌↔◌, IfOk, IfSome, length};
ghost use Rattle.fax_net.specs.History.{asks_for_listing};
ghost use Rattle.fax_net.specs.Joining.{HasReply, IsDuePost};
ghost use Rattle.fax_net.specs.Link.{AwaitsNext, HasEnded, IsUnused, Owes, awaits, is_done, is_due, is_held, is_owing, untaken_by};

use crate::pending::Pending;
use fax_ask::Reply;
use fax_http::{Broken, Buffer, Cut, Message, Outgoing, post_at};
use std::alloc::{AllocError, Global};

/// The most messages of one connection.
const MESSAGE_LIMIT: u32 = 1_000;

/// What a request for a listing begins with.
const LISTING: &[u8] = b"GET /jobs ";

/// How far a conversation has come.
#[derive(Clone, Copy, Debug, PartialEq, Eq)]
pub(crate) enum Stage {
    /// There is none.
    Free,
    /// It goes on.
    Open,
    /// The peer says no more.
    Ended,
    /// Nothing more is answered.
    Ending,
}

/// A place for a connection.
#[derive(Drop)]
pub(crate) struct Link {
    pub(crate) stage: Stage,
    /// What was said and isn't answered yet.
    pub(crate) said: Buffer,
    /// What is still to be written.
    pub(crate) pending: Pending,
    /// How long the reply is of which that is the rest, in bytes.
    pub(crate) size: u128,
    /// How many messages were answered.
    pub(crate) messages: u32,
    /// Whether it is known that no message is there to its end.
    pub(crate) is_awaited: bool,
}

impl Link {
    /// A place where nobody is yet. All memory is taken now.
    pub(crate) fn new(alloc: Global) -> Result<Link, AllocError>
        ensures { IfOk result (λ link. link.stage ≡ Stage.Free) }
    {
        Ok(Link {
            stage: Stage::Free,
            said: Buffer::new(alloc)?,
            pending: Pending::nothing(),
            size: 0,
            messages: 0,
            is_awaited: false,
        })
    }

    /// Forgets the connection that was here; another one may have come.
    pub(crate) fn clear(&mut self, stage: Stage)
        ensures { IsUnused self.new stage }
    {
        self.stage = stage;
        self.said.clear();
        self.pending = Pending::nothing();
        self.messages = 0;
        self.is_awaited = false;
    }

    /// Has a reply written, behind which the conversation goes on or ends.
    pub(crate) fn owe(&mut self, reply: Outgoing, stage: Stage)
        ensures { Owes self.old self.new reply stage }
    {
        self.pending = Pending::all_of(reply);
        self.size = self.pending.len();
        self.stage = stage;
    }

    /// Refuses what is left where the peer has ended within a message. Gives whether that was so.
    pub(crate) fn end_input(&mut self) -> bool
        ensures { HasEnded self.old self.new result }
    {
        if self.stage != Stage::Ended {
            return false;
        }
        if self.said.bytes().is_empty() {
            self.stage = Stage::Ending;
            return false;
        }
        self.owe(Outgoing::refusal(Broken::BadHttp), Stage::Ending);
        true
    }

    /// Awaits the next message where nothing of it was said.
    pub(crate) fn await_next(&mut self)
        ensures { AwaitsNext self.old self.new }
    {
        if self.is_due() && self.said.bytes().is_empty() {
            self.is_awaited = true;
        }
    }

    /// The POST that is its next message, where that is due and there to its end.
    pub(crate) fn due_post(&self) -> Option<(Message<'_>, Cut)>
        ensures { IfSome result (λ it. IsDuePost self.now it.0 it.1) }
    {
        if !self.is_due() || asks_for_listing(self.said.bytes()) {
            return None;
        }
        post_at(self.said.bytes())
    }

    /// Has the reply to its next message written, which is cut off so.
    pub(crate) fn take_reply(&mut self, cut: Cut, reply: Reply)
        requires { cut.used ≤ length self.old.said }
        ensures { HasReply self.old self.new cut reply }
    {
        cut.take_from(&mut self.said);
        if cut.is_last() {
            self.owe(cut.spell(reply), Stage::Ending);
        } else {
            self.messages = self.messages.saturating_add(1);
            self.owe(cut.spell(reply), stage_behind(self.messages));
        }
    }

    pub(crate) fn is_free(&self) -> bool
        ensures { IsTrue result ↔ self.now.stage ≡ Stage.Free }
    {
        self.stage == Stage::Free
    }

    /// Whether its next message is to be looked for.
    pub(crate) fn is_due(&self) -> bool
        ensures { result ≡ is_due self.now }
    {
        self.stage == Stage::Open && self.pending.is_empty() && !self.is_awaited
    }

    /// Whether its next message asks for a listing and there is no room for that.
    pub(crate) fn is_held(&self, is_full: bool) -> bool
        ensures { result ≡ is_held is_full self.now }
    {
        is_full && self.is_due() && asks_for_listing(self.said.bytes())
    }

    /// How long the reply is of which something is to be written to it, in bytes.
    pub(crate) fn untaken(&self) -> u128
        ensures { result ≡ untaken_by self.now }
    {
        if self.is_owing() { self.size } else { 0 }
    }

    /// Whether more of its next message is to be read.
    pub(crate) fn awaits(&self) -> bool
        ensures { result ≡ awaits self.now }
    {
        self.stage == Stage::Open && self.pending.is_empty() && self.is_awaited
    }

    /// Whether something is to be written.
    pub(crate) fn is_owing(&self) -> bool
        ensures { result ≡ is_owing self.now }
    {
        self.stage != Stage::Free && !self.pending.is_empty()
    }

    /// Whether all is said and written.
    pub(crate) fn is_done(&self) -> bool
        ensures { result ≡ is_done self.now }
    {
        self.stage == Stage::Ending && self.pending.is_empty()
    }
}

/// Whether a message that begins so asks for a listing.
fn asks_for_listing(said: &[u8]) -> bool
    ensures { result ≡ asks_for_listing said.now }
{
    let mut rest = said;
    while let [b'\r' | b'\n', after @ ..] = rest {
        rest = after;
    }
    let front = &rest[..rest.len().min(LISTING.len())];
    front == LISTING
}

/// How a conversation goes on behind so many messages.
pub(crate) fn stage_behind(messages: u32) -> Stage
    ensures { ((result ≡ Stage.Open) × (messages < 1000)) ⊎ ((result ≡ Stage.Ending) × (1000 ≤ messages)) }
{
    if messages < MESSAGE_LIMIT {
        Stage::Open
    } else {
        Stage::Ending
    }
}
