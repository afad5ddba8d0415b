//! What a journal has.

use fax_job::{Name, RequestNumber};
use fax_worker::Held;
use std::marker::Model;

/// A request that isn't answered yet, as it is sent each time.
#[derive(Drop)]
pub struct Request {
    pub number: RequestNumber,
    pub path: String,
    pub body: Vec<u8>,
    /// The key under which the answer is to be remembered.
    pub key: Option<String>,
}

impl Model for Request {
    ghost use Rattle.std.specs.Prelude.{option_map};
    ghost use Rattle.std.specs.String.{string_bytes};
    ghost use Rattle.fax_journal.specs.Entry.{Request as Record};

    ghost Value = { Record };

    ghost view = { λ r. record { number = r.number; path = string_bytes r.path; body = r.body.items; key = option_map string_bytes r.key } };
}

/// What the journal of a client has.
#[derive(Drop)]
pub struct Entry {
    pub client: Name,
    /// The last request number that the client used.
    pub last: RequestNumber,
    pub unanswered: Option<Request>,
    /// The grant that a worker holds.
    pub held: Option<Held>,
}

impl Model for Entry {
    ghost use Rattle.fax_journal.specs.Entry.{Entry as Record};

    ghost Value = { Record };

    ghost view = { λ e. record { client = e.client; last = e.last; unanswered = e.unanswered; held = e.held } };
}
