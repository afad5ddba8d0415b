//! The columns of an entry, as they are written.

ghost use Rattle.std.specs.Prelude.{◌≡◌, ◌↔◌, IfSome, IsTrue};
ghost use Rattle.std.specs.Str.{IsUtf8};
ghost use Rattle.std.specs.String.{string_bytes};
ghost use Rattle.fax_journal.specs.Entry.{IsHandedOut};

use crate::entry::Request;
use fax_job::limits::{LAST_GRANT, LAST_JOB, MOST_PAGES};
use fax_tables::{call_number, number_value};
use fax_worker::Held;

/// Whether there is a key, and the key.
#[derive(Clone, Copy)]
pub(crate) struct KeyColumns<'e> {
    pub(crate) keyed: u32,
    pub(crate) key: &'e str,
}

/// Whether there is a request, and the request.
#[derive(Clone, Copy)]
pub(crate) struct RequestColumns<'e> {
    pub(crate) unanswered: u32,
    pub(crate) number: i64,
    pub(crate) path: &'e str,
    pub(crate) body: &'e [u8],
    pub(crate) key: KeyColumns<'e>,
}

/// Whether there is a grant, and the grant.
#[derive(Clone, Copy)]
pub(crate) struct HeldColumns<'e> {
    pub(crate) holds: u32,
    pub(crate) grant: u32,
    pub(crate) job: u32,
    pub(crate) dial: &'e str,
    pub(crate) first_page: u32,
    pub(crate) last_page: u32,
    pub(crate) call: u32,
    pub(crate) pages: u32,
}

const NO_KEY: KeyColumns<'static> = KeyColumns { keyed: 0, key: "" };

impl<'e> KeyColumns<'e> {
    ghost use Rattle.std.specs.Prelude.{option_map};
    ghost use Rattle.fax_journal.specs.Entry.{key_columns};
    ghost use Rattle.fax_journal.specs.Columns.{key_row};

    fn of(key: &'e Option<String>) -> KeyColumns<'e>
        ensures columns { key_row result ≡ key_columns (option_map string_bytes key.now) }
        ensures utf8 { IfSome (option_map string_bytes key.now) IsUtf8 }
    {
        match key {
            None => NO_KEY,
            Some(key) => KeyColumns {
                keyed: 1,
                key: key.as_str(),
            },
        }
    }
}

impl<'e> RequestColumns<'e> {
    ghost use Rattle.fax_journal.specs.Entry.{Request as Asked, IsRequest, request_columns};
    ghost use Rattle.fax_journal.specs.Columns.{request_row};

    /// The columns of the request that isn't answered yet.
    pub(crate) fn of(request: &'e Option<Request>) -> RequestColumns<'e>
        ensures columns { request_row result ≡ request_columns request.now }
        ensures valid { IfSome request.now IsRequest }
    {
        match request {
            None => RequestColumns {
                unanswered: 0,
                number: 0,
                path: "",
                body: &[],
                key: NO_KEY,
            },
            Some(request) => RequestColumns {
                unanswered: 1,
                number: number_value(request.number),
                path: request.path.as_str(),
                body: request.body.as_slice(),
                key: KeyColumns::of(&request.key),
            },
        }
    }
}

/// Whether a grant is as a queue hands it out, and no more pages of it are reported than a job can have.
fn is_handed_out(held: &Held) -> bool
    ensures { IsTrue result ↔ IsHandedOut held.now }
{
    // Its number is in canonical form.
    let _canonical = held.number();
    1 <= held.grant()
        && held.grant() <= LAST_GRANT
        && 1 <= held.job()
        && held.job() <= LAST_JOB
        && 1 <= held.first_page()
        && held.first_page() <= held.last_page()
        && held.last_page() <= MOST_PAGES
        && held.pages() <= MOST_PAGES
}

/// Whether a grant, if there is one, can be stored.
pub(crate) fn can_be_stored(held: &Option<Held>) -> bool
    ensures { IsTrue result ↔ IfSome held.now IsHandedOut }
{
    match held {
        None => true,
        Some(held) => is_handed_out(held),
    }
}

impl<'e> HeldColumns<'e> {
    ghost use Rattle.fax_journal.specs.Entry.{held_columns};
    ghost use Rattle.fax_journal.specs.Columns.{held_row};

    /// The columns of the grant that is held.
    pub(crate) fn of(held: &'e Option<Held>) -> HeldColumns<'e>
        ensures { held_row result ≡ held_columns held.now }
    {
        match held {
            None => HeldColumns {
                holds: 0,
                grant: 0,
                job: 0,
                dial: "",
                first_page: 0,
                last_page: 0,
                call: 0,
                pages: 0,
            },
            Some(held) => HeldColumns {
                holds: 1,
                grant: held.grant(),
                job: held.job(),
                dial: held.number(),
                first_page: u32::from(held.first_page()),
                last_page: u32::from(held.last_page()),
                call: call_number(held.call()),
                pages: u32::from(held.pages()),
            },
        }
    }
}
