//! The kept replies in rows.

ghost use Rattle.std.specs.Prelude.{◌≡◌, ◌↔◌, ◌≤◌, ◌<◌, ◌^◌, pos, IfOk, IsTrue};
ghost use Rattle.fax_core.specs.Queue.{Entry};
ghost use Rattle.fax_tables.specs.Fault.{OrUnavailable};
ghost use Rattle.fax_tables.specs.Row.{HasValues};
ghost use Rattle.fax_core.specs.Ledger.{IsKeptStatus, IsLawfulEntry};

use crate::fault::StoreFault;
use crate::row::{small_at, value_at};
use fax_job::RequestNumber;
use sqlite::Row;

/// What was said under a client's request number, and the reply that is kept for it.
#[derive(Drop)]
pub struct Kept {
    /// What the client said: the path, a line feed and the body.
    pub said: Vec<u8>,
    /// The status of the reply, 200 or 201.
    pub status: u16,
    /// The body of the reply.
    pub body: Vec<u8>,
}

/// Whether a reply of this status is kept.
pub fn is_kept_status(status: u16) -> bool
    ensures { IsTrue result ↔ IsKeptStatus status }
{
    status == 200 || status == 201
}

/// The number as the database takes it.
pub fn number_value(number: RequestNumber) -> i64
    ensures value { result ≡ pos number }
    ensures lawful { (1 ≤ number) × (number < 10 ^ 18) }
{
    number.get() as i64
}

impl Kept {
    ghost use Rattle.fax_tables.specs.Kept.{Tells, entry_shown, kept_shown};

    /// The kept reply in a row of what was said, status and body.
    pub fn in_row(row: &Row) -> Result<Kept, StoreFault>
        ensures found { (e : Entry) → row.now ≡ entry_shown e → IsLawfulEntry e
            → OrUnavailable result (λ kept. Tells kept e) }
        ensures stands { IfOk result (λ kept. HasValues row.now 0 (kept_shown kept)) }
        ensures lawful { IfOk result (λ kept. IsKeptStatus kept.status) }
    {
        let said = value_at(row, 0)?;
        let status = small_at(row, 1)?;
        let body = value_at(row, 2)?;
        if is_kept_status(status) {
            Ok(Kept { said, status, body })
        } else {
            Err(StoreFault::Strange)
        }
    }
}
