//! The entry in a row.

ghost use Rattle.std.specs.Prelude.{◌≡◌, ◌≤◌, ◌<◌, ◌^◌, ℕ, Bool, List, Option, IfOk, IfSome, option_map, if◌then◌else◌};
ghost use Rattle.std.specs.Str.{IsUtf8};
ghost use Rattle.std.specs.String.{string_bytes};
ghost use Rattle.fax_worker.specs.Worker.{Held as Record, held_of};
ghost use Rattle.fax_tables.specs.Fault.{OrUnavailable};
ghost use Rattle.fax_tables.specs.Row.{HasNumber, HasValues};
ghost use Rattle.fax_worker.specs.Sayable.{IsNumbered};
ghost use Rattle.fax_journal.specs.Entry.{IsHandedOut, IsRequest, IsValid, Request as Asked, Entry as Stored, entry_columns, held_columns, key_columns, request_columns};

use crate::entry::{Entry, Request};
use fax_job::RequestNumber;
use fax_job::limits::MOST_PAGES;
use fax_tables::{StoreFault, call_at, dial_at, name_at, number_at, small_at, text_at, value_at};
use fax_worker::{Handed, Held};
use sqlite::Row;
use std::alloc::Global;

/// Whether a column, which has 0 or 1, has 1.
fn flag_at(row: &Row, at: usize) -> Result<bool, StoreFault>
    ensures { (flag : Bool) → HasNumber row.now at (if flag then 1 else 0)
        → OrUnavailable result (λ found. found ≡ flag) }
{
    match number_at(row, at)? {
        0 => Ok(false),
        1 => Ok(true),
        _ => Err(StoreFault::Strange),
    }
}

/// The request number in a column.
fn request_number_at(row: &Row, at: usize) -> Result<RequestNumber, StoreFault>
    ensures { (n : ℕ) → HasNumber row.now at n → IsNumbered n → OrUnavailable result (λ number. number ≡ n) }
{
    let value: i64 = value_at(row, at)?;
    let number = match u64::try_from(value) {
        Ok(number) => RequestNumber::new(number),
        Err(_) => None,
    };
    number.ok_or(StoreFault::Strange)
}

/// The key under which an answer is to be remembered, by the columns of it.
fn key_in(row: &Row) -> Result<Option<String>, StoreFault>
    ensures { (key : Option (List ℕ)) → HasValues row.now 6 (key_columns key) → IfSome key IsUtf8
        → OrUnavailable result (λ found. option_map string_bytes found ≡ key) }
{
    if !flag_at(row, 6)? {
        return Ok(None);
    }
    Ok(Some(text_at(row, 7)?))
}

/// The request that isn't answered yet, by the columns of it.
fn request_in(row: &Row) -> Result<Option<Request>, StoreFault>
    ensures { (request : Option Asked) → HasValues row.now 2 (request_columns request) → IfSome request IsRequest
        → OrUnavailable result (λ found. found ≡ request) }
{
    if !flag_at(row, 2)? {
        return Ok(None);
    }
    let number = request_number_at(row, 3)?;
    let path = text_at(row, 4)?;
    let body = value_at(row, 5)?;
    let key = key_in(row)?;
    Ok(Some(Request {
        number,
        path,
        body,
        key,
    }))
}

/// The grant as a queue handed it out, by the columns of it.
fn handed_in(alloc: Global, row: &Row) -> Result<Handed, StoreFault>
    ensures { (held : Record) → HasValues row.now 8 (held_columns (Some held)) → IsHandedOut held
        → OrUnavailable result (λ found. held_of found held.call held.pages ≡ held) }
{
    let grant = number_at(row, 9)?;
    let job = number_at(row, 10)?;
    let number = dial_at(alloc, row, 11)?;
    let from = small_at(row, 12)?;
    let to = small_at(row, 13)?;
    let handed = Handed::new(
        u64::from(grant),
        u64::from(job),
        number,
        u64::from(from),
        u64::from(to),
    );
    handed.ok_or(StoreFault::Strange)
}

/// The grant that is held, by the columns of it.
fn held_in(alloc: Global, row: &Row) -> Result<Option<Held>, StoreFault>
    ensures { (held : Option Record) → HasValues row.now 8 (held_columns held) → IfSome held IsHandedOut
        → OrUnavailable result (λ found. found ≡ held) }
{
    if !flag_at(row, 8)? {
        return Ok(None);
    }
    let handed = handed_in(alloc, row)?;
    let call = call_at(row, 14)?;
    let pages = small_at(row, 15)?;
    if pages > MOST_PAGES {
        return Err(StoreFault::Strange);
    }
    Ok(Some(Held::new(handed, call, pages)))
}

/// The entry in a row of all its columns.
pub(crate) fn entry_in(alloc: Global, row: &Row) -> Result<Entry, StoreFault>
    ensures { (entry : Stored) → row.now ≡ entry_columns entry → IsValid entry
        → OrUnavailable result (λ found. found ≡ entry) }
{
    let client = name_at(alloc, row, 0)?;
    let last = request_number_at(row, 1)?;
    let unanswered = request_in(row)?;
    let held = held_in(alloc, row)?;
    Ok(Entry {
        client,
        last,
        unanswered,
        held,
    })
}
