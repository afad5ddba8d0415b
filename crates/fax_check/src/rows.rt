//! Whether a row shows what it has to.

ghost use Rattle.std.specs.Prelude.{◌≡◌, IfErr, IfOk};
ghost use Rattle.std.specs.Bool.{Decides};
ghost use Rattle.sqlite.specs.declared.types.Value.TheVariants.{Int, Text};
ghost use Rattle.fax_check.specs.Whole.{HasInteger, HasPast, HasRequestNumber, HasStatus, Shows, ShowsCall, ShowsEnd, ShowsFloor, ShowsGrant, ShowsJob, ShowsName, ShowsReply, ShowsTimes, dialing, has_holder, holds, is_held, stands};
ghost use Rattle.fax_tables.specs.Row.{HasNumber, HasValue};

use crate::holders::Holder;
use crate::reading::known;
use crate::tables::Query;
use fax_core::{Grant, fits};
use fax_job::{Job, Phase, is_name};
use fax_tables::{Meta, StoreFault, grant_in, job_in};
use sqlite::Row;
use sqlite::types::ValueRef;
use std::alloc::Global;

/// One above the greatest request number.
const PAST_NUMBERS: i64 = 1_000_000_000_000_000_000;

/// The least phase of a job that is over.
const FIRST_OVER: i64 = 3;

/// How many columns a job is shown in.
const JOB_WIDTH: usize = 20;

/// How many columns a grant is shown in.
const GRANT_WIDTH: usize = 8;

/// Whether a row of a query shows what it has to.
pub(crate) fn shows(
    alloc: Global,
    query: Query,
    meta: &Meta,
    held: &[Holder],
    row: &Row,
) -> Result<bool, StoreFault>
    ensures right { IfOk result (λ right. Decides right (Shows meta.now held.now query row.now)) }
    ensures cause { IfErr result (λ fault. fault ≡ StoreFault.Unavailable) }
{
    match query {
        Query::Jobs => shows_job(alloc, meta, held, row),
        Query::Grants => shows_grant(alloc, meta, held, row),
        Query::Times => Ok(shows_times(meta, row)),
        Query::Timed | Query::Owned => Ok(has_integer(row, 1)),
        Query::Down => Ok(has_name(row, 0)),
        Query::Replies => Ok(shows_reply(row)),
        Query::Floors => Ok(shows_floor(row)),
        Query::Calls => Ok(shows_call(held, row)),
    }
}

fn shows_job(alloc: Global, meta: &Meta, held: &[Holder], row: &Row) -> Result<bool, StoreFault>
    ensures right { IfOk result (λ right. Decides right (ShowsJob meta.now held.now row.now)) }
    ensures cause { IfErr result (λ fault. fault ≡ StoreFault.Unavailable) }
{
    if row.column_count() != JOB_WIDTH {
        return Ok(false);
    }
    match known(job_in(alloc, row))? {
        Some(job) => {
            let fields = job.fields();
            // So its texts are UTF-8.
            let _ = fields.dial.text();
            let _ = fields.modem.as_str();
            let _ = fields.jobtag.as_str();
            let _ = fields.status.text();
            Ok(job.fields().job < meta.next_job && stands(held, &job))
        }
        None => Ok(false),
    }
}

/// A job that is granted has a holder, and any other fits with no open grant.
fn stands(held: &[Holder], job: &Job) -> bool
    ensures { result ≡ stands held.now job.now }
{
    let fields = job.fields();
    if fields.phase == Phase::Granted {
        has_holder(held, fields.job)
    } else {
        fits(job, None)
    }
}

fn has_holder(held: &[Holder], job: u32) -> bool
    ensures { result ≡ has_holder held.now job }
{
    held.iter().any(|holder| holder.job == job)
}

fn shows_grant(alloc: Global, meta: &Meta, held: &[Holder], row: &Row) -> Result<bool, StoreFault>
    ensures right { IfOk result (λ right. Decides right (ShowsGrant meta.now held.now row.now)) }
    ensures cause { IfErr result (λ fault. fault ≡ StoreFault.Unavailable) }
{
    if row.column_count() != GRANT_WIDTH {
        return Ok(false);
    }
    match known(grant_in(alloc, row))? {
        Some(grant) => {
            Ok(grant.number < meta.next_grant && (!grant.is_open || is_held(held, &grant)))
        }
        None => Ok(false),
    }
}

fn is_held(held: &[Holder], grant: &Grant) -> bool
    ensures { result ≡ is_held held.now grant.now }
{
    held.iter().any(|holder| holds(holder, grant))
}

fn holds(holder: &Holder, grant: &Grant) -> bool
    ensures { result ≡ holds grant.now holder.now }
{
    holder.modem.as_str() == grant.modem.as_str()
        && holder.job == grant.job
        && holder.grant == grant.number
}

fn shows_times(meta: &Meta, row: &Row) -> bool
    ensures { Decides result (ShowsTimes meta.now row.now) }
{
    is_past(meta, row, 1) && shows_end(meta, row)
}

/// Whether the row has the moment of an end, which is 0 where the job isn't over, and the phase of the job.
fn shows_end(meta: &Meta, row: &Row) -> bool
    ensures { Decides result (ShowsEnd meta.now row.now) }
{
    match row.get_ref(3) {
        Ok(ValueRef::Int(phase)) if phase >= FIRST_OVER => is_past(meta, row, 2),
        Ok(ValueRef::Int(phase)) => phase >= 0 && has_number(row, 2, 0),
        _ => false,
    }
}

fn shows_reply(row: &Row) -> bool
    ensures { Decides result (ShowsReply row.now) }
{
    has_name(row, 0) && has_request_number(row, 1) && has_status(row, 3)
}

fn shows_floor(row: &Row) -> bool
    ensures { Decides result (ShowsFloor row.now) }
{
    has_name(row, 0) && has_request_number(row, 1)
}

fn shows_call(held: &[Holder], row: &Row) -> bool
    ensures { Decides result (ShowsCall held.now row.now) }
{
    match row.get_ref(0) {
        Ok(ValueRef::Text(dial)) => {
            let count = dialing(held, dial);
            count > 0 && has_count(row, 1, count)
        }
        _ => false,
    }
}

/// How many dial a number.
pub(crate) fn dialing(held: &[Holder], dial: &[u8]) -> usize
    ensures { result ≡ dialing dial.now held.now }
{
    held.iter()
        .filter(|holder| holder.dial.text().as_bytes() == dial)
        .count()
}

/// Whether the row has a name in a column.
fn has_name(row: &Row, at: usize) -> bool
    ensures { Decides result (ShowsName row.now at) }
{
    match row.get_ref(at) {
        Ok(ValueRef::Text(text)) => is_name(text),
        _ => false,
    }
}

/// Whether the row has a moment in a column that isn't later than the clock.
fn is_past(meta: &Meta, row: &Row, at: usize) -> bool
    ensures { Decides result (HasPast meta.now row.now at) }
{
    match row.get_ref(at) {
        Ok(ValueRef::Int(moment)) => 0 <= moment && moment <= i64::from(meta.clock.seconds()),
        _ => false,
    }
}

/// Whether the row has an integer in a column.
fn has_integer(row: &Row, at: usize) -> bool
    ensures { Decides result (HasInteger row.now at) }
{
    match row.get_ref(at) {
        Ok(ValueRef::Int(_)) => true,
        _ => false,
    }
}

/// Whether the row has a request number in a column: from 1 to the greatest.
fn has_request_number(row: &Row, at: usize) -> bool
    ensures { Decides result (HasRequestNumber row.now at) }
{
    match row.get_ref(at) {
        Ok(ValueRef::Int(number)) => 1 <= number && number < PAST_NUMBERS,
        _ => false,
    }
}

/// Whether the row has the status of a kept reply in a column.
fn has_status(row: &Row, at: usize) -> bool
    ensures { Decides result (HasStatus row.now at) }
{
    match row.get_ref(at) {
        Ok(ValueRef::Int(status)) => status == 200 || status == 201,
        _ => false,
    }
}

/// Whether the row has this text in a column.
pub(crate) fn has_text(row: &Row, at: usize, text: &str) -> bool
    ensures { Decides result (HasValue row.now at (Text text.now)) }
{
    match row.get_ref(at) {
        Ok(ValueRef::Text(found)) => found == text.as_bytes(),
        _ => false,
    }
}

/// Whether the row has this count in a column.
pub(crate) fn has_count(row: &Row, at: usize, count: usize) -> bool
    ensures { Decides result (HasNumber row.now at count) }
{
    match row.get_ref(at) {
        Ok(ValueRef::Int(found)) => match usize::try_from(found) {
            Ok(found) => found == count,
            Err(_) => false,
        },
        _ => false,
    }
}

/// Whether the row has this number in a column.
pub(crate) fn has_number(row: &Row, at: usize, number: i64) -> bool
    ensures { Decides result (HasValue row.now at (Int number)) }
{
    match row.get_ref(at) {
        Ok(ValueRef::Int(found)) => found == number,
        _ => false,
    }
}
