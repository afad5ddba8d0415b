//! The modems that hold grants.

ghost use Rattle.std.specs.Bool.{Decides};
ghost use Rattle.sqlite.specs.Held.{state};
ghost use Rattle.fax_check.specs.Holders.{AreHolders, AreHoldersIn, IsGrantFound, IsGrantHeld, IsHolderFound, IsHolderOf, IsJobFound, IsShownBy};
ghost use Rattle.std.specs.Prelude.{◌≡◌, ◌<◌, ◌^◌, ℕ};
ghost use Rattle.fax_tables.specs.Row.{HasNumber};
ghost use Rattle.fax_check.specs.Reading.{Looks, Tells};

use crate::pass::number_in;
use crate::reading::{known, show};
use crate::rows::{has_number, has_text};
use crate::tables::SELECT_ALL_HOLDS;
use fax_core::{Grant, fits};
use fax_job::{Dial, Job, Name};
use fax_schema::statements::{SELECT_GRANT, SELECT_JOB};
use fax_tables::{StoreFault, grant_in, job_in};
use sqlite::types::ValueRef;
use sqlite::{Alter, Connection, Row, params};
use std::alloc::Global;

/// A modem that holds a grant.
#[derive(Drop)]
pub struct Holder {
    /// Its name.
    pub modem: Name,
    /// The number of the job that is granted.
    pub job: u32,
    /// The number of the grant.
    pub grant: u32,
    /// The number that the job dials.
    pub dial: Dial,
}

/// The modems that hold grants, or the rowid of the first row of holds that isn't as it has to be.
#[derive(Drop)]
pub(crate) enum Holders {
    Right(Vec<Holder>),
    Wrong(i64),
}

/// The holders in the rows of holds.
pub(crate) fn read_holders<S: Alter>(
    alloc: Global,
    conn: &mut Connection<S>,
) -> Result<Holders, StoreFault>
    ensures { Tells (state S.Store conn.old) (state S.Store conn.new) result AreHolders }
{
    let rows = show(conn, SELECT_ALL_HOLDS, &[])?;
    holders_in(alloc, conn, rows.as_slice())
}

/// The holders in these rows.
fn holders_in<S: Alter>(
    alloc: Global,
    conn: &mut Connection<S>,
    rows: &[Row],
) -> Result<Holders, StoreFault>
    ensures { Looks S.Store conn.old conn.new result (λ db holders. AreHoldersIn db rows.now holders) }
{
    let mut held = Vec::new(alloc);
    for row in rows {
        match holder_in(alloc, conn, row)? {
            Some(holder) => {
                if held.push(holder).is_err() {
                    return Err(StoreFault::Unavailable);
                }
            }
            None => return Ok(Holders::Wrong(number_in(row, 3))),
        }
    }
    Ok(Holders::Right(held))
}

/// The holder in a row of holds, or none where it isn't as it has to be.
fn holder_in<S: Alter>(
    alloc: Global,
    conn: &mut Connection<S>,
    row: &Row,
) -> Result<Option<Holder>, StoreFault>
    ensures { Tells (state S.Store conn.old) (state S.Store conn.new) result (λ db found. IsHolderFound db row.now
        found) }
{
    match grant_held(alloc, conn, row)? {
        Some(grant) => holder_of(alloc, conn, grant),
        None => Ok(None),
    }
}

/// The open grant that a row of holds has, by its modem and for its job.
fn grant_held<S: Alter>(
    alloc: Global,
    conn: &mut Connection<S>,
    row: &Row,
) -> Result<Option<Grant>, StoreFault>
    ensures { Tells (state S.Store conn.old) (state S.Store conn.new) result (λ db found. IsGrantHeld db row.now
        found) }
{
    match grant_of(alloc, conn, grant_number(row))? {
        Some(grant) if grant.is_open && is_shown(row, &grant) => Ok(Some(grant)),
        _ => Ok(None),
    }
}

/// The number of the grant that a row of holds shows, where it shows one of 32 bits, or else 0, which no grant has.
fn grant_number(row: &Row) -> u32
    ensures { (n : ℕ) → HasNumber row.now 2 n → n < 2 ^ 32 → result ≡ n }
{
    match row.get_ref(2) {
        Ok(ValueRef::Int(number)) => u32::try_from(number).unwrap_or(0),
        _ => 0,
    }
}

/// Whether a row of holds shows the grant's modem, job and number.
fn is_shown(row: &Row, grant: &Grant) -> bool
    ensures { Decides result (IsShownBy row.now grant.now) }
{
    has_text(row, 0, grant.modem.as_str())
        && has_number(row, 1, i64::from(grant.job))
        && has_number(row, 2, i64::from(grant.number))
}

/// The holder of a grant, where its job is there and fits it.
fn holder_of<S: Alter>(
    alloc: Global,
    conn: &mut Connection<S>,
    grant: Grant,
) -> Result<Option<Holder>, StoreFault>
    ensures { Tells (state S.Store conn.old) (state S.Store conn.new) result (λ db found. IsHolderOf db grant found) }
{
    match job_of(alloc, conn, grant.job)? {
        Some(job) if fits(&job, Some(&grant)) => Ok(Some(Holder {
            modem: grant.modem,
            job: grant.job,
            grant: grant.number,
            dial: job.into_fields().dial,
        })),
        _ => Ok(None),
    }
}

/// The grant of a number, where its row is one.
fn grant_of<S: Alter>(
    alloc: Global,
    conn: &mut Connection<S>,
    number: u32,
) -> Result<Option<Grant>, StoreFault>
    ensures { Tells (state S.Store conn.old) (state S.Store conn.new) result (λ db found. IsGrantFound db number
        found) }
{
    let mut rows = show(conn, SELECT_GRANT, params![number])?;
    match rows.pop() {
        Some(row) => known(grant_in(alloc, &row)),
        None => Ok(None),
    }
}

/// The job of a number, where its row is one.
fn job_of<S: Alter>(
    alloc: Global,
    conn: &mut Connection<S>,
    number: u32,
) -> Result<Option<Job>, StoreFault>
    ensures { Tells (state S.Store conn.old) (state S.Store conn.new) result (λ db found. IsJobFound db number
        found) }
{
    let mut rows = show(conn, SELECT_JOB, params![number])?;
    match rows.pop() {
        Some(row) => known(job_in(alloc, &row)),
        None => Ok(None),
    }
}
