//! Whether the rows of a database are those of a consistent queue.

ghost use Rattle.std.specs.Prelude.{◌≡◌};
ghost use Rattle.std.specs.Bool.{Decides};
ghost use Rattle.sqlite.specs.Held.{state};
ghost use Rattle.fax_check.specs.Check.{AreCalled, AreNumbers, AreTablesChecked, HasHolders, HasNumbers, IsCalled, IsChecked, IsOfVersion, IsTableChecked, flaw_in};
ghost use Rattle.fax_check.specs.Reading.{Looks, Tells};
ghost use Rattle.fax_tables.specs.Row.{HasNumber};
ghost use Rattle.sqlite.specs.Order.{Row as Values};
ghost use Rattle.sqlite_rules.specs.Lists.{Has};

use crate::holders::{Holder, Holders, read_holders};
use crate::pass::pass;
use crate::reading::{known, show};
use crate::rows::{dialing, has_count};
use crate::tables::{Flaw, PASSED, Query, Table};
use fax_schema::statements::{SELECT_META, SELECT_OPEN, SELECT_VERSION};
use fax_tables::{Meta, StoreFault, is_version};
use sqlite::{Alter, Connection, Row, params};
use std::alloc::Global;

/// The first row that keeps the rows of a database from being those of a consistent queue with its kept replies: a sound
/// one, where each grant's job is there and no submission or end is later than the clock. None where they are such. Each
/// table is read once, a row at a time, and nothing is written. The memory that it takes grows with the modems that hold
/// grants, not with the rows.
///
/// The database has the tables of a queue, as [`fax_store::Store::adopt`] leaves them.
///
/// # Errors
///
/// `Unavailable`.
pub fn check<S: Alter>(alloc: Global, conn: &mut Connection<S>) -> Result<Option<Flaw>, StoreFault>
    ensures { Tells (state S.Store conn.old) (state S.Store conn.new) result IsChecked }
{
    match numbers(conn)? {
        Some(meta) => check_holds(alloc, conn, &meta),
        None => Ok(Some(Flaw {
            table: Table::Meta,
            row: Some(1),
        })),
    }
}

/// The clock and the next numbers, or none where meta isn't as it has to be.
fn numbers<S: Alter>(conn: &mut Connection<S>) -> Result<Option<Meta>, StoreFault>
    ensures { Tells (state S.Store conn.old) (state S.Store conn.new) result AreNumbers }
{
    if !has_version(conn)? {
        return Ok(None);
    }
    read_numbers(conn)
}

/// Whether meta has one row, of the third version.
fn has_version<S: Alter>(conn: &mut Connection<S>) -> Result<bool, StoreFault>
    ensures { Tells (state S.Store conn.old) (state S.Store conn.new) result (λ db right. Decides right
        (IsOfVersion db)) }
{
    let rows = show(conn, SELECT_VERSION, &[])?;
    Ok(is_version(rows.as_slice(), 3))
}

/// The clock and the next numbers of the row of meta that is numbered 1.
fn read_numbers<S: Alter>(conn: &mut Connection<S>) -> Result<Option<Meta>, StoreFault>
    ensures { Tells (state S.Store conn.old) (state S.Store conn.new) result (λ db found. IsOfVersion db
        → AreNumbers db found) }
{
    let mut rows = show(conn, SELECT_META, &[])?;
    match rows.pop() {
        Some(row) => known(Meta::in_row(&row)),
        None => Ok(None),
    }
}

/// Checks the rows of holds, and then the others.
fn check_holds<S: Alter>(
    alloc: Global,
    conn: &mut Connection<S>,
    meta: &Meta,
) -> Result<Option<Flaw>, StoreFault>
    ensures { Tells (state S.Store conn.old) (state S.Store conn.new) result (λ db found. HasNumbers db meta.now
        → IsChecked db found) }
{
    match read_holders(alloc, conn)? {
        Holders::Right(held) => check_rows(alloc, conn, meta, held.as_slice()),
        Holders::Wrong(row) => Ok(Some(Flaw {
            table: Table::Holds,
            row: Some(row),
        })),
    }
}

/// Checks the rows of the other tables.
fn check_rows<S: Alter>(
    alloc: Global,
    conn: &mut Connection<S>,
    meta: &Meta,
    held: &[Holder],
) -> Result<Option<Flaw>, StoreFault>
    ensures { Looks S.Store conn.old conn.new result (λ db found. HasNumbers db meta.now → HasHolders db held.now
        → IsChecked db found) }
{
    if let Some(flaw) = check_tables(alloc, conn, meta, held)? {
        return Ok(Some(flaw));
    }
    if is_called(conn, held)? {
        return Ok(None);
    }
    Ok(Some(Flaw {
        table: Table::Calls,
        row: None,
    }))
}

/// Checks the tables whose rows are read one at a time.
fn check_tables<S: Alter>(
    alloc: Global,
    conn: &mut Connection<S>,
    meta: &Meta,
    held: &[Holder],
) -> Result<Option<Flaw>, StoreFault>
    ensures { Looks S.Store conn.old conn.new result (λ db found. AreTablesChecked meta.now held.now db found) }
{
    for query in &PASSED {
        if let Some(flaw) = check_table(alloc, conn, *query, meta, held)? {
            return Ok(Some(flaw));
        }
    }
    Ok(None)
}

/// Checks the rows of a query.
fn check_table<S: Alter>(
    alloc: Global,
    conn: &mut Connection<S>,
    query: Query,
    meta: &Meta,
    held: &[Holder],
) -> Result<Option<Flaw>, StoreFault>
    ensures { Tells (state S.Store conn.old) (state S.Store conn.new) result (λ db found. IsTableChecked meta.now held.now
        query db found) }
{
    let found = pass(alloc, conn, query, meta, held)?;
    Ok(flaw_in(query, found))
}

/// The flaw of the table that a query checks, where a pass found this row.
fn flaw_in(query: Query, found: Option<i64>) -> Option<Flaw>
    ensures { result ≡ flaw_in query found }
{
    match found {
        Some(row) => Some(Flaw {
            table: query.table(),
            row: Some(row),
        }),
        None => None,
    }
}

/// Whether each number that is dialed is counted.
fn is_called<S: Alter>(conn: &mut Connection<S>, held: &[Holder]) -> Result<bool, StoreFault>
    ensures { Looks S.Store conn.old conn.new result (λ db right. Decides right (AreCalled db held.now)) }
{
    for holder in held {
        if !is_counted(conn, held, holder)? {
            return Ok(false);
        }
    }
    Ok(true)
}

/// Whether the number that one of them dials is counted.
fn is_counted<S: Alter>(
    conn: &mut Connection<S>,
    held: &[Holder],
    holder: &Holder,
) -> Result<bool, StoreFault>
    ensures { Tells (state S.Store conn.old) (state S.Store conn.new) result (λ db right. Decides right
        (IsCalled db held.now holder.now)) }
{
    let rows = show(conn, SELECT_OPEN, params![holder.dial.text()])?;
    let count = dialing(held, holder.dial.text().as_bytes());
    Ok(counts(rows.as_slice(), count))
}

/// Whether one of these rows has this count.
fn counts(rows: &[Row], count: usize) -> bool
    ensures { Decides result ((row : Values) × Has rows.now row × HasNumber row 0 count) }
{
    for row in rows {
        if has_count(row, 0, count) {
            return true;
        }
    }
    false
}
