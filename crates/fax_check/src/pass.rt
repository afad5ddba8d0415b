//! A pass over the rows of a query, one at a time.

ghost use Rattle.std.specs.Prelude.{◌≡◌, ℕ, ℤ, List, [], IfOk};
ghost use Rattle.sqlite.specs.Given.{HasGiven};
ghost use Rattle.sqlite.specs.Held.{state};
ghost use Rattle.sqlite.specs.Order.{Row as Values};
ghost use Rattle.sqlite.specs.State.{HasCleanDisk};
ghost use Rattle.sqlite.specs.declared.types.Value.TheVariants.{Int};
ghost use Rattle.fax_check.specs.Pass.{AreRead, GoesOn, IsPassed, IsStep, Names, rowid_at};
ghost use Rattle.fax_check.specs.Reading.{Tells};
ghost use Rattle.fax_check.specs.Whole.{Shows, text_of};
ghost use Rattle.fax_tables.specs.Row.{HasValue};

use crate::holders::Holder;
use crate::rows::shows;
use crate::tables::Query;
use fax_tables::{Meta, StoreFault};
use sqlite::types::ValueRef;
use sqlite::{Alter, Connection, Row, Rows};
use std::alloc::Global;

/// What the next row of a pass is.
#[derive(Clone, Copy)]
enum Step {
    /// There is none.
    End,
    /// It is as it has to be.
    Right,
    /// It isn't. It has this rowid.
    Wrong(i64),
}

/// Reads each row of a query once, and returns the rowid of the first that isn't as it has to be.
pub(crate) fn pass<S: Alter>(
    alloc: Global,
    conn: &mut Connection<S>,
    query: Query,
    meta: &Meta,
    held: &[Holder],
) -> Result<Option<i64>, StoreFault>
    ensures { Tells (state S.Store conn.old) (state S.Store conn.new) result (λ db found. (rows : List Values)
        × AreRead S.Store (text_of query) db conn.new rows × IsPassed (Shows meta.now held.now query) (Names query) rows found) }
{
    let mut rows = conn.query(query.text(), &[])?;
    count(alloc, &mut rows, query, meta, held)
}

/// Reads the rows that are left of a query.
fn count<S: Alter>(
    alloc: Global,
    rows: &mut Rows<'_, S>,
    query: Query,
    meta: &Meta,
    held: &[Holder],
) -> Result<Option<i64>, StoreFault>
    ensures same_reference { rows.new.conn.ghost_name ≡ rows.old.conn.ghost_name }
    ensures leaves { GoesOn S.Store rows.old.conn.now rows.new.conn.now result }
    ensures counted { (sql : List ℕ) → HasGiven S.Store sql [] rows.old.conn.now [] → HasCleanDisk
        (state S.Store rows.new.conn.now) → IfOk result (λ found. (given : List Values) × AreRead S.Store sql
        (state S.Store rows.new.conn.now).now rows.new.conn.now given × IsPassed (Shows meta.now held.now query)
        (Names query) given found) }
{
    let mut flaw = None;
    for _ in 0..u64::MAX {
        match next_step(alloc, rows, query, meta, held)? {
            Step::End => return Ok(flaw),
            Step::Right => {}
            Step::Wrong(row) => flaw = flaw.or(Some(row)),
        }
    }
    Err(StoreFault::Unavailable)
}

/// Reads the next row.
fn next_step<S: Alter>(
    alloc: Global,
    rows: &mut Rows<'_, S>,
    query: Query,
    meta: &Meta,
    held: &[Holder],
) -> Result<Step, StoreFault>
    ensures same_reference { rows.new.conn.ghost_name ≡ rows.old.conn.ghost_name }
    ensures leaves { GoesOn S.Store rows.old.conn.now rows.new.conn.now result }
    ensures steps { (sql : List ℕ) (given : List Values) → HasGiven S.Store sql [] rows.old.conn.now given
        → HasCleanDisk (state S.Store rows.new.conn.now) → IfOk result (IsStep S.Store (Shows meta.now held.now query)
        (Names query) sql given rows.old.conn.now rows.new.conn.now) }
{
    rows.advance()?;
    match rows.get() {
        None => Ok(Step::End),
        Some(row) if shows(alloc, query, meta, held, row)? => Ok(Step::Right),
        Some(row) => Ok(Step::Wrong(rowid_in(query, row))),
    }
}

/// The rowid that a row is shown with.
fn rowid_in(query: Query, row: &Row) -> i64
    ensures { (n : ℤ) → HasValue row.now (rowid_at query row.now) (Int n) → result ≡ n }
{
    match query {
        Query::Jobs | Query::Grants | Query::Times | Query::Timed | Query::Owned => {
            number_in(row, 0)
        }
        Query::Down | Query::Replies | Query::Floors | Query::Calls => {
            number_in(row, row.column_count().saturating_sub(1))
        }
    }
}

/// The number in a column, or 0.
pub(crate) fn number_in(row: &Row, at: usize) -> i64
    ensures { (n : ℤ) → HasValue row.now at (Int n) → result ≡ n }
{
    match row.get_ref(at) {
        Ok(ValueRef::Int(number)) => number,
        _ => 0,
    }
}
