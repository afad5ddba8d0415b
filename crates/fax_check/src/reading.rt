//! How rows are read.

ghost use Rattle.std.specs.Prelude.{◌≡◌};
ghost use Rattle.sqlite.specs.Held.{state};
ghost use Rattle.sqlite.specs.Values.{bound};
ghost use Rattle.sqlite.specs.State.{Shown};
ghost use Rattle.fax_check.specs.Reading.{Tells, known_of};
ghost use Rattle.fax_store.specs.Store.{IsQueryText};

use fax_tables::StoreFault;
use sqlite::types::ValueRef;
use sqlite::{Alter, Connection, Row};

/// Runs a query, and gives the rows that it shows.
pub(crate) fn show<S: Alter>(
    conn: &mut Connection<S>,
    sql: &str,
    params: &[ValueRef<'_>],
) -> Result<Vec<Row>, StoreFault>
    requires { IsQueryText sql.now }
    ensures { Tells (state S.Store conn.old) (state S.Store conn.new) result (λ _ rows. Shown sql.now (bound params.now)
        (state S.Store conn.old) (state S.Store conn.new) rows.items) }
{
    let rows = conn.query_all(sql, params)?;
    Ok(rows)
}

/// The record that was read of a row, or none where the row is strange.
pub(crate) fn known<T>(read: Result<T, StoreFault>) -> Result<Option<T>, StoreFault>
    ensures { result ≡ known_of read }
{
    match read {
        Ok(record) => Ok(Some(record)),
        Err(StoreFault::Strange) => Ok(None),
        Err(StoreFault::Unavailable) => Err(StoreFault::Unavailable),
    }
}
