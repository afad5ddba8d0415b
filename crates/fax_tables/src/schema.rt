//! The nine tables and their indexes.

ghost use Rattle.std.specs.Prelude.{[], ◌∷◌};
ghost use Rattle.sqlite_schema.specs.declared.schema.Schema.{Schema};
ghost use Rattle.fax_core.specs.Ledger.{empty_ledger};
ghost use Rattle.fax_core.specs.Queue.{empty_queue};
ghost use Rattle.fax_schema.specs.Schema.{no_tables, our_tables};
ghost use Rattle.fax_tables.specs.Making.{Alters, Always, IsBefore, IsOn};
ghost use Rattle.fax_tables.specs.Tables.{ComesTo, HasCoreTables, HasEmptyTables, HasNewCalls, TablesMean};

use fax_schema::statements::{CREATE_CALLS, INSERT_META};
use fax_schema::{Step, UPGRADES, Way};
use sqlite::{Alter, Connection, Error};

/// Makes the nine tables and their indexes in a database without any, with no rows but the one of meta. Inside a
/// transaction nothing is committed.
pub fn create_tables<S: Alter>(conn: &mut Connection<S>) -> Result<(), Error>
    ensures { Alters S.Store (HasEmptyTables no_tables) (HasEmptyTables no_tables)
        (λ old new. TablesMean new.now empty_queue empty_ledger) conn.old conn.new result }
{
    let all = Way {
        loses: &[],
        gains: &UPGRADES,
    };
    renew_tables(conn, all)?;
    fill_meta(conn)
}

/// Makes what the tables lack of those of a store, by the steps of their way, and `calls` anew, with no rows. The rows of
/// the others stay as they are, and inside a transaction nothing is committed.
pub fn renew_tables<S: Alter>(conn: &mut Connection<S>, way: Way) -> Result<(), Error>
    ensures { Alters S.Store (IsOn way) (IsOn way)
        (λ old new. HasNewCalls old.now new.now) conn.old conn.new result }
{
    take_steps(conn, way.loses)?;
    take_steps(conn, way.gains)?;
    create_calls(conn)
}

/// Takes these steps, one behind the other, wherever they lead.
fn take_steps<S: Alter>(conn: &mut Connection<S>, mut steps: &[Step]) -> Result<(), Error>
    ensures { (to : Schema) → Alters S.Store (IsBefore steps.entry.now to) (IsBefore steps.entry.now to)
        (λ old new. ComesTo to old.now new.now) conn.old conn.new result }
{
    while let [step, rest @ ..] = steps {
        take_step(conn, *step)?;
        steps = rest;
    }
    Ok(())
}

/// Takes a step, by its texts.
fn take_step<S: Alter>(conn: &mut Connection<S>, step: Step) -> Result<(), Error>
    ensures { (to : Schema) → Alters S.Store (IsBefore (step ∷ []) to) (IsBefore (step ∷ []) to)
        (λ old new. ComesTo to old.now new.now) conn.old conn.new result }
{
    let mut texts = step.texts();
    while let [text, rest @ ..] = texts {
        conn.execute(text, &[])?;
        texts = rest;
    }
    Ok(())
}

/// Makes the table of calls, with no rows.
fn create_calls<S: Alter>(conn: &mut Connection<S>) -> Result<(), Error>
    ensures { Alters S.Store HasCoreTables HasCoreTables
        (λ old new. HasNewCalls old.now new.now) conn.old conn.new result }
{
    conn.execute(CREATE_CALLS, &[])?;
    Ok(())
}

/// Puts in the row of the clock and next numbers, as an empty store has it.
fn fill_meta<S: Alter>(conn: &mut Connection<S>) -> Result<(), Error>
    ensures { Alters S.Store (HasEmptyTables our_tables) Always
        (λ old new. TablesMean new.now empty_queue empty_ledger) conn.old conn.new result }
{
    conn.execute(INSERT_META, &[])?;
    Ok(())
}
