//! A database with the tables of a queue.

ghost use Rattle.std.specs.Prelude.{◌≡◌, [], IfOk, IfErr};
ghost use Rattle.std.specs.Borrow.{sem, RestsIfErr};
ghost use Rattle.sqlite.specs.Held.{state};
ghost use Rattle.fax_store.specs.Calls.{Edits, Inserts, IsBegun, Queries, RollsBack, shown};
ghost use Rattle.fax_store.specs.contracts.store.Store.{the_row};
ghost use Rattle.sqlite.specs.Values.{bound};
ghost use Rattle.sqlite.specs.State.{Shown};
ghost use Rattle.sqlite.specs.Steps.{over_memory};
ghost use Rattle.fax_core.specs.Ledger.{empty_ledger};
ghost use Rattle.fax_core.specs.Queue.{empty_queue};
ghost use Rattle.fax_store.specs.Store.{Serves, StaysAsItWas, FindsRow, IsEditText, IsQueryText};
ghost use Rattle.fax_tables.specs.Tables.{IsAtRest};

use crate::work::Work;
use fax_tables::{StoreFault, insert_fault};
use sqlite::types::ValueRef;
use sqlite::{Alter, Connection, MemStore, Row};
use std::alloc::Global;

pub(crate) const BEGIN: &str = "BEGIN";

pub(crate) const COMMIT: &str = "COMMIT";

pub(crate) const ROLLBACK: &str = "ROLLBACK";

/// The queue's tables in a database. Its own calls read what was last committed.
pub struct Store<S: Alter> {
    pub(crate) conn: Connection<S>,
    pub(crate) alloc: Global,
}

// By hand, so that a proof lets it go in one step.
impl<S: Alter + Drop> Drop for Store<S> {
    fn drop(self) {
        let Store { conn: _, alloc: _ } = self;
    }
}

/// A store whose tables are in memory.
pub type MemoryStore = Store<MemStore>;

impl Store<MemStore> {
    /// An empty store: no jobs, no kept replies, the clock at 0 and the next numbers 1.
    ///
    /// # Errors
    ///
    /// `Unavailable` for want of memory.
    pub fn new_in_memory(alloc: Global) -> Result<MemoryStore, StoreFault>
        ensures empty { IfOk result (λ store. IsAtRest (state over_memory store.conn) empty_queue empty_ledger) }
        ensures serves { IfOk result (λ store. Serves (state over_memory store.conn)) }
        ensures cause { IfErr result (λ fault. fault ≡ StoreFault.Unavailable) }
    {
        let conn = Connection::open_in_memory(alloc)?;
        let mut store = Store { conn, alloc };
        store.make_tables()?;
        Ok(store)
    }
}

impl<S: Alter> Store<S> {
    /// Begins a work, whose changes are made together by its commit, or not at all.
    ///
    /// # Errors
    ///
    /// `Unavailable`; the tables are as they were.
    pub fn begin(&mut self) -> Result<Work<'_, S>, StoreFault>
        ensures* refused { sem 𝓛 (RestsIfErr (the_row S.row S.Store) self.entry (λ work. work.store.ghost_name) result
            (λ last. StaysAsItWas (shown S.Store self.old) (shown S.Store last))) }
        ensures same_reference { IfOk result (λ work. work.store.ghost_name ≡ self.entry.ghost_name) }
        ensures work { IfOk result (IsBegun S.Store self.old) }
        ensures cause { IfErr result (λ fault. fault ≡ StoreFault.Unavailable) }
    {
        self.conn.execute(BEGIN, &[])?;
        Ok(Work::new(self))
    }

    /// The database, as the store has it.
    pub fn close(self) -> Connection<S>
        ensures { result ≡ self.conn }
    {
        let Store { conn, alloc: _ } = self;
        conn
    }

    /// Undoes what was not committed.
    pub(crate) fn roll_back(&mut self)
        ensures { RollsBack S.Store self.old self.new }
    {
        if !self.conn.is_autocommit() {
            let _ = self.conn.execute(ROLLBACK, &[]);
        }
    }

    /// Runs a query, and gives the rows that it shows.
    pub(crate) fn show(
        &mut self,
        sql: &str,
        params: &[ValueRef<'_>],
    ) -> Result<Vec<Row>, StoreFault>
        requires { IsQueryText sql.now }
        ensures { Queries S.Store self.old self.new result (λ rows. Shown sql.now (bound params.now)
            (shown S.Store self.old) (shown S.Store self.new) rows.items) }
    {
        let rows = self.conn.query_all(sql, params)?;
        Ok(rows)
    }

    /// Runs a query, and gives one of the rows that it shows, if there is one.
    pub(crate) fn find(
        &mut self,
        sql: &str,
        params: &[ValueRef<'_>],
    ) -> Result<Option<Row>, StoreFault>
        requires { IsQueryText sql.now }
        ensures { Queries S.Store self.old self.new result (FindsRow sql.now (bound params.now)
            (shown S.Store self.old) (shown S.Store self.new)) }
    {
        let mut rows = self.show(sql, params)?;
        Ok(rows.pop())
    }

    /// Puts a row into a table.
    ///
    /// # Errors
    ///
    /// `Unavailable`, or `Strange` where the row breaks a rule of its table, as a key that is taken.
    pub(crate) fn insert(&mut self, sql: &str, params: &[ValueRef<'_>]) -> Result<(), StoreFault>
        requires { IsEditText sql.now }
        ensures { Inserts S.Store self.old self.new result sql.now (bound params.now) }
    {
        match self.conn.execute(sql, params) {
            Ok(_) => Ok(()),
            Err(error) => Err(insert_fault(error)),
        }
    }

    /// Runs a statement that updates or deletes rows, or puts in one whose key is free.
    pub(crate) fn run(&mut self, sql: &str, params: &[ValueRef<'_>]) -> Result<(), StoreFault>
        requires { IsEditText sql.now }
        ensures { Edits S.Store self.old self.new result sql.now (bound params.now) }
    {
        self.conn.execute(sql, params)?;
        Ok(())
    }
}
