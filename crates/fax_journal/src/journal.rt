//! The journal of a client, in a database.

ghost use Rattle.std.specs.Prelude.{◌≡◌, ◌⊎◌, ℕ, List, [], ◌∷◌, Option, Some, None, IfErr, MatchResult, option_map};
ghost use Rattle.sqlite.specs.Held.{state};
ghost use Rattle.sqlite.specs.Values.{bound};
ghost use Rattle.fax_journal.specs.Entry.{Entry as Stored, IsValid};
ghost use Rattle.fax_journal.specs.Calls.{Changes, Finds, IsAdopted, IsGivenBack, Tells, shown};
ghost use Rattle.fax_journal.specs.Journal.{Answers, IsBare, IsNew, TablesMean, with_answer};

use crate::columns::{HeldColumns, RequestColumns, can_be_stored};
use crate::entry::Entry;
use crate::reading::entry_in;
use crate::shape::{BARE, OURS};
use crate::statements::{
    CREATE_ANSWERS, CREATE_JOURNAL, DELETE_ANSWER, SELECT_ANSWER, SELECT_ENTRY, SET_ANSWER,
    SET_ENTRY,
};
use fax_layout::{has_layout, has_no_tables};
use fax_tables::{StoreFault, number_value, value_at};
use sqlite::types::ValueRef;
use sqlite::{Alter, Connection, Row, params};
use std::alloc::Global;

/// The journal of a client, in a database. A crash during a call leaves what the journal had before or what the call
/// makes of it.
pub struct Journal<S: Alter> {
    conn: Connection<S>,
    alloc: Global,
}

// By hand, so that a proof lets it go in one step.
impl<S: Alter + Drop> Drop for Journal<S> {
    fn drop(self) {
        let Journal { conn: _, alloc: _ } = self;
    }
}

impl<S: Alter> Journal<S> {
    /// The journal over a database. One with no tables gets those of a new journal; one with exactly the tables of a
    /// journal keeps its rows.
    ///
    /// # Errors
    ///
    /// `Strange` if the database is neither, or `Unavailable`. The connection comes back with its rows as they were.
    pub fn adopt(
        alloc: Global,
        conn: Connection<S>,
    ) -> Result<Journal<S>, (StoreFault, Connection<S>)>
        ensures { MatchResult result (λ journal. IsAdopted (state S.Store conn) (state S.Store journal.conn))
            (λ e. IsGivenBack (state S.Store conn) (state S.Store e.1) e.0) }
    {
        let mut journal = Journal { conn, alloc };
        match journal.take_tables() {
            Ok(()) => Ok(journal),
            Err(fault) => Err((fault, journal.close())),
        }
    }

    /// What the journal has, if it was ever set.
    ///
    /// # Errors
    ///
    /// `Unavailable`, or `Strange` if its row isn't a valid entry.
    pub fn entry(&mut self) -> Result<Option<Entry>, StoreFault>
        ensures { (entry : Option Stored) (answers : Answers) → Tells (shown S.Store self.old) (shown S.Store self.new)
            result (TablesMean entry answers) (λ found. found ≡ entry) }
    {
        match self.find(SELECT_ENTRY, &[])? {
            Some(row) => Ok(Some(entry_in(self.alloc, &row)?)),
            None => Ok(None),
        }
    }

    /// Makes this what the journal has. The answers stay.
    ///
    /// # Errors
    ///
    /// `Unavailable`, or `Strange` if no queue hands out a grant like the one that is held. The journal then has what it
    /// had.
    pub fn set(&mut self, entry: &Entry) -> Result<(), StoreFault>
        ensures sets { (before : Option Stored) (answers : Answers) → Changes (shown S.Store self.old)
            (shown S.Store self.new) result (TablesMean before answers) (TablesMean (Some entry.now) answers) }
        ensures cause { IfErr result (λ fault. (fault ≡ StoreFault.Unavailable) ⊎ (IsValid entry.now → ⊥)) }
    {
        if !can_be_stored(&entry.held) {
            return Err(StoreFault::Strange);
        }
        let last = number_value(entry.last);
        let asked = RequestColumns::of(&entry.unanswered);
        let held = HeldColumns::of(&entry.held);
        self.conn.execute(
            SET_ENTRY,
            params![
                entry.client.as_str(),
                last,
                asked.unanswered,
                asked.number,
                asked.path,
                asked.body,
                asked.key.keyed,
                asked.key.key,
                held.holds,
                held.grant,
                held.job,
                held.dial,
                held.first_page,
                held.last_page,
                held.call,
                held.pages
            ],
        )?;
        Ok(())
    }

    /// The answer that is remembered under a key.
    ///
    /// # Errors
    ///
    /// `Unavailable`, or `Strange` if its row isn't an answer.
    pub fn answer(&mut self, key: &str) -> Result<Option<Vec<u8>>, StoreFault>
        ensures { (entry : Option Stored) (answers : Answers) → Tells (shown S.Store self.old) (shown S.Store self.new)
            result (TablesMean entry answers) (λ found. option_map (λ v. v.items) found ≡ answers key.now) }
    {
        match self.find(SELECT_ANSWER, params![key])? {
            Some(row) => Ok(Some(value_at(&row, 0)?)),
            None => Ok(None),
        }
    }

    /// Remembers an answer under a key, in place of the one before.
    ///
    /// # Errors
    ///
    /// `Unavailable`.
    pub fn remember(&mut self, key: &str, answer: &[u8]) -> Result<(), StoreFault>
        ensures remembers { (entry : Option Stored) (answers : Answers) → Changes (shown S.Store self.old)
            (shown S.Store self.new) result (TablesMean entry answers)
            (TablesMean entry (with_answer key.now (Some answer.now) answers)) }
        ensures cause { IfErr result (λ fault. fault ≡ StoreFault.Unavailable) }
    {
        self.conn.execute(SET_ANSWER, params![key, answer])?;
        Ok(())
    }

    /// Forgets the answer under a key, if there is one.
    ///
    /// # Errors
    ///
    /// `Unavailable`.
    pub fn forget(&mut self, key: &str) -> Result<(), StoreFault>
        ensures forgets { (entry : Option Stored) (answers : Answers) → Changes (shown S.Store self.old)
            (shown S.Store self.new) result (TablesMean entry answers)
            (TablesMean entry (with_answer key.now None answers)) }
        ensures cause { IfErr result (λ fault. fault ≡ StoreFault.Unavailable) }
    {
        self.conn.execute(DELETE_ANSWER, params![key])?;
        Ok(())
    }

    /// The database, as the journal has it.
    pub fn close(self) -> Connection<S>
        ensures { result ≡ self.conn }
    {
        let Journal { conn, alloc: _ } = self;
        conn
    }

    /// Makes what a database lacks of the tables of a journal, if it has no other.
    fn take_tables(&mut self) -> Result<(), StoreFault>
        ensures { MatchResult result (λ _. IsAdopted (shown S.Store self.old) (shown S.Store self.new))
            (IsGivenBack (shown S.Store self.old) (shown S.Store self.new)) }
    {
        if has_no_tables(self.conn.schema()) {
            self.create_journal()?;
            return self.create_answers();
        }
        if has_layout(self.alloc, self.conn.schema(), BARE)? {
            return self.create_answers();
        }
        if has_layout(self.alloc, self.conn.schema(), OURS)? {
            return Ok(());
        }
        Err(StoreFault::Strange)
    }

    fn create_journal(&mut self) -> Result<(), StoreFault>
        ensures makes { (entry : Option Stored) (answers : Answers) → Changes (shown S.Store self.old)
            (shown S.Store self.new) result (IsNew entry answers) (IsBare entry answers) }
        ensures cause { IfErr result (λ fault. fault ≡ StoreFault.Unavailable) }
    {
        self.conn.execute(CREATE_JOURNAL, &[])?;
        Ok(())
    }

    fn create_answers(&mut self) -> Result<(), StoreFault>
        ensures makes { (entry : Option Stored) (answers : Answers) → Changes (shown S.Store self.old)
            (shown S.Store self.new) result (IsBare entry answers) (TablesMean entry answers) }
        ensures cause { IfErr result (λ fault. fault ≡ StoreFault.Unavailable) }
    {
        self.conn.execute(CREATE_ANSWERS, &[])?;
        Ok(())
    }

    /// One of the rows that a query shows, if there is one.
    fn find(&mut self, sql: &str, params: &[ValueRef<'_>]) -> Result<Option<Row>, StoreFault>
        ensures { Finds (shown S.Store self.old) (shown S.Store self.new) sql.now (bound params.now) result }
    {
        let mut rows = self.conn.query_all(sql, params)?;
        Ok(rows.pop())
    }
}
