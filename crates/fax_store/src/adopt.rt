//! How a store comes to a database, and how it gives it back.

ghost use Rattle.std.specs.Prelude.{◌≡◌, ◌+◌, ◌<◌, ◌^◌, ℕ, false, [], ◌∷◌, length, Err, IfErr, IfOk, List, MatchResult, OnOk, Some};
ghost use Rattle.sqlite.specs.Held.{state};
ghost use Rattle.sqlite.specs.State.{HasCleanDisk};
ghost use Rattle.fax_core.specs.Job.{Job as OneJob};
ghost use Rattle.fax_core.specs.Ledger.{Ledger};
ghost use Rattle.fax_core.specs.Queue.{Queue, job_numbered};
ghost use Rattle.fax_store.specs.Calls.{Finds, shown};
ghost use Rattle.fax_store.specs.Adopt.{Adopts, AreAdopted, AreCallable, AreDropped, AreOfJobs, AreOnTheWay, AreSmall, AreTaken, AreTimed, CanBeCalled, CoreMeans, Counts, Founds, HasBecome, HasNone, HasNoStrays, HasTimes, HoldJobs, HoldsCanBeCalled, IsAdoptable, IsAdopted, IsFilled, IsGivenBack, IsIn, IsSettled, IsTakeable, IsWhole, MeansAs, Takes, Tests, Turns, TurnsOrUnavailable, held_to};
ghost use Rattle.fax_store.specs.Grant.{HasCalls, SetsCalls, with_count};
ghost use Rattle.fax_store.specs.Store.{HasTables};
ghost use Rattle.fax_tables.specs.Row.{number};
ghost use Rattle.sqlite_value.specs.Value.{owned};
ghost use Rattle.fax_schema.specs.Schema.{no_tables};
ghost use Rattle.fax_tables.specs.Tables.{HasNewCalls, TablesMean, version_of, versions};

use crate::store::{BEGIN, COMMIT, Store};
use fax_job::Dial;
use fax_layout::has_no_tables;
use fax_schema::statements::{
    DELETE_GRANT, INSERT_TIMES, SELECT_DIAL, SELECT_HELD, SELECT_LOST, SELECT_META, SELECT_PHASES,
    SELECT_STRAYS, SELECT_VERSION, UPDATE_VERSION,
};
use fax_schema::{Way, has_floors, has_times, way_of};
use fax_tables::{
    StoreFault, create_tables, dial_in, held_job_in, is_over_phase, is_version, renew_tables,
};
use sqlite::types::ValueRef;
use sqlite::{Alter, Connection, Row, params};
use sqlite_schema::schema::Schema;
use std::alloc::Global;

impl<S: Alter> Store<S> {
    /// The store over a database. One with no tables gets the nine of an empty store, with their
    /// indexes. One with exactly the tables of a queue, of version 1, 2 or 3, keeps the rows of all
    /// but `calls`, which is counted again by what is held, whether it was there or not. Versions 1
    /// and 2 become 3: `floors` is made where there is none, with no rows. `times` is made, with a
    /// row for each job: when it came in isn't known, and one that is over ended at the clock of
    /// `meta`. Grants whose job was deleted from outside are dropped. The indexes by which jobs and
    /// grants are found are made where they aren't those of a store. All this is done in one
    /// transaction.
    ///
    /// # Errors
    ///
    /// `Strange` where the database is neither, or a hold has no job with a lawful number to dial, or
    /// `Unavailable`. The connection comes back with its tables as they were, and with no transaction
    /// open.
    pub fn adopt(
        alloc: Global,
        conn: Connection<S>,
    ) -> Result<Store<S>, (StoreFault, Connection<S>)>
        requires { (state S.Store conn).in_transaction ≡ false }
        ensures { MatchResult result (λ store. IsAdopted (state S.Store conn) (state S.Store store.conn))
            (λ e. IsGivenBack (state S.Store conn) (state S.Store e.1) e.0) }
    {
        // So what it shows is committed.
        let is_idle = conn.is_autocommit();
        prove!(is_idle);
        let mut store = Store { conn, alloc };
        match store.take_tables() {
            Ok(()) => Ok(store),
            Err(fault) => {
                store.roll_back();
                Err((fault, store.close()))
            }
        }
    }

    /// Makes the tables in a database with none, and takes one with ours.
    fn take_tables(&mut self) -> Result<(), StoreFault>
        ensures { Takes Adopts AreAdopted IsAdoptable (shown S.Store self.old) (shown S.Store self.new) result }
    {
        if has_no_tables(self.conn.schema()) {
            return self.make_tables();
        }
        match way_of(self.alloc, self.conn.schema())? {
            Some(way) => self.take_ours(way),
            None => Err(StoreFault::Strange),
        }
    }

    /// Makes the tables of an empty store, all of them or none.
    pub(crate) fn make_tables(&mut self) -> Result<(), StoreFault>
        requires { (shown S.Store self.old).now.schema ≡ no_tables }
        ensures { Founds (shown S.Store self.old) (shown S.Store self.new) result }
    {
        self.conn.execute(BEGIN, &[])?;
        create_tables(&mut self.conn)?;
        self.conn.execute(COMMIT, &[])?;
        Ok(())
    }

    /// Takes a database with our tables: it gets what it lacks, and its calls are counted anew.
    fn take_ours(&mut self, way: Way) -> Result<(), StoreFault>
        requires { AreOnTheWay way (shown S.Store self.old).now.schema }
        ensures { Takes HasBecome AreTaken IsTakeable (shown S.Store self.old) (shown S.Store self.new) result }
    {
        let version = version_in(self.conn.schema());
        self.conn.execute(BEGIN, &[])?;
        self.renew(way)?;
        self.fill(version)?;
        self.conn.execute(COMMIT, &[])?;
        Ok(())
    }

    /// Makes what the tables lack of those of a store, and `calls` anew, with no rows.
    fn renew(&mut self, way: Way) -> Result<(), StoreFault>
        ensures { TurnsOrUnavailable (IsIn (AreOnTheWay way)) HasNewCalls (shown S.Store self.old) (shown S.Store self.new)
            result }
    {
        renew_tables(&mut self.conn, way)?;
        Ok(())
    }

    /// Tests whether the version is this one and each hold has its job, makes the rows those of
    /// version 3, and counts the calls.
    fn fill(&mut self, version: u32) -> Result<(), StoreFault>
        ensures leaves { Turns HasNone (IsFilled version) (shown S.Store self.old) (shown S.Store self.new) result }
        ensures counted { (m : Queue) (k : Ledger) → HasNone (shown S.Store self.old)
            → HasCleanDisk (shown S.Store self.new) → OnOk result (MeansAs version (shown S.Store self.old).now m k
            → TablesMean (shown S.Store self.new).now m k) }
        ensures strange { HasCleanDisk (shown S.Store self.new) → result ≡ Err StoreFault.Strange
            → HasNone (shown S.Store self.old) → versions (shown S.Store self.old).now ≡ number version ∷ []
            → ¬ HoldsCanBeCalled (shown S.Store self.old).now }
    {
        self.test_version(version)?;
        self.test_holds()?;
        self.settle_version(version)?;
        self.count_holds()
    }

    /// Makes the rows of this version those of version 3.
    fn settle_version(&mut self, version: u32) -> Result<(), StoreFault>
        ensures { TurnsOrUnavailable HasNone (IsSettled version) (shown S.Store self.old) (shown S.Store self.new)
            result }
    {
        if version == 3 {
            return Ok(());
        }
        self.drop_strays()?;
        self.time_jobs()?;
        self.run(UPDATE_VERSION, &[])
    }

    /// Deletes the grants whose job isn't there.
    fn drop_strays(&mut self) -> Result<(), StoreFault>
        ensures { TurnsOrUnavailable HasNone HasNoStrays (shown S.Store self.old) (shown S.Store self.new) result }
    {
        let strays = self.show(SELECT_STRAYS, &[])?;
        self.drop_rows(strays.as_slice())
    }

    /// Deletes the grants whose number one of these rows has.
    fn drop_rows(&mut self, rows: &[Row]) -> Result<(), StoreFault>
        ensures { TurnsOrUnavailable HasNone (AreDropped rows.now) (shown S.Store self.old) (shown S.Store self.new)
            result }
    {
        for row in rows {
            self.drop_row(row)?;
        }
        Ok(())
    }

    /// Deletes the grant whose number a row has.
    fn drop_row(&mut self, row: &Row) -> Result<(), StoreFault>
        ensures { TurnsOrUnavailable HasNone (AreDropped (row.now ∷ [])) (shown S.Store self.old)
            (shown S.Store self.new) result }
    {
        let grant = row.get_ref(0)?;
        self.run(DELETE_GRANT, &[grant])
    }

    /// Puts in the times of all jobs, by the clock of meta.
    fn time_jobs(&mut self) -> Result<(), StoreFault>
        ensures { TurnsOrUnavailable HasNone HasTimes (shown S.Store self.old) (shown S.Store self.new) result }
    {
        // Meta has one row, so some row is found.
        let Some(meta) = self.find(SELECT_META, &[])? else {
            return Err(StoreFault::Unavailable);
        };
        let clock = meta.get_ref(0)?;
        let jobs = self.show(SELECT_PHASES, &[])?;
        self.time_rows(jobs.as_slice(), clock)
    }

    /// Puts in the times of the jobs in rows of their numbers and phases.
    fn time_rows<'v>(&mut self, rows: &'v [Row], clock: ValueRef<'v>) -> Result<(), StoreFault>
        ensures { TurnsOrUnavailable HasNone (AreTimed (owned clock.entry) rows.now) (shown S.Store self.old)
            (shown S.Store self.new) result }
    {
        for row in rows {
            self.time_row(row, clock)?;
        }
        Ok(())
    }

    /// Puts in the times of the job in a row of its number and phase.
    fn time_row<'v>(&mut self, row: &'v Row, clock: ValueRef<'v>) -> Result<(), StoreFault>
        ensures { TurnsOrUnavailable HasNone (AreTimed (owned clock.entry) (row.now ∷ [])) (shown S.Store self.old)
            (shown S.Store self.new) result }
    {
        let job = row.get_ref(0)?;
        let phase = row.get_ref(1)?;
        let ended = if is_over_phase(phase) {
            clock
        } else {
            ValueRef::Int(0)
        };
        self.run(INSERT_TIMES, &[job, ValueRef::Int(0), ended])
    }

    /// Tests whether meta has one row, of this version.
    fn test_version(&mut self, version: u32) -> Result<(), StoreFault>
        ensures { Tests (λ db. versions db ≡ number version ∷ []) (shown S.Store self.old) (shown S.Store self.new)
            result }
    {
        let rows = self.show(SELECT_VERSION, &[])?;
        if is_version(rows.as_slice(), version) {
            Ok(())
        } else {
            Err(StoreFault::Strange)
        }
    }

    /// Tests whether each hold is of a job that is there.
    fn test_holds(&mut self) -> Result<(), StoreFault>
        ensures { Tests HoldJobs (shown S.Store self.old) (shown S.Store self.new) result }
    {
        let lost = self.show(SELECT_LOST, &[])?;
        if lost.len() > 0 {
            return Err(StoreFault::Strange);
        }
        Ok(())
    }

    /// Counts the calls by what is held.
    fn count_holds(&mut self) -> Result<(), StoreFault>
        ensures leaves { Turns HasNone IsWhole (shown S.Store self.old) (shown S.Store self.new) result }
        ensures counted { (m : Queue) (k : Ledger) → HasNone (shown S.Store self.old)
            → HasCleanDisk (shown S.Store self.new) → CoreMeans (shown S.Store self.old).now m k
            → OnOk result (TablesMean (shown S.Store self.new).now m k) }
        ensures cause { HasNone (shown S.Store self.old) → HasCleanDisk (shown S.Store self.new)
            → HoldsCanBeCalled (shown S.Store self.old).now → IfErr result (λ fault. fault ≡ StoreFault.Unavailable) }
    {
        let held = self.show(SELECT_HELD, &[])?;
        self.count_rows(held.as_slice())
    }

    /// Counts a call for each of these rows, which has the number of a job.
    fn count_rows(&mut self, rows: &[Row]) -> Result<(), StoreFault>
        ensures counts { Counts (shown S.Store self.old) (shown S.Store self.new) result }
        ensures counted { (m : Queue) (k : Ledger) → CoreMeans (shown S.Store self.old).now m k
            → AreOfJobs m rows.now → length rows.now < 2 ^ 32 → HasCalls (shown S.Store self.old) (λ _. 0)
            → HasCleanDisk (shown S.Store self.new)
            → OnOk result (SetsCalls (shown S.Store self.old) (shown S.Store self.new) (held_to m rows.now)) }
        ensures cause { (count : List ℕ → ℕ) → AreCallable (shown S.Store self.old).now rows.now
            → HasCalls (shown S.Store self.old) count → AreSmall count → HasCleanDisk (shown S.Store self.new)
            → IfErr result (λ fault. fault ≡ StoreFault.Unavailable) }
    {
        for row in rows {
            self.count_hold(row)?;
        }
        Ok(())
    }

    /// Counts a call to the number of the job that a row has.
    fn count_hold(&mut self, row: &Row) -> Result<(), StoreFault>
        ensures counts { Counts (shown S.Store self.old) (shown S.Store self.new) result }
        ensures counted { (m : Queue) (k : Ledger) (j : OneJob) (count : List ℕ → ℕ)
            → CoreMeans (shown S.Store self.old).now m k → row.now ≡ number j.number ∷ []
            → job_numbered j.number m ≡ Some j → count j.dial + 1 < 2 ^ 32 → HasCalls (shown S.Store self.old) count
            → HasCleanDisk (shown S.Store self.new)
            → OnOk result (SetsCalls (shown S.Store self.old) (shown S.Store self.new) (with_count j.dial
            (count j.dial + 1) count)) }
        ensures cause { (n : ℕ) (count : List ℕ → ℕ) → row.now ≡ number n ∷ []
            → CanBeCalled (shown S.Store self.old).now n → HasCalls (shown S.Store self.old) count → AreSmall count
            → HasCleanDisk (shown S.Store self.new) → IfErr result (λ fault. fault ≡ StoreFault.Unavailable) }
    {
        let job = held_job_in(row)?;
        let dial = self.dial_of(job)?;
        self.add_call(&dial)
    }

    /// The number to dial of a job.
    fn dial_of(&mut self, job: u32) -> Result<Dial, StoreFault>
        ensures leaves { Finds S.Store self.old self.new result }
        ensures answers { (m : Queue) (k : Ledger) (j : OneJob) → HasTables (shown S.Store self.old)
            → CoreMeans (shown S.Store self.old).now m k → job_numbered job m ≡ Some j
            → HasCleanDisk (shown S.Store self.new) → IfOk result (λ dial. dial ≡ j.dial) }
        ensures cause { HasTables (shown S.Store self.old) → CanBeCalled (shown S.Store self.old).now job
            → HasCleanDisk (shown S.Store self.new) → IfErr result (λ fault. fault ≡ StoreFault.Unavailable) }
    {
        match self.find(SELECT_DIAL, params![job])? {
            Some(found) => dial_in(self.alloc, &found),
            None => Err(StoreFault::Strange),
        }
    }

    /// Counts one more call to a number.
    fn add_call(&mut self, dial: &Dial) -> Result<(), StoreFault>
        ensures counts { Counts (shown S.Store self.old) (shown S.Store self.new) result }
        ensures counted { (count : List ℕ → ℕ) → HasCalls (shown S.Store self.old) count → count dial.now + 1 < 2 ^ 32
            → HasCleanDisk (shown S.Store self.new)
            → OnOk result (SetsCalls (shown S.Store self.old) (shown S.Store self.new) (with_count dial.now
            (count dial.now + 1) count)) }
        ensures cause { (count : List ℕ → ℕ) → HasCalls (shown S.Store self.old) count → AreSmall count
            → HasCleanDisk (shown S.Store self.new) → IfErr result (λ fault. fault ≡ StoreFault.Unavailable) }
    {
        let calls = self.read_calls(dial)?;
        // A number has fewer calls than there are grants, so the sum fits.
        self.set_calls(dial, calls.saturating_add(1))
    }
}

/// The version that a database with our tables is of.
fn version_in(schema: &Schema) -> u32
    ensures { result ≡ version_of schema.now }
{
    if has_times(schema) {
        3
    } else if has_floors(schema) {
        2
    } else {
        1
    }
}
