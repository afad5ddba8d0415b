//! The grants, and what modems and jobs hold of those that are open.

ghost use Rattle.std.specs.Prelude.{◌≡◌, ◌<◌, ◌≤◌, ◌+◌, ◌-◌, ◌^◌, ⊤, ℕ, List, false, map, Err, IfErr, OnErr, OnOk};
ghost use Rattle.std.specs.List.Sorted.{IsPermutation};
ghost use Rattle.std.specs.Option.{option_map};
ghost use Rattle.sqlite.specs.State.{HasCleanDisk, KeepsCommit};
ghost use Rattle.fax_core.specs.Machine.{held_by, with_grant};
ghost use Rattle.fax_core.specs.Ledger.{Ledger};
ghost use Rattle.fax_core.specs.Queue.{Queue, grant_numbered, open_grants};
ghost use Rattle.fax_core.specs.State.{calls_to};
ghost use Rattle.fax_value.specs.Limits.{most_pages};
ghost use Rattle.fax_store.specs.Calls.{Answers, AnswersRows, BecomesWhere, Calls, Finds, LooksUpLawful, MakesIf, RecallsRows, Runs, WritesIf, WritesIfWhere, WritesWhere, shown};
ghost use Rattle.fax_store.specs.Grant.{CallsStand, GrantStands, HasCalls, HasGrantRow, HasHoldRow, HoldStands, HoldersStand, IsCalled, IsHeld, IsHeldBy, IsNewGrant, IsReport, SetsCalls, with_count, with_placed, with_closed};
ghost use Rattle.fax_store.specs.Store.{Serves, HasTables};
ghost use Rattle.fax_store.specs.Work.{Works, Moves, Steps};
ghost use Rattle.fax_tables.specs.Fault.{OrUnavailable};
ghost use Rattle.fax_tables.specs.Grant.{as_hold, IsWithinLimits, IsLawfulHold, IsOpenGrant};
ghost use Rattle.fax_schema.specs.Schema.{calls_tree};
ghost use Rattle.fax_tables.specs.Tables.{AreCalls, HasJob};

use crate::store::Store;
use crate::work::Work;
use fax_core::Grant;
use fax_job::limits::MOST_PAGES;
use fax_job::{Dial, Name};
use fax_schema::statements::{
    DELETE_CALLS, DELETE_HOLD, INSERT_CALLS, INSERT_GRANT, INSERT_HOLD, SELECT_GRANT, SELECT_HOLD,
    SELECT_HOLDERS, SELECT_OPEN, SHUT_GRANT, UPDATE_REPORT,
};
use fax_tables::{Hold, StoreFault, call_number, calls_in, grant_in, holders_in, is_open_grant};
use sqlite::{Alter, params};

impl<S: Alter> Store<S> {
    /// What the modem holds, or none.
    ///
    /// # Errors
    ///
    /// `Unavailable`, or `Strange` where its row is no lawful record.
    pub fn hold_of(&mut self, modem: &str) -> Result<Option<Hold>, StoreFault>
        ensures { LooksUpLawful S.Store self.old self.new result (λ m. option_map as_hold (held_by modem.now m))
            (λ db. HasHoldRow db modem.now) (λ db. HoldStands db modem.now) IsLawfulHold }
    {
        match self.find(SELECT_HOLD, params![modem])? {
            Some(row) => Ok(Some(Hold::in_row(&row)?)),
            None => Ok(None),
        }
    }

    /// The modems that hold an open grant, in no order that means anything.
    ///
    /// # Errors
    ///
    /// `Unavailable`, or `Strange` where the modem in a row is no name.
    pub fn holders(&mut self) -> Result<Vec<Name>, StoreFault>
        ensures { RecallsRows S.Store self.old self.new result (λ m k found. IsPermutation
            (map (λ g. g.modem) (open_grants m)) found.items) (λ db found. HoldersStand db found.items) }
    {
        let shown = self.show(SELECT_HOLDERS, &[])?;
        holders_in(self.alloc, shown.as_slice())
    }

    /// The grant of this number.
    ///
    /// # Errors
    ///
    /// `Unavailable`, or `Strange` where its row is no lawful record.
    pub fn grant(&mut self, number: u32) -> Result<Option<Grant>, StoreFault>
        ensures { LooksUpLawful S.Store self.old self.new result (λ m. grant_numbered number m)
            (λ db. HasGrantRow db number) (λ db. GrantStands db number) IsWithinLimits }
    {
        match self.find(SELECT_GRANT, params![number])? {
            Some(row) => Ok(Some(grant_in(self.alloc, &row)?)),
            None => Ok(None),
        }
    }

    /// How many grants are open of jobs to the same canonical number.
    ///
    /// # Errors
    ///
    /// `Unavailable`, or `Strange` where its row is no lawful record.
    pub fn active_to(&mut self, dial: &Dial) -> Result<u64, StoreFault>
        ensures { RecallsRows S.Store self.old self.new result (λ m k calls. calls ≡ calls_to dial.now m)
            (λ db. CallsStand db dial.now) }
    {
        Ok(u64::from(self.read_calls(dial)?))
    }

    pub(crate) fn read_calls(&mut self, dial: &Dial) -> Result<u32, StoreFault>
        ensures leaves { Finds S.Store self.old self.new result }
        ensures answers { Answers S.Store self.old self.new result (λ m k calls. calls ≡ calls_to dial.now m) }
        ensures stands { AnswersRows S.Store self.old self.new result (λ db. CallsStand db dial.now) }
        ensures counted { (count : List ℕ → ℕ) → HasTables (shown S.Store self.old)
            → AreCalls count ((shown S.Store self.old).now.trees calls_tree) → count dial.now < 2 ^ 32
            → HasCleanDisk (shown S.Store self.new) → OrUnavailable result (λ calls. calls ≡ count dial.now) }
    {
        match self.find(SELECT_OPEN, params![dial.text()])? {
            Some(row) => calls_in(&row),
            None => Ok(0),
        }
    }

    /// Has `calls` count so many grants as open to a number.
    pub(crate) fn set_calls(&mut self, dial: &Dial, calls: u32) -> Result<(), StoreFault>
        ensures leaves { Runs S.Store self.old self.new result }
        ensures set { (count : List ℕ → ℕ) → HasCalls (shown S.Store self.old) count
            → HasCleanDisk (shown S.Store self.new)
            → OnOk result (SetsCalls (shown S.Store self.old) (shown S.Store self.new)
            (with_count dial.now calls count)) }
        ensures left { (count : List ℕ → ℕ) → HasCalls (shown S.Store self.old) count
            → HasCleanDisk (shown S.Store self.new)
            → OnErr result (KeepsCommit (shown S.Store self.old) (shown S.Store self.new)) }
        ensures cause { IfErr result (λ fault. fault ≡ StoreFault.Unavailable) }
    {
        self.run(DELETE_CALLS, params![dial.text()])?;
        if calls == 0 {
            return Ok(());
        }
        self.run(INSERT_CALLS, params![dial.text(), calls])
    }

    /// Adds an open grant of a job to this number, which has so many calls with it.
    fn place_grant(&mut self, grant: &Grant, dial: &Dial, calls: u32) -> Result<(), StoreFault>
        ensures { WritesIfWhere S.Store self.old self.new result (λ m. IsOpenGrant grant.now × IsCalled grant.now.job dial.now m
            × (calls ≡ calls_to dial.now m + 1)) (λ m k. IsOpenGrant grant.now × IsNewGrant grant.now m)
            (with_placed grant.now) (λ k. k) }
    {
        self.insert(
            INSERT_HOLD,
            params![grant.modem.as_str(), grant.job, grant.number],
        )?;
        self.insert(
            INSERT_GRANT,
            params![
                grant.number,
                grant.job,
                grant.modem.as_str(),
                u32::from(grant.first_page),
                u32::from(grant.last_page),
                call_number(grant.call),
                u32::from(grant.confirmed),
            ],
        )?;
        self.set_calls(dial, calls)
    }

    fn insert_grant(&mut self, grant: &Grant) -> Result<(), StoreFault>
        ensures { WritesIfWhere S.Store self.old self.new result (λ m. IsOpenGrant grant.now)
            (λ m k. IsOpenGrant grant.now × IsNewGrant grant.now m × HasJob m grant.now) (with_placed grant.now)
            (λ k. k) }
    {
        let Some(job) = self.job(grant.job)? else {
            return Err(StoreFault::Strange);
        };
        let calls = self.read_calls(&job.fields().dial)?;
        let Some(more) = calls.checked_add(1) else {
            return Err(StoreFault::Strange);
        };
        self.place_grant(grant, &job.fields().dial, more)
    }

    fn add_grant(&mut self, grant: &Grant) -> Result<(), StoreFault>
        ensures { WritesIf S.Store self.old self.new result (λ m k. IsOpenGrant grant.now × IsNewGrant grant.now m
            × HasJob m grant.now) (with_placed grant.now) (λ k. k) }
    {
        if !is_open_grant(grant) {
            return Err(StoreFault::Strange);
        }
        self.insert_grant(grant)
    }

    fn write_report(&mut self, grant: &Grant) -> Result<(), StoreFault>
        ensures leaves { Runs S.Store self.old self.new result }
        ensures written { (m₀ m : Queue) (k₀ k : Ledger) → IsReport grant.now m
            → Works (shown S.Store self.old) false m₀ k₀ m k → Serves (shown S.Store self.new)
            → Moves (shown S.Store self.new) result m₀ k₀ (with_grant grant.now m) k }
        ensures cause { grant.now.confirmed ≤ most_pages → IfErr result (λ fault. fault ≡ StoreFault.Unavailable) }
    {
        if grant.confirmed > MOST_PAGES {
            return Err(StoreFault::Strange);
        }
        self.run(
            UPDATE_REPORT,
            params![
                grant.number,
                call_number(grant.call),
                u32::from(grant.confirmed),
            ],
        )
    }

    /// Closes an open grant of a job to this number, which has so many calls without it.
    fn close_open(&mut self, number: u32, dial: &Dial, calls: u32) -> Result<(), StoreFault>
        ensures { WritesWhere S.Store self.old self.new result (λ m. IsHeld number dial.now m
            × (calls ≡ calls_to dial.now m - 1)) (with_closed number) (λ k. k) }
    {
        self.run(SHUT_GRANT, params![number])?;
        self.run(DELETE_HOLD, params![number])?;
        self.set_calls(dial, calls)
    }

    fn shut_grant(&mut self, number: u32) -> Result<(), StoreFault>
        ensures leaves { Runs S.Store self.old self.new result }
        ensures written { (m₀ m : Queue) (k₀ k : Ledger) → Works (shown S.Store self.old) false m₀ k₀ m k
            → Serves (shown S.Store self.new) → Steps (shown S.Store self.new) result m₀ k₀ (with_closed number m) k }
    {
        let Some(grant) = self.grant(number)? else {
            return Ok(());
        };
        if !grant.is_open {
            return Ok(());
        }
        self.end_call(number, grant.job)
    }

    /// Closes an open grant of the job of this number.
    fn end_call(&mut self, number: u32, job: u32) -> Result<(), StoreFault>
        ensures leaves { Runs S.Store self.old self.new result }
        ensures written { (m₀ m : Queue) (k₀ k : Ledger) → Works (shown S.Store self.old) false m₀ k₀ m k
            → Serves (shown S.Store self.new) → IsHeldBy number job m
            → Steps (shown S.Store self.new) result m₀ k₀ (with_closed number m) k }
    {
        let Some(job) = self.job(job)? else {
            return Err(StoreFault::Strange);
        };
        let calls = self.read_calls(&job.fields().dial)?;
        self.close_open(number, &job.fields().dial, calls.saturating_sub(1))
    }
}

impl<S: Alter> Work<'_, S> {
    /// Adds an open grant of a number that no grant has, to a modem and a job that hold none. The next number stays as it
    /// is.
    ///
    /// # Errors
    ///
    /// `Unavailable`, or `Strange` where a grant has the number, the modem or the job holds one, the
    /// job isn't there, the grant is not open or its numbers are past their limits.
    pub fn put_grant(&mut self, grant: &Grant) -> Result<(), StoreFault>
        ensures { MakesIf S.Store self.old self.new result (λ m k. IsOpenGrant grant.now × IsNewGrant grant.now m
            × HasJob m grant.now) (with_placed grant.now) (λ k. k) }
    {
        if self.failed {
            return Err(StoreFault::Unavailable);
        }
        let done = self.store.add_grant(grant);
        self.failed = done.is_err();
        done
    }

    /// Sets the call and the confirmed pages of the grant of this number. Where no grant has the
    /// number, nothing changes.
    ///
    /// # Errors
    ///
    /// `Unavailable`, or `Strange` where more pages are confirmed than a grant can have.
    pub fn put_report(&mut self, grant: &Grant) -> Result<(), StoreFault>
        ensures leaves { Calls S.Store self.old self.new result }
        ensures changes { BecomesWhere S.Store self.old self.new (IsReport grant.now) (with_grant grant.now) (λ k. k) }
        ensures cause { grant.now.confirmed ≤ most_pages → IfErr result (λ fault. fault ≡ StoreFault.Unavailable) }
    {
        if self.failed {
            return Err(StoreFault::Unavailable);
        }
        let done = self.store.write_report(grant);
        self.failed = done.is_err();
        done
    }

    /// Closes the grant of this number, so that its modem and its job hold it no more. Where no
    /// grant has the number, nothing changes.
    ///
    /// # Errors
    ///
    /// `Unavailable`, or `Strange` where its row or that of its job is no lawful record.
    pub fn close_grant(&mut self, number: u32) -> Result<(), StoreFault>
        ensures { MakesIf S.Store self.old self.new result (λ m k. ⊤) (with_closed number) (λ k. k) }
    {
        if self.failed {
            return Err(StoreFault::Unavailable);
        }
        let done = self.store.shut_grant(number);
        self.failed = done.is_err();
        done
    }
}
