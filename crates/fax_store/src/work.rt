//! Changes that are made together.

ghost use Rattle.std.specs.Prelude.{◌≡◌, ◌||◌, false, not};
ghost use Rattle.fax_store.specs.Calls.{Drops, Ends, within};

use crate::store::{COMMIT, Store};
use fax_tables::StoreFault;
use sqlite::Alter;

/// Changes to the tables that are made together by `commit`, or not at all: where it is dropped
/// before, they are undone. Once a call of it was refused, each later one is refused as
/// `Unavailable`, its commit too.
pub struct Work<'s, S: Alter> {
    /// Its readers read what the work has made of the tables. After one that was refused, [`Work::check`] has to be called.
    pub store: &'s mut Store<S>,
    pub(crate) failed: bool,
}

impl<'s, S: Alter> Work<'s, S> {
    pub(crate) fn new(store: &'s mut Store<S>) -> Work<'s, S>
        ensures same_reference { result.store.ghost_name ≡ store.entry.ghost_name }
        ensures same { result.store.now ≡ store.old }
        ensures goes_on { result.failed ≡ false }
    {
        Work {
            store,
            failed: false,
        }
    }

    /// Takes note of whether a refused reading of its store has undone the work, and returns whether the work goes on. Else
    /// each later call is refused.
    pub fn check(&mut self) -> bool
        ensures same_reference { self.new.store.ghost_name ≡ self.old.store.ghost_name }
        ensures same { self.new.store.now ≡ self.old.store.now }
        ensures fails { self.new.failed ≡ (self.old.failed || not (within S.Store self.old).in_transaction) }
        ensures goes_on { result ≡ not self.new.failed }
    {
        self.failed = self.failed || self.store.conn.is_autocommit();
        !self.failed
    }

    /// Makes the changes those of the store.
    ///
    /// # Errors
    ///
    /// `Unavailable`; the tables are as they were at `begin`.
    pub fn commit(self) -> Result<(), StoreFault>
        ensures { Ends S.Store self.entry self.exit.0.now result }
    {
        let Work { store, failed } = self;
        if failed {
            store.roll_back();
            return Err(StoreFault::Unavailable);
        }
        store.conn.execute(COMMIT, &[])?;
        Ok(())
    }
}

impl<S: Alter> Drop for Work<'_, S> {
    fn drop(self)
        ensures { Drops S.Store self.entry self.exit.0.now }
    {
        let Work { store, failed: _ } = self;
        store.roll_back();
    }
}
