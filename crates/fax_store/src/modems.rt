//! The modems that are down.

ghost use Rattle.std.specs.Prelude.{◌≡◌, true, false, Err, IfErr, is_err, IsTrue};
ghost use Rattle.fax_core.specs.Machine.{is_down, with_mark};
ghost use Rattle.fax_value.specs.Name.{IsName};
ghost use Rattle.fax_store.specs.Calls.{MakesIf, RecallsOnly, Writes, WritesIf};

use crate::store::Store;
use crate::work::Work;
use fax_job::is_name;
use fax_schema::statements::{DELETE_DOWN, INSERT_DOWN, SELECT_DOWN};
use fax_tables::StoreFault;
use sqlite::{Alter, params};

impl<S: Alter> Store<S> {
    /// Whether the modem is down.
    ///
    /// # Errors
    ///
    /// `Unavailable`.
    pub fn is_down(&mut self, modem: &str) -> Result<bool, StoreFault>
        ensures { RecallsOnly S.Store self.old self.new result (λ m k down. down ≡ is_down modem.now m) }
    {
        let row = self.find(SELECT_DOWN, params![modem])?;
        Ok(row.is_some())
    }

    fn clear_mark(&mut self, modem: &str) -> Result<(), StoreFault>
        ensures { Writes S.Store self.old self.new result (with_mark modem.now false) (λ k. k) }
    {
        self.run(DELETE_DOWN, params![modem])
    }

    fn add_mark(&mut self, modem: &str) -> Result<(), StoreFault>
        ensures { WritesIf S.Store self.old self.new result (λ m k. IsName modem.now)
            (with_mark modem.now true) (λ k. k) }
    {
        if !is_name(modem.as_bytes()) {
            return Err(StoreFault::Strange);
        }
        if self.is_down(modem)? {
            return Ok(());
        }
        self.insert(INSERT_DOWN, params![modem])
    }

    fn write_mark(&mut self, modem: &str, down: bool) -> Result<(), StoreFault>
        ensures writes { WritesIf S.Store self.old self.new result (λ m k. IsTrue down → IsName modem.now)
            (with_mark modem.now down) (λ k. k) }
        ensures clears { down ≡ false → IfErr result (λ fault. fault ≡ StoreFault.Unavailable) }
    {
        if down {
            self.add_mark(modem)
        } else {
            self.clear_mark(modem)
        }
    }
}

impl<S: Alter> Work<'_, S> {
    /// Marks the modem as down, or takes the mark away. Either may stand so already.
    ///
    /// # Errors
    ///
    /// `Unavailable`, or `Strange` where what is to be marked is no name.
    pub fn set_down(&mut self, modem: &str, down: bool) -> Result<(), StoreFault>
        ensures makes { MakesIf S.Store self.old self.new result (λ m k. IsTrue down → IsName modem.now)
            (with_mark modem.now down) (λ k. k) }
        ensures clears { down ≡ false → IfErr result (λ fault. fault ≡ StoreFault.Unavailable) }
    {
        if self.failed {
            return Err(StoreFault::Unavailable);
        }
        let done = self.store.write_mark(modem, down);
        self.failed = done.is_err();
        done
    }
}
