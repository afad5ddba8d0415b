//! Whether a fault of the disk has shut a store.

ghost use Rattle.std.specs.Prelude.{◌≡◌, not, IfErr, IfOk};
ghost use Rattle.sqlite.specs.State.{HasCleanDisk};
ghost use Rattle.fax_store.specs.Calls.{ChangesNothing, shown};
ghost use Rattle.fax_store.specs.Shut.{SaysShut, shut_by as says_shut};

use crate::store::{COMMIT, Store};
use fax_tables::StoreFault;
use sqlite::{Alter, Error, ErrorCode};

/// What a text that isn't compiled says of whether the database is shut.
fn shut_by(error: Error) -> Result<bool, StoreFault>
    ensures says { result ≡ says_shut error }
    ensures cause { IfErr result (λ fault. fault ≡ StoreFault.Unavailable) }
{
    match error {
        Error::SqliteFailure(ErrorCode::Closed) => Ok(true),
        other => Err(other.into()),
    }
}

impl<S: Alter> Store<S> {
    /// Whether a fault of the disk has shut the database. Then it answers nothing until it is opened again. The disk isn't
    /// asked.
    ///
    /// # Errors
    ///
    /// `Unavailable`, where it can't be told.
    pub fn is_shut(&mut self) -> Result<bool, StoreFault>
        ensures leaves { ChangesNothing S.Store self.old self.new }
        ensures told { HasCleanDisk (shown S.Store self.new)
            → IfOk result (λ shut. (shown S.Store self.new).is_open ≡ not shut) }
        ensures says { HasCleanDisk (shown S.Store self.new)
            → SaysShut (shown S.Store self.old) (shown S.Store self.new) result }
        ensures cause { IfErr result (λ fault. fault ≡ StoreFault.Unavailable) }
    {
        // A shut database refuses whatever it is to compile, before it does anything else.
        let Err(error) = self.conn.prepare(COMMIT) else {
            return Ok(false);
        };
        shut_by(error)
    }
}
