//! The kept replies.

ghost use Rattle.std.specs.Prelude.{Err, IfSome, is_err, OnOk};
ghost use Rattle.fax_core.specs.Ledger.{with_reply, entry, IsKeptStatus};
ghost use Rattle.fax_value.specs.Name.{IsName};
ghost use Rattle.fax_store.specs.Calls.{MakesIf, RecallsLawful, WritesIf};
ghost use Rattle.fax_store.specs.Kept.{IsKeptFor, IsUnkept, MissesNone};
ghost use Rattle.fax_store.specs.Work.{Keeps};

use crate::store::Store;
use crate::work::Work;
use fax_job::{RequestNumber, is_name};
use fax_schema::statements::{INSERT_REPLY, SELECT_REPLY};
use fax_tables::{Kept, StoreFault, is_kept_status, number_value};
use sqlite::{Alter, params};

impl<S: Alter> Store<S> {
    /// The reply that is kept for this number of this client.
    ///
    /// # Errors
    ///
    /// `Unavailable`, or `Strange` where its row is no lawful record.
    pub fn kept(&mut self, client: &str, number: RequestNumber) -> Result<Option<Kept>, StoreFault>
        ensures { RecallsLawful S.Store self.old self.new result (λ m k. IsKeptFor k.replies client.now number)
            (λ db. MissesNone db client.now number) (λ found. IfSome found (λ kept. IsKeptStatus kept.status)) }
    {
        let number = number_value(number);
        match self.find(SELECT_REPLY, params![client, number])? {
            Some(row) => Ok(Some(Kept::in_row(&row)?)),
            None => Ok(None),
        }
    }

    fn write_reply(
        &mut self,
        client: &str,
        number: RequestNumber,
        said: &[u8],
        status: u16,
        body: &[u8],
    ) -> Result<(), StoreFault>
        ensures writes { WritesIf S.Store self.old self.new result (λ m k. IsName client.now × IsKeptStatus status
            × IsUnkept client.now number k.replies) (λ m. m)
            (with_reply (entry client.now number said.now status body.now)) }
        ensures status { OnOk result (IsKeptStatus status) }
    {
        let number = number_value(number);
        if !is_name(client.as_bytes()) || !is_kept_status(status) {
            return Err(StoreFault::Strange);
        }
        self.insert(
            INSERT_REPLY,
            params![client, number, said, u32::from(status), body],
        )
    }
}

impl<S: Alter> Work<'_, S> {
    /// Keeps a reply for this number of this client, which has none yet, with what was said.
    ///
    /// # Errors
    ///
    /// `Unavailable`, or `Strange` where one is kept already, the client is no name or the status
    /// neither 200 nor 201.
    pub fn keep(
        &mut self,
        client: &str,
        number: RequestNumber,
        said: &[u8],
        status: u16,
        body: &[u8],
    ) -> Result<(), StoreFault>
        ensures makes { MakesIf S.Store self.old self.new result (λ m k. IsName client.now × IsKeptStatus status
            × IsUnkept client.now number k.replies) (λ m. m)
            (with_reply (entry client.now number said.now status body.now)) }
        ensures status { OnOk result (IsKeptStatus status) }
    {
        if self.failed {
            return Err(StoreFault::Unavailable);
        }
        let done = self.store.write_reply(client, number, said, status, body);
        self.failed = done.is_err();
        done
    }
}
