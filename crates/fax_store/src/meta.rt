//! The clock and the next numbers.

ghost use Rattle.std.specs.Prelude.{◌≡◌};
ghost use Rattle.fax_core.specs.Queue.{Queue};
ghost use Rattle.fax_store.specs.Calls.{MakesWhere, RecallsLawful, WritesWhere};
ghost use Rattle.fax_store.specs.Meta.{MetaStands};
ghost use Rattle.fax_tables.specs.Meta.{meta_of, with_meta};
ghost use Rattle.fax_tables.specs.Tables.{IsLawfulMeta};

use crate::store::Store;
use crate::work::Work;
use fax_schema::statements::{SELECT_META, UPDATE_META};
use fax_tables::{Meta, StoreFault};
use sqlite::{Alter, params};

impl<S: Alter> Store<S> {
    /// The clock and the next numbers.
    ///
    /// # Errors
    ///
    /// `Unavailable`, or `Strange` where their row is no lawful record.
    pub fn meta(&mut self) -> Result<Meta, StoreFault>
        ensures { RecallsLawful S.Store self.old self.new result (λ m k meta. meta ≡ meta_of m) MetaStands
            (λ meta. (m : Queue) → IsLawfulMeta (with_meta meta m)) }
    {
        match self.find(SELECT_META, &[])? {
            Some(row) => Meta::in_row(&row),
            None => Err(StoreFault::Strange),
        }
    }

    pub(crate) fn write_meta(&mut self, meta: Meta) -> Result<(), StoreFault>
        ensures { WritesWhere S.Store self.old self.new result (λ m. IsLawfulMeta (with_meta meta m)) (with_meta meta) (λ k. k) }
    {
        self.run(
            UPDATE_META,
            params![meta.clock.seconds(), meta.next_job, meta.next_grant],
        )
    }
}

impl<S: Alter> Work<'_, S> {
    /// Sets the clock and the next numbers.
    ///
    /// # Errors
    ///
    /// `Unavailable`.
    pub fn put_meta(&mut self, meta: Meta) -> Result<(), StoreFault>
        ensures { MakesWhere S.Store self.old self.new result (λ m. IsLawfulMeta (with_meta meta m)) (with_meta meta) (λ k. k) }
    {
        if self.failed {
            return Err(StoreFault::Unavailable);
        }
        let done = self.store.write_meta(meta);
        self.failed = done.is_err();
        done
    }
}
