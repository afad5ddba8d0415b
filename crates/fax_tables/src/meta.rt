//! The clock and the next numbers in their row.

ghost use Rattle.std.specs.Prelude.{◌≡◌, ◌↔◌, [], ◌∷◌, IfOk, IsTrue};
ghost use Rattle.fax_core.specs.Queue.{Queue};
ghost use Rattle.fax_tables.specs.Fault.{OrUnavailable};
ghost use Rattle.fax_tables.specs.Row.{HasValues, number};
ghost use Rattle.fax_tables.specs.Tables.{IsLawfulMeta};

use crate::fault::StoreFault;
use crate::row::{moment_at, number_at};
use fax_job::Moment;
use fax_job::limits::{LAST_GRANT, LAST_JOB};
use sqlite::Row;
use sqlite::types::ValueRef;

/// One above the number of the last job that there can be.
pub const PAST_JOBS: u32 = LAST_JOB + 1;

/// One above the number of the last grant that there can be.
pub const PAST_GRANTS: u32 = LAST_GRANT + 1;

/// The clock and the next numbers.
#[derive(Clone, Copy, Debug, PartialEq, Eq)]
pub struct Meta {
    /// The moment of the last request that was taken.
    pub clock: Moment,
    /// The number of the next job, from 1 to 1000000.
    pub next_job: u32,
    /// The number of the next grant, from 1 to 1000000000.
    pub next_grant: u32,
}

impl Meta {
    ghost use Rattle.fax_tables.specs.Meta.{meta_of, meta_shown, numbers_shown, with_meta};

    /// The clock and next numbers in a row of these three.
    pub fn in_row(row: &Row) -> Result<Meta, StoreFault>
        ensures found { (m : Queue) → row.now ≡ meta_shown m → IsLawfulMeta m
            → OrUnavailable result (λ meta. meta ≡ meta_of m) }
        ensures stands { IfOk result (λ meta. HasValues row.now 0 (numbers_shown meta)) }
        ensures lawful { IfOk result (λ meta. (m : Queue) → IsLawfulMeta (with_meta meta m)) }
    {
        let clock = moment_at(row, 0)?;
        let next_job = number_at(row, 1)?;
        let next_grant = number_at(row, 2)?;
        if 1 <= next_job && next_job <= PAST_JOBS && 1 <= next_grant && next_grant <= PAST_GRANTS {
            Ok(Meta {
                clock,
                next_job,
                next_grant,
            })
        } else {
            Err(StoreFault::Strange)
        }
    }
}

/// Whether a query for the version showed one row, of this version.
pub fn is_version(rows: &[Row], version: u32) -> bool
    ensures { IsTrue result ↔ (rows.now ≡ (number version ∷ []) ∷ []) }
{
    let [row] = rows else {
        return false;
    };
    match row.get_ref(0) {
        Ok(ValueRef::Int(found)) => row.column_count() == 1 && found == i64::from(version),
        _ => false,
    }
}
