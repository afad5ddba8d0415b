//! The times of jobs, and their numbers, in rows.

ghost use Rattle.std.specs.Prelude.{◌≡◌, ◌<◌, ◌^◌, ℕ, All, IfOk, List, [], ◌∷◌, map, take};
ghost use Rattle.fax_core.specs.declared.times.Times.{Times as TimesOf};
ghost use Rattle.fax_tables.specs.Fault.{OrUnavailable};
ghost use Rattle.fax_tables.specs.Row.{HasValues, number, times_shown};
ghost use Rattle.fax_tables.specs.Tables.{AreLawfulTimes};

use crate::fault::StoreFault;
use crate::row::{moment_at, number_at};
use fax_core::Times;
use sqlite::Row;
use std::alloc::Global;

/// The times in a row of a query for those of a job.
pub fn times_in(row: &Row) -> Result<Times, StoreFault>
    ensures found { (x : TimesOf) → row.now ≡ times_shown x → AreLawfulTimes x → x.job < 2 ^ 32
        → OrUnavailable result (λ found. found ≡ x) }
    ensures stands { IfOk result (λ found. HasValues row.now 0 (times_shown found)) }
{
    Ok(Times {
        job: number_at(row, 0)?,
        submitted: moment_at(row, 1)?,
        ended: moment_at(row, 2)?,
    })
}

/// The numbers of jobs in rows of one column, in their order.
pub fn numbers_in(alloc: Global, rows: &[Row]) -> Result<Vec<u32>, StoreFault>
    ensures found { (numbers : List ℕ) → rows.now ≡ map (λ n. number n ∷ []) numbers → All (λ n. n < 2 ^ 32) numbers
        → OrUnavailable result (λ found. found.items ≡ numbers) }
    ensures stands { IfOk result (λ found. map (take 1) rows.now ≡ map (λ n. number n ∷ []) found.items) }
{
    let mut numbers = Vec::new(alloc);
    for row in rows {
        let number = number_at(row, 0)?;
        if numbers.push(number).is_err() {
            return Err(StoreFault::Unavailable);
        }
    }
    Ok(numbers)
}
