//! The values of a row.

ghost use Rattle.std.specs.Prelude.{◌≡◌, ℕ, ◌<◌, ◌≤◌, ◌^◌, List, IfOk, length};
ghost use Rattle.std.specs.Str.{IsUtf8};
ghost use Rattle.std.specs.String.{string_bytes};
ghost use Rattle.sqlite.specs.declared.types.Value.TheVariants.{Text};
ghost use Rattle.sqlite.specs.Order.{column};
ghost use Rattle.fax_value.specs.Limits.{last_moment};
ghost use Rattle.fax_value.specs.Name.{IsName};
ghost use Rattle.fax_tables.specs.Fault.{OrUnavailable};
ghost use Rattle.fax_tables.specs.Job.{IsText};
ghost use Rattle.fax_tables.specs.Row.{HasValue, HasNumber};

use crate::fault::StoreFault;
use fax_job::{Moment, Name};
use sqlite::types::FromSql;
use sqlite::{Error, Row};
use std::alloc::Global;

/// The value in a column. One that does not read as `T` is strange.
pub fn value_at<T: FromSql>(row: &Row, at: usize) -> Result<T, StoreFault>
    ensures found { at < length row.now → T.FromSql.is_readable (column row.now at)
        → OrUnavailable result (T.FromSql.reads_as (column row.now at)) }
    ensures stands { IfOk result (λ found. (at < length row.now) × T.FromSql.reads_as (column row.now at) found) }
{
    match row.get(at) {
        Ok(value) => Ok(value),
        Err(Error::SqliteFailure(_)) => Err(StoreFault::Unavailable),
        Err(_) => Err(StoreFault::Strange),
    }
}

/// The text in a column.
pub fn text_at(row: &Row, at: usize) -> Result<String, StoreFault>
    ensures found { (text : List ℕ) → HasValue row.now at (Text text) → IsUtf8 text
        → OrUnavailable result (λ found. string_bytes found ≡ text) }
    ensures stands { IfOk result (λ found. HasValue row.now at (Text (string_bytes found))) }
{
    value_at(row, at)
}

/// The number in a column, which fits 32 bits.
pub fn number_at(row: &Row, at: usize) -> Result<u32, StoreFault>
    ensures found { (n : ℕ) → HasNumber row.now at n → n < 2 ^ 32 → OrUnavailable result (λ number. number ≡ n) }
    ensures stands { IfOk result (HasNumber row.now at) }
{
    value_at(row, at)
}

/// The number in a column, which fits 16 bits.
pub fn small_at(row: &Row, at: usize) -> Result<u16, StoreFault>
    ensures found { (n : ℕ) → HasNumber row.now at n → n < 2 ^ 16 → OrUnavailable result (λ small. small ≡ n) }
    ensures stands { IfOk result (HasNumber row.now at) }
{
    let number = number_at(row, at)?;
    match u16::try_from(number) {
        Ok(small) => Ok(small),
        Err(_) => Err(StoreFault::Strange),
    }
}

/// The moment in a column.
pub(crate) fn moment_at(row: &Row, at: usize) -> Result<Moment, StoreFault>
    ensures found { (n : ℕ) → HasNumber row.now at n → n ≤ last_moment
        → OrUnavailable result (λ moment. moment ≡ n) }
    ensures stands { IfOk result (HasNumber row.now at) }
{
    let seconds = number_at(row, at)?;
    let moment = Moment::new(u64::from(seconds));
    if moment.seconds() == seconds {
        Ok(moment)
    } else {
        Err(StoreFault::Strange)
    }
}

/// The name in a column.
pub fn name_at(alloc: Global, row: &Row, at: usize) -> Result<Name, StoreFault>
    ensures found { (text : List ℕ) → HasValue row.now at (Text text) → IsText IsName text
        → OrUnavailable result (λ found. found ≡ text) }
    ensures stands { IfOk result (λ found. HasValue row.now at (Text found)) }
{
    let text = text_at(row, at)?;
    Ok(Name::read(alloc, text.as_str())?)
}
