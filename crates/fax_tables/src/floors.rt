//! The floors of clients in rows.

ghost use Rattle.std.specs.Prelude.{◌≡◌, ℕ, ◌<◌, ◌^◌, [], ◌∷◌, pos, IfOk};
ghost use Rattle.fax_tables.specs.Fault.{OrUnavailable};
ghost use Rattle.fax_tables.specs.Row.{HasNumber, number};

use crate::fault::StoreFault;
use crate::row::value_at;
use sqlite::Row;

/// One above the greatest request number.
const PAST_NUMBERS: u64 = 1_000_000_000_000_000_000;

/// The floor in a row of it: below one above the greatest request number.
pub fn floor_in(row: &Row) -> Result<u64, StoreFault>
    ensures found { (n : ℕ) → row.now ≡ number n ∷ [] → n < 10 ^ 18 → OrUnavailable result (λ floor. floor ≡ n) }
    ensures stands { IfOk result (HasNumber row.now 0) }
    ensures lawful { IfOk result (λ floor. floor < 10 ^ 18) }
{
    let value: i64 = value_at(row, 0)?;
    match u64::try_from(value) {
        Ok(floor) if floor < PAST_NUMBERS => Ok(floor),
        _ => Err(StoreFault::Strange),
    }
}

/// A floor as the database takes it.
pub fn floor_value(floor: u64) -> i64
    requires { floor < 10 ^ 18 }
    ensures { result ≡ pos floor }
{
    floor as i64
}
