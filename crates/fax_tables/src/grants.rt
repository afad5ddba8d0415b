//! The grants in rows, and what modems and jobs hold of those that are open.

ghost use Rattle.std.specs.Prelude.{◌≡◌, ◌<◌, ◌^◌, ℕ, All, List, [], ◌∷◌, map, take, Option, IfOk, IsTrue, if◌then◌else◌};
ghost use Rattle.fax_core.specs.declared.grants.Grant.{Grant as Granted};
ghost use Rattle.fax_job.specs.declared.job.Call.{Call as HowItWent};
ghost use Rattle.fax_value.specs.Name.{IsName};
ghost use Rattle.fax_tables.specs.Fault.{OrUnavailable};
ghost use Rattle.fax_tables.specs.Grant.{as_hold, held_shown, hold_shown, holder_shown, grant_shown, IsWithinLimits, IsLawfulHold, IsOpenGrant};
ghost use Rattle.fax_tables.specs.Row.{HasNumber, HasValues, call_number, number, shut_number};
ghost use Rattle.fax_tables.specs.Tables.{IsLawfulGrant};

use crate::fault::StoreFault;
use crate::meta::{PAST_GRANTS, PAST_JOBS};
use crate::row::{name_at, number_at, small_at};
use fax_core::Grant;
use fax_job::limits::MOST_PAGES;
use fax_job::{Call, Name};
use sqlite::Row;
use std::alloc::Global;

/// What a modem and a job hold: the number of their open grant, and of the job.
#[derive(Clone, Copy, Debug, PartialEq, Eq)]
pub struct Hold {
    /// The number of the grant.
    pub grant: u32,
    /// The number of the job.
    pub job: u32,
}

/// The number that stands for how a call went, 0 where that is not known.
pub fn call_number(call: Option<Call>) -> u32
    ensures { result ≡ call_number call }
{
    match call {
        None => 0,
        Some(Call::Connected) => 1,
        Some(Call::Busy) => 2,
        Some(Call::NoAnswer) => 3,
        Some(Call::NoCarrier) => 4,
        Some(Call::Other) => 5,
    }
}

/// Whether the numbers of a grant are within their limits. Its first page is 1 at least.
fn is_within_limits(grant: &Grant) -> bool
    ensures fits { IsTrue result → IsWithinLimits grant.now }
    ensures alone { IsWithinLimits grant.now → IsTrue result }
{
    1 <= grant.number
        && grant.number < PAST_GRANTS
        && 1 <= grant.job
        && grant.job < PAST_JOBS
        && 1 <= grant.first_page
        && grant.first_page <= MOST_PAGES
        && grant.last_page <= MOST_PAGES
        && grant.confirmed <= MOST_PAGES
}

/// Whether a grant is open, with its numbers within their limits.
pub fn is_open_grant(grant: &Grant) -> bool
    ensures fits { IsTrue result → IsOpenGrant grant.now }
    ensures alone { IsOpenGrant grant.now → IsTrue result }
{
    grant.is_open && is_within_limits(grant)
}

/// How the call in a column went, where 0 is not known.
pub fn call_at(row: &Row, at: usize) -> Result<Option<Call>, StoreFault>
    ensures found { (call : Option HowItWent) → HasNumber row.now at (call_number call)
        → OrUnavailable result (λ found. found ≡ call) }
    ensures stands { IfOk result (λ found. HasNumber row.now at (call_number found)) }
{
    match number_at(row, at)? {
        0 => Ok(None),
        1 => Ok(Some(Call::Connected)),
        2 => Ok(Some(Call::Busy)),
        3 => Ok(Some(Call::NoAnswer)),
        4 => Ok(Some(Call::NoCarrier)),
        5 => Ok(Some(Call::Other)),
        _ => Err(StoreFault::Strange),
    }
}

/// Whether the grant of a row is open, by the column that says whether it is shut.
fn open_at(row: &Row, at: usize) -> Result<bool, StoreFault>
    ensures found { (g : Granted) → HasNumber row.now at (shut_number g)
        → OrUnavailable result (λ found. found ≡ g.is_open) }
    ensures stands { IfOk result (λ found. HasNumber row.now at (if found then 0 else 1)) }
{
    match number_at(row, at)? {
        0 => Ok(true),
        1 => Ok(false),
        _ => Err(StoreFault::Strange),
    }
}

/// The grant in a row of all columns.
pub fn grant_in(alloc: Global, row: &Row) -> Result<Grant, StoreFault>
    ensures found { (g : Granted) → row.now ≡ grant_shown g → IsLawfulGrant g → OrUnavailable result (λ grant. grant ≡ g) }
    ensures stands { IfOk result (λ grant. HasValues row.now 0 (grant_shown grant)) }
    ensures lawful { IfOk result IsWithinLimits }
{
    let grant = Grant {
        number: number_at(row, 0)?,
        job: number_at(row, 1)?,
        modem: name_at(alloc, row, 2)?,
        first_page: small_at(row, 3)?,
        last_page: small_at(row, 4)?,
        call: call_at(row, 5)?,
        confirmed: small_at(row, 6)?,
        is_open: open_at(row, 7)?,
    };
    if is_within_limits(&grant) {
        Ok(grant)
    } else {
        Err(StoreFault::Strange)
    }
}

/// How many grants are open, in a row of that number.
pub fn calls_in(row: &Row) -> Result<u32, StoreFault>
    ensures found { (n : ℕ) → row.now ≡ number n ∷ [] → n < 2 ^ 32 → OrUnavailable result (λ calls. calls ≡ n) }
    ensures stands { IfOk result (HasNumber row.now 0) }
{
    number_at(row, 0)
}

/// The number of the job that a hold is of, in a row of it.
pub fn held_job_in(row: &Row) -> Result<u32, StoreFault>
    ensures found { (n : ℕ) → row.now ≡ number n ∷ [] → n < 2 ^ 32 → OrUnavailable result (λ job. job ≡ n) }
    ensures stands { IfOk result (HasNumber row.now 0) }
{
    number_at(row, 0)
}

/// The names in rows of one column, in their order.
pub fn holders_in(alloc: Global, rows: &[Row]) -> Result<Vec<Name>, StoreFault>
    ensures found { (names : List (List ℕ)) → rows.now ≡ map holder_shown names → All IsName names
        → OrUnavailable result (λ found. found.items ≡ names) }
    ensures stands { IfOk result (λ found. map (take 1) rows.now ≡ map holder_shown found.items) }
{
    let mut names = Vec::new(alloc);
    for row in rows {
        let name = name_at(alloc, row, 0)?;
        if names.push(name).is_err() {
            return Err(StoreFault::Unavailable);
        }
    }
    Ok(names)
}

impl Hold {
    /// The hold in a row of grant and job.
    pub fn in_row(row: &Row) -> Result<Hold, StoreFault>
        ensures found { (g : Granted) → row.now ≡ hold_shown g → IsLawfulGrant g
            → OrUnavailable result (λ hold. hold ≡ as_hold g) }
        ensures stands { IfOk result (λ hold. HasValues row.now 0 (held_shown hold)) }
        ensures lawful { IfOk result IsLawfulHold }
    {
        let grant = number_at(row, 0)?;
        let job = number_at(row, 1)?;
        if 1 <= grant && grant < PAST_GRANTS && 1 <= job && job < PAST_JOBS {
            Ok(Hold { grant, job })
        } else {
            Err(StoreFault::Strange)
        }
    }
}
