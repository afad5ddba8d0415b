//! Imports, what an older queue recorded of a job.

ghost use Rattle.std.specs.Prelude.{◌≡◌};
ghost use Rattle.fax_job.specs.Import.{count_in, npages_in, ntries_in, tottries_in, ndials_in, totdials_in, state_in, raised};

use crate::lines::Lines;
use crate::order::{Order, OrderFault};
use crate::values::number_within;
use fax_value::Status;
use fax_value::limits::{MOST_ATTEMPTS, MOST_PAGES};
use std::alloc::Global;

/// What an older queue recorded of a job: its order, and how far it had come.
#[derive(Drop)]
pub struct Import {
    /// What the job asks for. Its limits are at least what is used of them.
    pub order: Order,
    /// Pages sent, at most all of them.
    pub npages: u16,
    /// Tries of the page that is next.
    pub ntries: u16,
    /// At least `ntries`, at most 1000.
    pub tottries: u16,
    /// Dials since the last connected call.
    pub ndials: u16,
    /// At least `ndials`, at most 1000.
    pub totdials: u16,
    /// The number of the state in which the job stood there, from 1 to 8 by sendq(5).
    pub state: u8,
    pub status: Status,
}

impl Lines {
    ghost use Rattle.std.specs.Prelude.{◌≡◌};
    ghost use Rattle.fax_value.specs.Gives.{Gives};
    ghost use Rattle.fax_job.specs.Import.{import_of};
    ghost use Rattle.fax_job.specs.Order.{is_no_memory};

    /// The import that the lines state. The tags are looked at in the order of [`Lines::to_order`], then
    /// npages, ntries, tottries, ndials, totdials, state, whatever the order of the lines. More pages sent
    /// than there are count as all. A number in all that is less than its part in a row is raised to it,
    /// and then a limit to what is used of it.
    ///
    /// # Errors
    ///
    /// The fault of the first tag that has one.
    #[tactic(auto, unfolding(crate::specs::Import::import_of))]
    pub fn to_import(&self, alloc: Global) -> Result<Import, OrderFault>
        ensures { Gives is_no_memory result (import_of self.now) }
    {
        let order = self.to_order(alloc)?;
        let npages = npages_of(self.value("npages"), order.totpages)?;
        let ntries = ntries_of(self.value("ntries"))?;
        let tottries = tottries_of(self.value("tottries"))?;
        let ndials = ndials_of(self.value("ndials"))?;
        let totdials = totdials_of(self.value("totdials"))?;
        let state = state_of(self.value("state"))?;
        let status = Status::given(alloc, self.status())?;
        Ok(raised(Import {
            order,
            npages,
            ntries,
            tottries,
            ndials,
            totdials,
            state,
            status,
        }))
    }
}

/// The pages sent, at most all.
#[tactic(auto, unfolding(crate::specs::Import::npages_in))]
fn npages_of(value: &str, totpages: u16) -> Result<u16, OrderFault>
    ensures { result ≡ npages_in value.now totpages }
{
    match count_of(value, MOST_PAGES) {
        Some(pages) => Ok(pages.min(totpages)),
        None => Err(OrderFault::BadNpages),
    }
}

#[tactic(auto, unfolding(crate::specs::Import::ntries_in))]
fn ntries_of(value: &str) -> Result<u16, OrderFault>
    ensures { result ≡ ntries_in value.now }
{
    count_of(value, MOST_ATTEMPTS).ok_or(OrderFault::BadNtries)
}

#[tactic(auto, unfolding(crate::specs::Import::tottries_in))]
fn tottries_of(value: &str) -> Result<u16, OrderFault>
    ensures { result ≡ tottries_in value.now }
{
    count_of(value, MOST_ATTEMPTS).ok_or(OrderFault::BadTottries)
}

#[tactic(auto, unfolding(crate::specs::Import::ndials_in))]
fn ndials_of(value: &str) -> Result<u16, OrderFault>
    ensures { result ≡ ndials_in value.now }
{
    count_of(value, MOST_ATTEMPTS).ok_or(OrderFault::BadNdials)
}

#[tactic(auto, unfolding(crate::specs::Import::totdials_in))]
fn totdials_of(value: &str) -> Result<u16, OrderFault>
    ensures { result ≡ totdials_in value.now }
{
    count_of(value, MOST_ATTEMPTS).ok_or(OrderFault::BadTotdials)
}

/// The number of a state, 2 where there is none.
#[tactic(auto, unfolding(crate::specs::Import::state_in))]
fn state_of(value: &str) -> Result<u8, OrderFault>
    ensures { result ≡ state_in value.now }
{
    if value.is_empty() {
        return Ok(2);
    }
    match number_within(value, 8) {
        Some(0) => Err(OrderFault::BadState),
        Some(state) => Ok(state as u8),
        None => Err(OrderFault::BadState),
    }
}

/// The number that the value writes, where it is at most the greatest; 0 where there is none.
#[tactic(auto, unfolding(crate::specs::Import::count_in))]
fn count_of(value: &str, greatest: u16) -> Option<u16>
    ensures { result ≡ count_in value.now greatest }
{
    if value.is_empty() {
        return Some(0);
    }
    let count = number_within(value, u64::from(greatest))?;
    Some(count as u16)
}

/// The import with its numbers in all, and then its limits, raised to what they have to cover.
fn raised(mut import: Import) -> Import
    ensures { result ≡ raised import }
{
    import.tottries = import.tottries.max(import.ntries);
    import.totdials = import.totdials.max(import.ndials);
    import.order.maxtries = import.order.maxtries.max(import.tottries);
    import.order.maxdials = import.order.maxdials.max(import.totdials);
    import
}
