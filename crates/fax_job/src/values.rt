//! The values of an order, tag by tag. An empty value counts as none.

ghost use Rattle.std.specs.Prelude.{◌≡◌, ◌≤◌, IfSome};
ghost use Rattle.fax_value.specs.Gives.{Gives, Tells};
ghost use Rattle.fax_job.specs.Order.{is_no_memory, fault_of, number_within, dial_in, modem_in, jobtag_in, moment_in, tts_in, killtime_in, priority_in, totpages_in, limit_in, maxtries_in, maxdials_in};

use crate::order::OrderFault;
use fax_value::limits::{LAST_MOMENT, MOST_ATTEMPTS, MOST_PAGES};
use fax_value::{Dial, JobTag, Moment, Name, TextFault, read_number};
use std::alloc::Global;

/// The fault of an order whose text is at fault: this one, where the text is bad.
fn fault_of(bad: OrderFault, fault: TextFault) -> OrderFault
    ensures { result ≡ fault_of bad fault }
{
    match fault {
        TextFault::Bad => bad,
        TextFault::NoMemory => OrderFault::NoMemory,
    }
}

#[tactic(auto, unfolding(crate::specs::Order::dial_in))]
pub(crate) fn dial_of(alloc: Global, value: &str) -> Result<Dial, OrderFault>
    ensures read { Gives is_no_memory result (dial_in value.now) }
    ensures told { Tells result (dial_in value.now) }
{
    if value.is_empty() {
        return Err(OrderFault::NoNumber);
    }
    match Dial::read(alloc, value) {
        Ok(dial) => Ok(dial),
        Err(fault) => Err(fault_of(OrderFault::BadDial, fault)),
    }
}

/// The modem value; `any` where there is none.
#[tactic(auto, unfolding(crate::specs::Order::modem_in))]
pub(crate) fn modem_of(alloc: Global, value: &str) -> Result<Name, OrderFault>
    ensures read { Gives is_no_memory result (modem_in value.now) }
    ensures told { Tells result (modem_in value.now) }
{
    let name = if value.is_empty() { "any" } else { value };
    match Name::read(alloc, name) {
        Ok(name) => Ok(name),
        Err(fault) => Err(fault_of(OrderFault::BadModem, fault)),
    }
}

#[tactic(auto, unfolding(crate::specs::Order::jobtag_in))]
pub(crate) fn jobtag_of(alloc: Global, value: &str) -> Result<JobTag, OrderFault>
    ensures read { Gives is_no_memory result (jobtag_in value.now) }
    ensures told { Tells result (jobtag_in value.now) }
{
    match JobTag::read(alloc, value) {
        Ok(tag) => Ok(tag),
        Err(fault) => Err(fault_of(OrderFault::BadJobtag, fault)),
    }
}

/// The time to send; none where the value is 0.
#[tactic(auto, unfolding(crate::specs::Order::tts_in))]
pub(crate) fn tts_of(value: &str) -> Result<Option<Moment>, OrderFault>
    ensures { result ≡ tts_in value.now }
{
    moment_of(value).ok_or(OrderFault::BadTts)
}

/// The kill time; none where the value is 0.
#[tactic(auto, unfolding(crate::specs::Order::killtime_in))]
pub(crate) fn killtime_of(value: &str) -> Result<Option<Moment>, OrderFault>
    ensures { result ≡ killtime_in value.now }
{
    moment_of(value).ok_or(OrderFault::BadKilltime)
}

#[tactic(auto, unfolding(crate::specs::Order::moment_in))]
fn moment_of(value: &str) -> Option<Option<Moment>>
    ensures { result ≡ moment_in value.now }
{
    if value.is_empty() {
        return Some(None);
    }
    match number_within(value, u64::from(LAST_MOMENT))? {
        0 => Some(None),
        seconds => Some(Some(Moment::new(seconds))),
    }
}

/// The priority, 127 where there is none.
#[tactic(auto, unfolding(crate::specs::Order::priority_in))]
pub(crate) fn priority_of(value: &str) -> Result<u8, OrderFault>
    ensures { result ≡ priority_in value.now }
{
    if value.is_empty() {
        return Ok(127);
    }
    match number_within(value, 255) {
        Some(priority) => Ok(priority as u8),
        None => Err(OrderFault::BadPriority),
    }
}

/// The number of pages. No job has none.
#[tactic(auto, unfolding(crate::specs::Order::totpages_in))]
pub(crate) fn totpages_of(value: &str) -> Result<u16, OrderFault>
    ensures { result ≡ totpages_in value.now }
{
    if value.is_empty() {
        return Err(OrderFault::NoPages);
    }
    match number_within(value, u64::from(MOST_PAGES)) {
        Some(0) => Err(OrderFault::NoPages),
        Some(pages) => Ok(pages as u16),
        None => Err(OrderFault::BadPages),
    }
}

/// The most tries of a job, 3 where there is none.
#[tactic(auto, unfolding(crate::specs::Order::maxtries_in))]
pub(crate) fn maxtries_of(value: &str) -> Result<u16, OrderFault>
    ensures { result ≡ maxtries_in value.now }
{
    limit_of(value, 3).ok_or(OrderFault::BadMaxtries)
}

/// The most dials of a job, 12 where there is none.
#[tactic(auto, unfolding(crate::specs::Order::maxdials_in))]
pub(crate) fn maxdials_of(value: &str) -> Result<u16, OrderFault>
    ensures { result ≡ maxdials_in value.now }
{
    limit_of(value, 12).ok_or(OrderFault::BadMaxdials)
}

/// The most attempts, the given number where the value is none or 0.
#[tactic(auto, unfolding(crate::specs::Order::limit_in))]
fn limit_of(value: &str, default: u16) -> Option<u16>
    ensures { result ≡ limit_in value.now default }
{
    if value.is_empty() {
        return Some(default);
    }
    match number_within(value, u64::from(MOST_ATTEMPTS))? {
        0 => Some(default),
        limit => Some(limit as u16),
    }
}

/// The number that the value writes, where it is at most the greatest.
#[tactic(auto, unfolding(crate::specs::Order::number_within))]
pub(crate) fn number_within(value: &str, greatest: u64) -> Option<u64>
    ensures value { result ≡ number_within value.now greatest }
    ensures bound { IfSome result (λ number. number ≤ greatest) }
{
    let number = read_number(value.as_bytes())?;
    if number <= greatest {
        Some(number)
    } else {
        None
    }
}
