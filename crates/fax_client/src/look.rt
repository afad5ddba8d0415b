//! What a modem's grant has, read from the listing of the modems.

ghost use Rattle.std.specs.Prelude.{◌≤◌, IfSome};
ghost use Rattle.fax_value.specs.Limits.{most_pages};

use fax_job::limits::MOST_PAGES;
use fax_job::{Call, read_number};
use fax_worker::Look;

/// What the listing says of the call and the confirmed pages of this modem's grant, if it shows that grant.
///
/// No clause says that this is what the queue has. A worker whose journal was lost relies on it: it continues with the page
/// after the confirmed ones, and makes no second call. `checks/run journals.lost-journals` tries it.
pub(crate) fn look_in(listing: &str, modem: &str, grant: u32) -> Option<Look> {
    for line in listing.lines() {
        if let Some(rest) = line.strip_prefix(modem)
            && let Some(state) = rest.strip_prefix(":")
        {
            return look_of(state, grant);
        }
    }
    None
}

/// What the state of a modem says of that grant: `up grant G job J number N pages A-B call C confirmed K`.
fn look_of(state: &str, grant: u32) -> Option<Look> {
    let (_, held) = state.split_once(" grant ")?;
    let (number, rest) = held.split_once(" ")?;
    if read_number(number.as_bytes())? != u64::from(grant) {
        return None;
    }
    let (_, rest) = rest.split_once(" call ")?;
    let (call, pages) = rest.split_once(" confirmed ")?;
    let pages = read_number(pages.as_bytes())?;
    if u64::from(MOST_PAGES) < pages {
        return None;
    }
    Some(Look::new(call_said(call)?, pages as u16))
}

/// The result of a call that a word says, if one is known.
fn call_said(word: &str) -> Option<Option<Call>> {
    match word {
        "none" => Some(None),
        _ => Some(Some(call_named(word)?)),
    }
}

/// The result of a call of that name.
pub(crate) fn call_named(word: &str) -> Option<Call> {
    match word {
        "connected" => Some(Call::Connected),
        "busy" => Some(Call::Busy),
        "no-answer" => Some(Call::NoAnswer),
        "no-carrier" => Some(Call::NoCarrier),
        "other" => Some(Call::Other),
        _ => None,
    }
}
