//! Times on the command line.

ghost use Rattle.std.specs.Prelude.{◌≡◌, ◌≤◌, ◌<◌, ◌^◌, ◌==◌, IfSome, length};
ghost use Rattle.std.specs.List.{position_or_len};
ghost use Rattle.std.specs.Option.{option_copied};
ghost use Rattle.fax_text.specs.Time.{behind, count_in, instant_in, seconds_in, seconds_named, span_in, time_in};

use fax_job::limits::LAST_MOMENT;
use fax_job::{Moment, read_number};
use jiff::Timestamp;

/// The moment that a text names: `now`, `now + N UNIT` with a unit of `minutes`, `hours` or `days` and 1
/// to 6 digits, or an instant that `jiff` reads, from 1970-01-01T00:00:00Z to 2100-01-01T00:00:00Z.
#[tactic(auto, unfolding(crate::specs::Time::time_in))]
pub(crate) fn time_in(text: &str, now: Moment) -> Option<Moment>
    ensures { result ≡ time_in now text.now }
{
    let seconds = seconds_named(text, now)?;
    if seconds <= u64::from(LAST_MOMENT) {
        Some(Moment::new(seconds))
    } else {
        None
    }
}

#[tactic(auto, unfolding(crate::specs::Time::seconds_named))]
fn seconds_named(text: &str, now: Moment) -> Option<u64>
    ensures { result ≡ seconds_named now text.now }
{
    let now = u64::from(now.seconds());
    if text == "now" {
        return Some(now);
    }
    match behind(b"now + ", text.as_bytes()) {
        Some(span) => Some(now + span_in(span)?),
        None => instant_in(text),
    }
}

/// What stands behind a text's beginning.
#[tactic(auto, unfolding(crate::specs::Time::behind))]
fn behind<'a>(beginning: &[u8], text: &'a [u8]) -> Option<&'a [u8]>
    ensures { option_copied result ≡ behind beginning.now text.now }
{
    text.strip_prefix(beginning)
}

/// How many seconds `N UNIT` is.
#[tactic(auto, unfolding(crate::specs::Time::span_in))]
fn span_in(text: &[u8]) -> Option<u64>
    ensures span { result ≡ span_in text.now }
    ensures bound { IfSome result (λ seconds. seconds < 10 ^ 12) }
{
    let space = space_at(text);
    let count = count_in(&text[..space])?;
    let seconds = seconds_in(text.get(space + 1..)?)?;
    Some(count * seconds)
}

/// The place of the first space, else the text's length.
fn space_at(text: &[u8]) -> usize
    ensures place { result ≡ position_or_len (λ byte. byte == 32) text.now }
    ensures bound { result ≤ length text.now }
{
    let mut rest = text;
    while let [byte, after @ ..] = rest
        && *byte != b' '
    {
        rest = after;
    }
    text.len() - rest.len()
}

fn count_in(text: &[u8]) -> Option<u64>
    ensures count { result ≡ count_in text.now }
    ensures bound { IfSome result (λ count. count < 10 ^ 6) }
{
    if text.len() <= 6 {
        read_number(text)
    } else {
        None
    }
}

/// How many seconds a unit has.
fn seconds_in(unit: &[u8]) -> Option<u64>
    ensures seconds { result ≡ seconds_in unit.now }
    ensures bound { IfSome result (λ seconds. seconds ≤ 86400) }
{
    if unit == b"minutes".as_slice() {
        Some(60)
    } else if unit == b"hours".as_slice() {
        Some(3600)
    } else if unit == b"days".as_slice() {
        Some(86400)
    } else {
        None
    }
}

/// The whole seconds from 1970-01-01T00:00:00Z to an instant, where it isn't before that.
#[tactic(auto, unfolding(crate::specs::Time::instant_in))]
fn instant_in(text: &str) -> Option<u64>
    ensures { result ≡ instant_in text.now }
{
    let instant: Timestamp = text.parse().ok()?;
    if instant.as_nanosecond() < 0 {
        return None;
    }
    Some(instant.as_second() as u64)
}
