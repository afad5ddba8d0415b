//! Items of hours: days, and a range of minutes on each of them.

ghost use Rattle.std.specs.Prelude.{◌≡◌};
ghost use Rattle.fax_hours.specs.Item.{item_of, letter_count, range_or_all};

use crate::days::days_of;
use crate::hours::HoursFault;
use crate::range::{Range, range_of};
use fax_value::trimmed;

/// Days, with bit d for day d, and the minutes on each of them.
#[derive(Clone, Copy)]
pub(crate) struct Item {
    pub(crate) days: u8,
    pub(crate) range: Range,
}

/// The item that a text names, blanks round it aside.
#[tactic(auto, unfolding(crate::specs::Item::item_of))]
pub(crate) fn item_of(text: &[u8]) -> Result<Item, HoursFault>
    ensures { result ≡ item_of text.now }
{
    let text = trimmed(text);
    if text.is_empty() {
        return Err(HoursFault::Empty);
    }
    let end = letter_count(text);
    let Some(days) = days_of(&text[..end]) else {
        return Err(HoursFault::Day);
    };
    let Some(range) = range_or_all(&text[end..]) else {
        return Err(HoursFault::Range);
    };
    Ok(Item { days, range })
}

/// How many letters the text begins with.
fn letter_count(text: &[u8]) -> usize
    ensures { result ≡ letter_count text.now }
{
    let mut rest = text;
    while let [byte, after @ ..] = rest
        && byte.is_ascii_alphabetic()
    {
        rest = after;
    }
    text.len() - rest.len()
}

/// The range that stands behind the days; none is the whole day.
#[tactic(auto, unfolding(crate::specs::Item::range_or_all))]
fn range_or_all(text: &[u8]) -> Option<Range>
    ensures { result ≡ range_or_all text.now }
{
    if text.is_empty() {
        Some(Range {
            start: 0,
            end: 1440,
        })
    } else {
        range_of(text)
    }
}
