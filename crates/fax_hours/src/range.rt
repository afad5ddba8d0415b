//! Ranges of the minutes of a day.

ghost use Rattle.std.specs.Prelude.{◌≡◌, length};
ghost use Rattle.fax_hours.specs.Range.{minute_of, end_of, range_of};

use fax_value::read_number;

/// The minutes from a start on and before an end. Where the start isn't before the end, those from the
/// start to midnight and from midnight to the end.
#[derive(Clone, Copy)]
pub(crate) struct Range {
    pub(crate) start: u16,
    pub(crate) end: u16,
}

impl Range {
    ghost use Rattle.std.specs.Prelude.{◌≡◌};
    ghost use Rattle.fax_hours.specs.Range.{has_minute};

    pub(crate) fn has_minute(self, minute: u16) -> bool
        ensures { result ≡ has_minute self minute }
    {
        if self.start < self.end {
            self.start <= minute && minute < self.end
        } else {
            self.start <= minute || minute < self.end
        }
    }
}

/// The range that a text `hhmm-hhmm` writes.
#[tactic(auto, unfolding(crate::specs::Range::range_of))]
pub(crate) fn range_of(text: &[u8]) -> Option<Range>
    ensures { result ≡ range_of text.now }
{
    if text.len() != 9 || text[4] != b'-' {
        return None;
    }
    let start = minute_of(&text[..4])?;
    let end = end_of(&text[5..])?;
    Some(Range { start, end })
}

/// The minute of the day that four digits write.
#[tactic(auto, unfolding(crate::specs::Range::minute_of))]
fn minute_of(text: &[u8]) -> Option<u16>
    requires { length text.now ≡ 4 }
    ensures { result ≡ minute_of text.now }
{
    let hour = read_number(&text[..2])?;
    let minute = read_number(&text[2..])?;
    if hour <= 23 && minute <= 59 {
        Some(hour as u16 * 60 + minute as u16)
    } else {
        None
    }
}

/// The same of a range's end, which may be 2400.
#[tactic(auto, unfolding(crate::specs::Range::end_of))]
fn end_of(text: &[u8]) -> Option<u16>
    requires { length text.now ≡ 4 }
    ensures { result ≡ end_of text.now }
{
    if text == b"2400".as_slice() {
        Some(1440)
    } else {
        minute_of(text)
    }
}
