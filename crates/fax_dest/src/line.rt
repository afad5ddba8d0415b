//! Lines and values, which setup and controls have in common.

ghost use Rattle.std.specs.Prelude.{◌≡◌, ◌≤◌, IfOk, Some, None, Ok, Err};
ghost use Rattle.std.specs.Option.{option_map, option_copied};
ghost use Rattle.fax_value.specs.Blank.{begins_with_blank, trimmed};
ghost use Rattle.fax_dest.specs.Line.{at_byte, at_blank, is_skipped, is_nothing, value_of, inside_quotes, number_in};

use crate::fault::FileKind;
use fax_job::{before_blanks, begins_with_blank, is_of_blanks, read_number, without_blanks};

/// Whether a line has blanks alone, or `#` as its first other character.
#[tactic(auto, unfolding(crate::specs::Line::is_skipped))]
pub(crate) fn is_skipped(line: &str) -> bool
    ensures { result ≡ is_skipped line.now }
{
    is_nothing(without_blanks(line).as_bytes())
}

fn is_nothing(text: &[u8]) -> bool
    ensures { result ≡ is_nothing text.now }
{
    match text {
        [byte, ..] => *byte == b'#',
        [] => true,
    }
}

/// Whether a line begins with a blank, so that it adds to the rule above it.
pub(crate) fn is_indented(line: &str) -> bool
    ensures { result ≡ begins_with_blank line.now }
{
    begins_with_blank(line.as_bytes())
}

/// What stands before and behind the first `:`.
pub(crate) fn at_colon(text: &str) -> Option<(&str, &str)>
    ensures { option_map (λ parts. (parts.0.now, parts.1.now)) result ≡ at_byte 58 text.now }
{
    text.split_once(':')
}

/// What stands before and behind the first `=`.
pub(crate) fn at_equals(text: &str) -> Option<(&str, &str)>
    ensures { option_map (λ parts. (parts.0.now, parts.1.now)) result ≡ at_byte 61 text.now }
{
    text.split_once('=')
}

fn at_quote(text: &str) -> Option<(&str, &str)>
    ensures { option_map (λ parts. (parts.0.now, parts.1.now)) result ≡ at_byte 34 text.now }
{
    text.split_once('"')
}

/// The first word of a line, and what stands behind the blank that ends it.
pub(crate) fn at_blank(line: &str) -> (&str, &str)
    ensures { (result.0.now, result.1.now) ≡ at_blank line.now }
{
    match (line.split_once(' '), line.split_once('\t')) {
        (None, None) => (line, ""),
        (Some(at_space), None) => at_space,
        (None, Some(at_tab)) => at_tab,
        (Some(at_space), Some(at_tab)) => {
            if at_space.0.len() < at_tab.0.len() {
                at_space
            } else {
                at_tab
            }
        }
    }
}

/// The value that stands behind a name: what is within quotes, or the text to its end without the
/// blanks round it. None is a fault of the quotes.
#[tactic(auto, unfolding(crate::specs::Line::value_of))]
pub(crate) fn value_of(text: &str) -> Option<&str>
    ensures { option_copied result ≡ value_of text.now }
{
    let text = without_blanks(text);
    match text.strip_prefix('"') {
        Some(rest) => inside_quotes(rest),
        None => Some(before_blanks(text)),
    }
}

/// The text up to the next `"`, behind which only blanks stand.
fn inside_quotes(text: &str) -> Option<&str>
    ensures { option_copied result ≡ inside_quotes (at_byte 34 text.now) }
{
    let (inside, behind) = at_quote(text)?;
    if is_of_blanks(behind.as_bytes()) {
        Some(inside)
    } else {
        None
    }
}

/// The text without the blanks round it.
pub(crate) fn trimmed(text: &str) -> &str
    ensures { result.now ≡ trimmed text.now }
{
    before_blanks(without_blanks(text))
}

/// The number of 1 to 18 digits that a value writes, within bounds.
#[tactic(auto, unfolding(crate::specs::Line::number_in))]
pub(crate) fn number_in(from: u32, to: u32, value: &str) -> Result<u32, FileKind>
    ensures value { result ≡ number_in from to value.now }
    ensures bound { IfOk result (λ number. (from ≤ number) × (number ≤ to)) }
{
    match read_number(value.as_bytes()) {
        Some(number) if u64::from(from) <= number && number <= u64::from(to) => Ok(number as u32),
        _ => Err(FileKind::BadValue),
    }
}
