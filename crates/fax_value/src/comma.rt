//! Lists of items with commas between them, and blanks round them that mean nothing.

ghost use Rattle.std.specs.Prelude.{◌≡◌, ◌∷◌, ◌<◌, ◌≤◌, ◌==◌, MatchOption, length};
ghost use Rattle.std.specs.List.{position_or_len};
ghost use Rattle.std.specs.Option.{option_copied};
ghost use Rattle.fax_value.specs.Blank.{without_blanks, before_blanks, trimmed};
ghost use Rattle.fax_value.specs.Comma.{parts_of, parts_left};

use crate::blank::is_blank;

/// What stands before the first comma, and what stands behind it.
pub fn at_comma(text: &[u8]) -> (&[u8], Option<&[u8]>)
    ensures parts { parts_of text.now ≡ result.0.now ∷ parts_left (option_copied result.1) }
    ensures shorter { MatchOption result.1 (length text.now ≡ length text.now) (λ after. length after.now < length text.now) }
{
    let at = comma_at(text);
    if at < text.len() {
        (&text[..at], Some(&text[at + 1..]))
    } else {
        (text, None)
    }
}

/// The place of the first comma, else the text's length.
fn comma_at(text: &[u8]) -> usize
    ensures place { result ≡ position_or_len (λ byte. byte == 44) text.now }
    ensures bound { result ≤ length text.now }
{
    let mut rest = text;
    while let [byte, after @ ..] = rest
        && *byte != b','
    {
        rest = after;
    }
    text.len() - rest.len()
}

/// The bytes without the blanks at their ends.
pub fn trimmed(text: &[u8]) -> &[u8]
    ensures { result.now ≡ trimmed text.now }
{
    before_blanks(without_blanks(text))
}

/// The bytes from the first on that isn't a blank.
fn without_blanks(text: &[u8]) -> &[u8]
    ensures { result.now ≡ without_blanks text.now }
{
    let mut rest = text;
    while let [byte, after @ ..] = rest
        && is_blank(*byte)
    {
        rest = after;
    }
    rest
}

/// The bytes up to the last that isn't a blank.
#[tactic(auto, unfolding(crate::specs::Blank::before_blanks))]
fn before_blanks(text: &[u8]) -> &[u8]
    ensures { result.now ≡ before_blanks text.now }
{
    let mut front = text;
    while let [before @ .., byte] = front
        && is_blank(*byte)
    {
        front = before;
    }
    front
}
