//! Days of the week as texts name them.

ghost use Rattle.std.specs.Prelude.{◌≡◌};
ghost use Rattle.fax_hours.specs.Days.{is_word, day_of, joined, days_of};

/// The set of days that a text names, with bit d for day d, where Sunday is day 0.
#[tactic(auto, unfolding(crate::specs::Days::days_of))]
pub(crate) fn days_of(text: &[u8]) -> Option<u8>
    ensures { result ≡ days_of text.now }
{
    if is_word(text, b"any") {
        Some(127)
    } else if is_word(text, b"never") {
        Some(0)
    } else if text.is_empty() {
        None
    } else {
        joined(text)
    }
}

/// The union of the words of two letters that stand side by side.
#[tactic(auto, unfolding(crate::specs::Days::joined))]
fn joined(text: &[u8]) -> Option<u8>
    ensures { result ≡ joined text.now }
{
    let mut days = 0;
    let mut rest = text;
    while let [first, second, after @ ..] = rest {
        days |= day_of(&[*first, *second])?;
        rest = after;
    }
    if rest.is_empty() { Some(days) } else { None }
}

#[tactic(auto, unfolding(crate::specs::Days::day_of))]
fn day_of(word: &[u8]) -> Option<u8>
    ensures { result ≡ day_of word.now }
{
    if is_word(word, b"wk") {
        Some(62)
    } else if is_word(word, b"su") {
        Some(1)
    } else if is_word(word, b"mo") {
        Some(2)
    } else if is_word(word, b"tu") {
        Some(4)
    } else if is_word(word, b"we") {
        Some(8)
    } else if is_word(word, b"th") {
        Some(16)
    } else if is_word(word, b"fr") {
        Some(32)
    } else if is_word(word, b"sa") {
        Some(64)
    } else {
        None
    }
}

/// Whether the text is the word, letter case aside.
fn is_word(text: &[u8], word: &[u8]) -> bool
    ensures { result ≡ is_word text.now word.now }
{
    text.eq_ignore_ascii_case(word)
}
