//! Blanks, which are spaces and tabs, and texts without those at their ends.

ghost use Rattle.std.specs.Prelude.{◌≡◌, ◌<◌, length, IfSome, IfNone};
ghost use Rattle.std.specs.List.{list_all};
ghost use Rattle.fax_value.specs.Blank.{is_blank, begins_with_blank, without_blanks, before_blanks};

pub fn is_blank(byte: u8) -> bool
    ensures { result ≡ is_blank byte }
{
    byte == b' ' || byte == b'\t'
}

pub fn begins_with_blank(text: &[u8]) -> bool
    ensures { result ≡ begins_with_blank text.now }
{
    match text {
        [byte, ..] => is_blank(*byte),
        [] => false,
    }
}

/// Whether a text has blanks alone.
pub fn is_of_blanks(text: &[u8]) -> bool
    ensures { result ≡ list_all is_blank text.now }
{
    text.iter().all(|byte| is_blank(*byte))
}

/// The text from its first character on that isn't a blank.
pub fn without_blanks(text: &str) -> &str
    ensures { result.now ≡ without_blanks text.now }
{
    let mut rest = text;
    while let Some(after) = after_blank(rest) {
        rest = after;
    }
    rest
}

fn after_blank(text: &str) -> Option<&str>
    ensures some { IfSome result (λ rest. without_blanks text.now ≡ without_blanks rest.now) }
    ensures none { IfNone result (without_blanks text.now ≡ text.now) }
    ensures shorter { IfSome result (λ rest. length rest.now < length text.now) }
{
    match text.strip_prefix(' ') {
        Some(rest) => Some(rest),
        None => text.strip_prefix('\t'),
    }
}

/// The text up to its last character that isn't a blank.
pub fn before_blanks(text: &str) -> &str
    ensures { result.now ≡ before_blanks text.now }
{
    let mut front = text;
    while let Some(before) = before_blank(front) {
        front = before;
    }
    front
}

fn before_blank(text: &str) -> Option<&str>
    ensures some { IfSome result (λ front. before_blanks text.now ≡ before_blanks front.now) }
    ensures none { IfNone result (before_blanks text.now ≡ text.now) }
    ensures shorter { IfSome result (λ front. length front.now < length text.now) }
{
    match text.strip_suffix(' ') {
        Some(front) => Some(front),
        None => text.strip_suffix('\t'),
    }
}
