//! Values of key lines.

ghost use Rattle.std.specs.Prelude.{◌≡◌};
ghost use Rattle.std.specs.List.{list_all};
ghost use Rattle.fax_value.specs.Value.{ends_with_backslash, is_plain_byte, is_plain, is_value, is_status_byte, is_status};

use crate::blank::begins_with_blank;

/// Whether no byte is a control character other than a tab.
pub fn is_plain(text: &[u8]) -> bool
    ensures { result ≡ is_plain text.now }
{
    text.iter().all(|byte| is_plain_byte(*byte))
}

/// Whether a text is a value on one line.
pub(crate) fn is_value(text: &[u8]) -> bool
    ensures { result ≡ is_value text.now }
{
    !begins_with_blank(text) && is_plain(text)
}

/// Whether a text is a status: it may hold LF, and doesn't end with `\`.
pub(crate) fn is_status(text: &[u8]) -> bool
    ensures { result ≡ is_status text.now }
{
    !begins_with_blank(text) && !ends_with_backslash(text) && is_of_status_bytes(text)
}

/// Whether a text ends with `\`.
pub fn ends_with_backslash(text: &[u8]) -> bool
    ensures { result ≡ ends_with_backslash text.now }
{
    match text {
        [.., byte] => *byte == b'\\',
        [] => false,
    }
}

fn is_plain_byte(byte: u8) -> bool
    ensures { result ≡ is_plain_byte byte }
{
    (32 <= byte && byte != 127) || byte == b'\t'
}

fn is_of_status_bytes(text: &[u8]) -> bool
    ensures { result ≡ list_all is_status_byte text.now }
{
    text.iter().all(|byte| is_status_byte(*byte))
}

fn is_status_byte(byte: u8) -> bool
    ensures { result ≡ is_status_byte byte }
{
    is_plain_byte(byte) || byte == b'\n'
}
