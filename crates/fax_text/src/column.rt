//! Columns of a listing.

ghost use Rattle.std.specs.Prelude.{◌≡◌, ◌++◌, ◌∷◌, [], OnOk, map, replicate};
ghost use Rattle.std.specs.Str.{chars};
ghost use Rattle.fax_text.specs.Column.{left, right, shown, zeros};

use itoa::Buffer;
use std::alloc::AllocError;

/// Adds a text at the right of a column: spaces, and then the text.
pub(crate) fn push_right(text: &mut Vec<u8>, width: usize, field: &str) -> Result<(), AllocError>
    ensures { OnOk result (text.new.items ≡ text.old.items ++ right width field.now) }
{
    push_fill(text, b' ', width.saturating_sub(field.len()))?;
    text.extend_from_slice(field.as_bytes())
}

/// Adds a text at the left of a column: its first characters, and then spaces.
pub(crate) fn push_left(text: &mut Vec<u8>, width: usize, field: &str) -> Result<(), AllocError>
    ensures { OnOk result (text.new.items ≡ text.old.items ++ left width (chars field.now)) }
{
    text.extend(field.chars().take(width).map(shown))?;
    push_fill(text, b' ', width.saturating_sub(field.chars().count()))
}

/// Adds a text as it shows.
pub(crate) fn push_shown(text: &mut Vec<u8>, field: &str) -> Result<(), AllocError>
    ensures { OnOk result (text.new.items ≡ text.old.items ++ map shown (chars field.now)) }
{
    text.extend(field.chars().map(shown))
}

/// Adds a number with zeros in front, up to so many digits.
pub(crate) fn push_zeros(text: &mut Vec<u8>, width: usize, number: u16) -> Result<(), AllocError>
    ensures { OnOk result (text.new.items ≡ text.old.items ++ zeros width number) }
{
    let mut buffer = Buffer::new();
    let digits = buffer.format(number);
    push_fill(text, b'0', width.saturating_sub(digits.len()))?;
    text.extend_from_slice(digits.as_bytes())
}

fn push_fill(text: &mut Vec<u8>, fill: u8, count: usize) -> Result<(), AllocError>
    ensures { OnOk result (text.new.items ≡ text.old.items ++ replicate count fill) }
{
    for _ in 0..count {
        text.push(fill)?;
    }
    Ok(())
}

/// How a character shows: as itself in ASCII's printable ones, else as `?`.
fn shown(character: char) -> u8
    ensures { result ≡ shown character }
{
    if (' '..='~').contains(&character) {
        character as u8
    } else {
        b'?'
    }
}
