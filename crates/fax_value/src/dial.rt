//! Numbers to dial.

ghost use Rattle.std.specs.Prelude.{◌≡◌, ℕ, ◌<◌, ◌||◌, not, List, length, IfOk, IfSome};
ghost use Rattle.std.specs.List.{list_all, position_from};
ghost use Rattle.std.specs.String.{string_bytes};
ghost use Rattle.fax_value.specs.Gives.{Gives, Tells};
ghost use Rattle.fax_value.specs.TextFault.{is_no_memory};
ghost use Rattle.fax_value.specs.Dial.{is_separator, is_key, are_keys, is_canonical, IsCanonical, without_separators, dial_of};

use crate::text_fault::TextFault;
use std::alloc::{AllocError, Global};
use std::marker::Model;

/// A number to dial in its canonical form: `+` or nothing, then 1 to 32 of the keys `0` to `9`, `*`
/// and `#`.
pub struct Dial {
    text: String,
}

// By hand, so that a proof lets it go in one step.
impl Drop for Dial {
    fn drop(self) {
        let Dial { text: _ } = self;
    }
}

impl Model for Dial {
    ghost Value = { List ℕ };

    ghost view = { λ dial. string_bytes dial.text };

    ghost invariant = { λ dial. IsCanonical (string_bytes dial.text) };
}

/// Why a text gave no number to dial.
pub type DialFault = TextFault;

impl Dial {
    /// The number that a text spells. Spaces, `-`, `.`, `(` and `)` are taken out of it; what remains
    /// is the canonical form.
    pub fn read(alloc: Global, text: &str) -> Result<Dial, DialFault>
        ensures read { Gives is_no_memory result (dial_of text.now) }
        ensures told { Tells result (dial_of text.now) }
    {
        let bytes = text.as_bytes();
        if !spells_number(bytes) {
            return Err(DialFault::Bad);
        }
        let kept = without_separators(alloc, bytes)?;
        let text = String::from_utf8(kept).unwrap();
        Ok(Dial { text })
    }

    /// The canonical form.
    pub fn text(&self) -> &str
        ensures text { result.now ≡ self.now }
        ensures canonical { IsCanonical self.now }
    {
        self.text.as_str()
    }
}

fn without_separators(alloc: Global, text: &[u8]) -> Result<Vec<u8>, AllocError>
    ensures { IfOk result (λ kept. kept.items ≡ without_separators text.now) }
{
    text.iter()
        .copied()
        .filter(|byte| !is_separator(*byte))
        .collect(alloc)
}

fn is_separator(byte: u8) -> bool
    ensures { result ≡ is_separator byte }
{
    byte == b' ' || byte == b'-' || byte == b'.' || byte == b'(' || byte == b')'
}

fn is_key(byte: u8) -> bool
    ensures { result ≡ is_key byte }
{
    byte.is_ascii_digit() || byte == b'*' || byte == b'#'
}

/// Whether a text without its separators is a number in the canonical form.
fn spells_number(text: &[u8]) -> bool
    ensures { result ≡ is_canonical (without_separators text.now) }
{
    match first_kept(text) {
        Some(first) if text[first] == b'+' => spells_keys(&text[first + 1..]),
        _ => spells_keys(text),
    }
}

/// The place of a text's first byte that is no separator.
fn first_kept(text: &[u8]) -> Option<usize>
    ensures place { result ≡ position_from (λ byte. not (is_separator byte)) 0 text.now }
    ensures bound { IfSome result (λ place. place < length text.now) }
{
    text.iter().position(|byte| !is_separator(*byte))
}

/// Whether a text without its separators is 1 to 32 keys.
#[tactic(auto, using(crate::proofs::DialLemmas::keys_kept))]
fn spells_keys(text: &[u8]) -> bool
    ensures { result ≡ are_keys (without_separators text.now) }
{
    let count = count_kept(text);
    1 <= count && count <= 32 && is_of_keys_and_separators(text)
}

/// How many bytes of a text are no separators.
fn count_kept(text: &[u8]) -> usize
    ensures { result ≡ length (without_separators text.now) }
{
    text.iter().filter(|byte| !is_separator(**byte)).count()
}

fn is_of_keys_and_separators(text: &[u8]) -> bool
    ensures { result ≡ list_all (λ byte. is_separator byte || is_key byte) text.now }
{
    text.iter().all(|byte| is_separator(*byte) || is_key(*byte))
}
