//! Names of modems, of classes of modems and of clients.

ghost use Rattle.std.specs.Prelude.{◌≡◌, ◌↔◌, ℕ, List, IfOk, IsTrue};
ghost use Rattle.std.specs.List.{list_all};
ghost use Rattle.std.specs.String.{string_bytes};
ghost use Rattle.fax_value.specs.Gives.{Gives, Tells};
ghost use Rattle.fax_value.specs.TextFault.{is_no_memory};
ghost use Rattle.fax_value.specs.Name.{is_name_byte, is_name, IsName, name_of};

use crate::text_fault::TextFault;
use std::alloc::{AllocError, Global};
use std::marker::Model;

/// Whether a text is a name: 1 to 32 bytes of `A-Za-z0-9._-`.
pub fn is_name(text: &[u8]) -> bool
    ensures test { result ≡ is_name text.now }
    ensures name { IsTrue result ↔ IsName text.now }
{
    !text.is_empty() && text.len() <= 32 && is_of_name_bytes(text)
}

fn is_of_name_bytes(text: &[u8]) -> bool
    ensures { result ≡ list_all is_name_byte text.now }
{
    text.iter().all(|byte| is_name_byte(*byte))
}

fn is_name_byte(byte: u8) -> bool
    ensures { result ≡ is_name_byte byte }
{
    byte.is_ascii_alphanumeric() || byte == b'.' || byte == b'_' || byte == b'-'
}

/// The name of a modem or of a class of modems: 1 to 32 bytes of `A-Za-z0-9._-`.
pub struct Name {
    text: String,
}

// By hand, so that a proof lets it go in one step.
impl Drop for Name {
    fn drop(self) {
        let Name { text: _ } = self;
    }
}

impl Model for Name {
    ghost Value = { List ℕ };

    ghost view = { λ name. string_bytes name.text };

    ghost invariant = { λ name. IsName (string_bytes name.text) };
}

impl Name {
    /// The name that the text is.
    pub fn read(alloc: Global, text: &str) -> Result<Name, TextFault>
        ensures read { Gives is_no_memory result (name_of text.now) }
        ensures told { Tells result (name_of text.now) }
    {
        if !is_name(text.as_bytes()) {
            return Err(TextFault::Bad);
        }
        let text = String::from_str(alloc, text)?;
        Ok(Name { text })
    }

    pub fn as_str(&self) -> &str
        ensures text { result.now ≡ self.now }
        ensures formed { IsName self.now }
    {
        self.text.as_str()
    }

    /// The same name, in memory of its own.
    pub fn copy(&self, alloc: Global) -> Result<Name, AllocError>
        ensures { IfOk result (λ name. name ≡ self.now) }
    {
        let text = String::from_str(alloc, self.as_str())?;
        Ok(Name { text })
    }
}
