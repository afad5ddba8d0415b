//! Names of modems where a path has them.

ghost use Rattle.std.specs.Prelude.{◌≡◌, IfOk, if◌then◌else◌, Some, None, ℕ, List};
ghost use Rattle.fax_value.specs.Name.{IsName, is_name};
ghost use Rattle.fax_job.specs.declared.refusal.Refusal.TheVariants.{Unavailable};
ghost use Rattle.std.specs.Prelude.{IfErr};

use fax_job::{Name, Refusal, TextFault, is_name};
use std::alloc::Global;
use std::marker::Model;

/// The name of a modem, 1 to 32 bytes of `A-Za-z0-9._-`, in the text that it stands in.
#[derive(Drop)]
pub struct ModemName<'a> {
    text: &'a str,
}

impl<'a> Model for ModemName<'a> {
    ghost Value = { List ℕ };

    ghost view = { λ name. name.text.now };

    ghost invariant = { λ name. IsName name.text.now };
}

impl<'a> ModemName<'a> {
    /// The name that the text is.
    pub(crate) fn read(text: &'a str) -> Option<ModemName<'a>>
        ensures { result ≡ (if is_name text.now then Some text.now else None) }
    {
        if is_name(text.as_bytes()) {
            Some(ModemName { text })
        } else {
            None
        }
    }

    /// The name in memory of its own.
    pub(crate) fn keep(self, alloc: Global) -> Result<Name, Refusal>
        ensures kept { IfOk result (λ name. name ≡ self.entry) }
        ensures refused { IfErr result (λ refusal. refusal ≡ Unavailable) }
    {
        match Name::read(alloc, self.text) {
            Ok(name) => Ok(name),
            Err(fault) => {
                // The text is a name.
                prove!(matches!(fault, TextFault::NoMemory));
                Err(Refusal::Unavailable)
            }
        }
    }
}
