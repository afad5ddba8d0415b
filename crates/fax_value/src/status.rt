//! Statuses of jobs.

ghost use Rattle.std.specs.Prelude.{◌≡◌, [], IfOk};
ghost use Rattle.fax_value.specs.Gives.{Gives, Tells};
ghost use Rattle.fax_value.specs.TextFault.{is_no_memory};
ghost use Rattle.fax_value.specs.Value.{IsStatus};

use crate::text_fault::TextFault;
use crate::value::is_status;
use std::alloc::{AllocError, Global};
use std::marker::Model;

/// What a job's status line says. The texts that the queue itself gives take no memory.
pub struct Status {
    text: StatusText,
}

// By hand, so that a proof lets it go in one step.
impl Drop for Status {
    fn drop(self) {
        let Status { text: _ } = self;
    }
}

impl Model for Status {
    ghost use Rattle.std.specs.Prelude.{ℕ, List};

    ghost Value = { List ℕ };

    ghost use Rattle.fax_value.specs.Status.{text_of};
    ghost use Rattle.fax_value.specs.Value.{IsStatus};

    ghost view = { λ status. text_of status.text };

    ghost invariant = { λ status. IsStatus (text_of status.text) };
}

#[derive(Drop)]
enum StatusText {
    Empty,
    Killed,
    KillTimeExpired,
    TooManyDials,
    TooManyTries,
    UnableToTransmit,
    Given(String),
}

impl Status {
    ghost use Rattle.fax_value.specs.Status.{killed, kill_time_expired, too_many_dials, too_many_tries, unable_to_transmit, status_of};

    /// The empty text.
    pub fn empty() -> Status
        ensures { result ≡ [] }
    {
        Status {
            text: StatusText::Empty,
        }
    }

    /// `Killed`.
    pub fn killed() -> Status
        ensures { result ≡ killed }
    {
        Status {
            text: StatusText::Killed,
        }
    }

    /// `Kill time expired`.
    pub fn kill_time_expired() -> Status
        ensures { result ≡ kill_time_expired }
    {
        Status {
            text: StatusText::KillTimeExpired,
        }
    }

    /// `Too many attempts to dial`.
    pub fn too_many_dials() -> Status
        ensures { result ≡ too_many_dials }
    {
        Status {
            text: StatusText::TooManyDials,
        }
    }

    /// `Too many attempts to transmit`.
    pub fn too_many_tries() -> Status
        ensures { result ≡ too_many_tries }
    {
        Status {
            text: StatusText::TooManyTries,
        }
    }

    /// `Unable to transmit page`.
    pub fn unable_to_transmit() -> Status
        ensures { result ≡ unable_to_transmit }
    {
        Status {
            text: StatusText::UnableToTransmit,
        }
    }

    /// The status that the text is: no control character but tab and LF, not beginning with a blank,
    /// not ending with `\`.
    pub fn read(alloc: Global, text: &str) -> Result<Status, TextFault>
        ensures read { Gives is_no_memory result (status_of text.now) }
        ensures told { Tells result (status_of text.now) }
    {
        if !is_status(text.as_bytes()) {
            return Err(TextFault::Bad);
        }
        Ok(Status::given(alloc, text)?)
    }

    /// The status of a text that is one. The only error is want of memory.
    pub fn given(alloc: Global, text: &str) -> Result<Status, AllocError>
        requires { IsStatus text.now }
        ensures { IfOk result (λ status. status ≡ text.now) }
    {
        let text = String::from_str(alloc, text)?;
        Ok(Status {
            text: StatusText::Given(text),
        })
    }

    pub fn text(&self) -> &str
        ensures text { result.now ≡ self.now }
        ensures formed { IsStatus self.now }
    {
        match &self.text {
            StatusText::Empty => "",
            StatusText::Killed => "Killed",
            StatusText::KillTimeExpired => "Kill time expired",
            StatusText::TooManyDials => "Too many attempts to dial",
            StatusText::TooManyTries => "Too many attempts to transmit",
            StatusText::UnableToTransmit => "Unable to transmit page",
            StatusText::Given(text) => text.as_str(),
        }
    }
}
