//! How a command ends.
ghost use Rattle.std.specs.Prelude.{◌≡◌, ◌∷◌, ◌++◌, []};
ghost use Rattle.fax_ending.specs.Ending.{spoken};
ghost use Rattle.fax_ending.specs.FaultLine.{spelled};

use crate::fault_line::{FaultLine, Place};
use fax_text::Status;

/// How a command ends.
#[derive(Clone, Copy)]
pub struct Ending<'a> {
    pub status: Status,
    /// What it says, where something went wrong.
    pub line: Option<FaultLine<'a>>,
}

impl<'a> Ending<'a> {
    /// All is done, and nothing is said.
    pub fn well() -> Ending<'a>
        ensures status { result.status ≡ Status.Success }
        ensures says { spoken result ≡ [] }
    {
        Ending {
            status: Status::Success,
            line: None,
        }
    }

    /// All is done and nothing is said, but something that was read isn't used.
    pub fn unused() -> Ending<'a>
        ensures status { result.status ≡ Status.Unused }
        ensures says { spoken result ≡ [] }
    {
        Ending {
            status: Status::Unused,
            line: None,
        }
    }

    /// Something went wrong, and this line says what.
    pub fn fault(line: FaultLine<'a>) -> Ending<'a>
        ensures status { result.status ≡ Status.Fault }
        ensures says { spoken result ≡ spelled line.entry }
    {
        Ending {
            status: Status::Fault,
            line: Some(line),
        }
    }

    /// Something went wrong, and a line of these words says what.
    pub fn failed(what: &'a str) -> Ending<'a>
        ensures status { result.status ≡ Status.Fault }
        ensures says { spoken result ≡ what.now ++ 10 ∷ [] }
    {
        Ending::fault(FaultLine::of(what, Place::Nowhere))
    }

    /// No answer has come yet, and a line of these words says so.
    pub fn later(what: &'a str) -> Ending<'a>
        ensures status { result.status ≡ Status.Later }
        ensures says { spoken result ≡ what.now ++ 10 ∷ [] }
    {
        Ending {
            status: Status::Later,
            line: Some(FaultLine::of(what, Place::Nowhere)),
        }
    }

    /// The words of the command are wrong, and this line says how.
    pub fn usage(line: FaultLine<'a>) -> Ending<'a>
        ensures status { result.status ≡ Status.Usage }
        ensures says { spoken result ≡ spelled line.entry }
    {
        Ending {
            status: Status::Usage,
            line: Some(line),
        }
    }
}
