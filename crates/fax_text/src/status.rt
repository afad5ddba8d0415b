//! The exit status of a command.
use std::process::ExitCode;

/// The exit status of a command.
#[derive(Clone, Copy, Debug, PartialEq, Eq)]
pub enum Status {
    Success = 0,
    Fault = 1,
    Usage = 2,
    /// All is done, and something that was read isn't used.
    Unused = 3,
    /// No answer has come yet. The same command goes on where this one stopped.
    Later = 4,
}

impl From<Status> for ExitCode {
    ghost use Rattle.std.specs.Prelude.{◌≡◌};
    ghost use Rattle.std.specs.Process.{exit_status};
    ghost use Rattle.fax_text.specs.Status.{status_number};

    ghost from_gives = { λ status code. exit_status code ≡ status_number status };

    fn from(status: Status) -> ExitCode {
        ExitCode::from(status as u8)
    }
}
