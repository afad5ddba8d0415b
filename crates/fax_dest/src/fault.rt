//! What is wrong with a file.

use fax_job::TextFault;
use std::alloc::{AllocError, AllocFailed};
use thiserror::Error;

/// What is wrong with a line of a file.
#[derive(Clone, Copy, Debug, PartialEq, Eq, Error)]
pub enum FileKind {
    /// The whole text isn't UTF-8.
    #[error("not text in UTF-8")]
    NotText,
    /// No name and `:` at the beginning of a line of a setup.
    #[error("no name and colon")]
    NoColon,
    /// A parameter before any rule.
    #[error("a parameter without a rule")]
    NoRule,
    /// A parameter without `=`.
    #[error("no equals sign")]
    NoEquals,
    /// A value in quotes that don't end, or with more behind them.
    #[error("bad quotes")]
    BadQuote,
    #[error("a bad value")]
    BadValue,
    /// A `TimeOfDay` that names no hours.
    #[error("bad hours")]
    BadHours,
    /// A pattern that isn't in the grammar of `regex`, or that nests too deep.
    #[error("a bad pattern")]
    BadPattern,
    /// A pattern that is in the grammar, and that `regex` finds too big.
    #[error("a pattern that is too big")]
    BigPattern,
    /// A text that is no POSIX TZ rule.
    #[error("a bad time zone")]
    BadZone,
    #[error("out of memory")]
    NoMemory,
}

/// The first fault of a file.
#[derive(Clone, Copy, Debug, PartialEq, Eq, Error)]
#[error("line {line}: {kind}")]
pub struct FileFault {
    /// The line, counted from 1; 0 for `NotText`.
    pub line: u64,
    pub kind: FileKind,
}

impl FileKind {
    ghost use Rattle.std.specs.Prelude.{◌≡◌};
    ghost use Rattle.fax_dest.specs.Fault.{kind_word};

    /// The word for it in a message.
    #[tactic(auto, unfolding(crate::specs::Fault::kind_word))]
    pub fn word(self) -> &'static str
        ensures { result.now ≡ kind_word self }
    {
        match self {
            FileKind::NotText => "not-text",
            FileKind::NoColon => "no-colon",
            FileKind::NoRule => "no-rule",
            FileKind::NoEquals => "no-equals",
            FileKind::BadQuote => "bad-quote",
            FileKind::BadValue => "bad-value",
            FileKind::BadHours => "bad-hours",
            FileKind::BadPattern | FileKind::BigPattern => "bad-pattern",
            FileKind::BadZone => "bad-zone",
            FileKind::NoMemory => "no-memory",
        }
    }
}

impl From<AllocError> for FileKind {
    ghost use Rattle.std.specs.Prelude.{◌≡◌};
    ghost use Rattle.fax_dest.specs.declared.fault.FileKind.TheVariants.{NoMemory};

    ghost from_gives = { λ _ kind. kind ≡ NoMemory };

    fn from(_error: AllocError) -> FileKind {
        FileKind::NoMemory
    }
}

impl<T: Drop> From<AllocFailed<T>> for FileKind {
    ghost use Rattle.std.specs.Prelude.{◌≡◌};
    ghost use Rattle.fax_dest.specs.declared.fault.FileKind.TheVariants.{NoMemory};

    ghost from_gives = { λ _ kind. kind ≡ NoMemory };

    fn from(_failed: AllocFailed<T>) -> FileKind {
        FileKind::NoMemory
    }
}

impl From<TextFault> for FileKind {
    ghost use Rattle.std.specs.Prelude.{◌≡◌};
    ghost use Rattle.fax_dest.specs.Fault.{kind_of_text};

    ghost from_gives = { λ fault kind. kind ≡ kind_of_text fault };

    fn from(fault: TextFault) -> FileKind {
        match fault {
            TextFault::Bad => FileKind::BadValue,
            TextFault::NoMemory => FileKind::NoMemory,
        }
    }
}
