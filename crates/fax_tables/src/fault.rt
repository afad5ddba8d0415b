//! Why a call of the store was refused.

ghost use Rattle.std.specs.Prelude.{◌≡◌};
ghost use Rattle.fax_tables.specs.Fault.{fault_of};

use fax_job::{LineFault, LineKind, Refusal, TextFault};
use sqlite::{Error, ErrorCode};
use std::alloc::AllocError;

/// Why a call of the store was refused.
#[derive(Clone, Copy, Debug, PartialEq, Eq)]
pub enum StoreFault {
    /// The database gave no answer, for want of memory or by a fault of its disk, or a work goes on
    /// after a call of it was refused.
    Unavailable,
    /// A row is no lawful record, or one that is new breaks a rule of its table.
    Strange,
}

impl From<Error> for StoreFault {
    ghost use Rattle.std.specs.Prelude.{◌≡◌};
    ghost use Rattle.fax_tables.specs.declared.fault.StoreFault.TheVariants.{Unavailable};

    ghost from_gives = { λ _ fault. fault ≡ Unavailable };

    fn from(_: Error) -> StoreFault {
        StoreFault::Unavailable
    }
}

/// Why a row was not put into its table: it breaks a rule of it, as a key that is taken, or the
/// database gave no answer.
pub fn insert_fault(error: Error) -> StoreFault
    ensures { result ≡ fault_of error }
{
    match error {
        Error::SqliteFailure(ErrorCode::ConstraintViolation(_)) => StoreFault::Strange,
        _ => StoreFault::Unavailable,
    }
}

impl From<AllocError> for StoreFault {
    ghost use Rattle.std.specs.Prelude.{◌≡◌};
    ghost use Rattle.fax_tables.specs.declared.fault.StoreFault.TheVariants.{Unavailable};

    ghost from_gives = { λ _ fault. fault ≡ Unavailable };

    fn from(_: AllocError) -> StoreFault {
        StoreFault::Unavailable
    }
}

impl From<TextFault> for StoreFault {
    ghost use Rattle.std.specs.Prelude.{◌≡◌};
    ghost use Rattle.fax_value.specs.TextFault.{is_no_memory};
    ghost use Rattle.fax_tables.specs.Fault.{fault_by};

    ghost from_gives = { λ given fault. fault ≡ fault_by (is_no_memory given) };

    fn from(fault: TextFault) -> StoreFault {
        match fault {
            TextFault::Bad => StoreFault::Strange,
            TextFault::NoMemory => StoreFault::Unavailable,
        }
    }
}

impl From<LineFault> for StoreFault {
    ghost use Rattle.std.specs.Prelude.{◌≡◌};
    ghost use Rattle.fax_lines.specs.Reading.{is_no_memory};
    ghost use Rattle.fax_tables.specs.Fault.{fault_by};

    ghost from_gives = { λ given fault. fault ≡ fault_by (is_no_memory given) };

    fn from(fault: LineFault) -> StoreFault {
        match fault.kind {
            LineKind::NoMemory => StoreFault::Unavailable,
            _ => StoreFault::Strange,
        }
    }
}

impl From<StoreFault> for Refusal {
    ghost use Rattle.std.specs.Prelude.{◌≡◌};
    ghost use Rattle.fax_job.specs.declared.refusal.Refusal.TheVariants.{Unavailable};

    ghost from_gives = { λ _ refusal. refusal ≡ Unavailable };

    fn from(_: StoreFault) -> Refusal {
        Refusal::Unavailable
    }
}
