//! Why a request gets no answer of the queue.

use fax_hours::MomentFault;
use fax_store::StoreFault;
use std::alloc::AllocError;

/// Why a request gets no answer of the queue: refusal 27.
#[derive(Clone, Copy, Debug, PartialEq, Eq)]
pub enum Fault {
    /// Memory or the store gave out.
    NoAnswer,
    /// A row is no lawful record, or rows contradict each other, as in no sound queue.
    Strange,
}

impl From<StoreFault> for Fault {
    ghost use Rattle.std.specs.Prelude.{◌≡◌};
    ghost use Rattle.fax_decide.specs.Fault.{fault_of};

    ghost from_gives = { λ given fault. fault ≡ fault_of given };

    fn from(fault: StoreFault) -> Fault {
        match fault {
            StoreFault::Unavailable => Fault::NoAnswer,
            StoreFault::Strange => Fault::Strange,
        }
    }
}

impl From<AllocError> for Fault {
    ghost use Rattle.std.specs.Prelude.{◌≡◌};
    ghost use Rattle.fax_decide.specs.declared.fault.Fault.TheVariants.{NoAnswer};

    ghost from_gives = { λ _ fault. fault ≡ NoAnswer };

    fn from(_: AllocError) -> Fault {
        Fault::NoAnswer
    }
}

/// Doesn't come about: each moment is within `jiff`'s calendar.
impl From<MomentFault> for Fault {
    ghost use Rattle.std.specs.Prelude.{◌≡◌};
    ghost use Rattle.fax_decide.specs.declared.fault.Fault.TheVariants.{NoAnswer};

    ghost from_gives = { λ _ fault. fault ≡ NoAnswer };

    fn from(_: MomentFault) -> Fault {
        Fault::NoAnswer
    }
}
