//! Why a run ended before its answer was written.
use line_reader::Stop;
use std::alloc::{AllocError, AllocFailed};
use std::error::Error;
use std::fmt;

/// What ended a run early. It is printed on standard error.
#[derive(Clone, Copy, Debug, PartialEq, Eq)]
pub enum Fault {
    /// A read failed, or the input did not end within the most reads.
    Reading,
    /// A write failed. A write that takes no byte has failed.
    Writing,
    /// Out of memory.
    Memory,
}

impl fmt::Display for Fault {
    ghost use Rattle.std.specs.Prelude.{Some};
    ghost use Rattle.document_requests.specs.Faults.{fault_message};

    ghost output = { λ fault. Some (fault_message fault) };

    fn fmt<W: fmt::Write>(&self, f: &mut fmt::Formatter<W>) -> fmt::Result {
        match self {
            Fault::Reading => write!(f, "fault: reading"),
            Fault::Writing => write!(f, "fault: writing"),
            Fault::Memory => write!(f, "fault: memory"),
        }
    }
}

impl Error for Fault {}

impl From<AllocError> for Fault {
    ghost use Rattle.document_requests.specs.declared.fault.Fault.TheVariants.{Memory};
    ghost use Rattle.std.specs.Prelude.{◌≡◌};

    ghost from_gives = { λ _ fault. fault ≡ Memory };

    fn from(_refused: AllocError) -> Fault {
        Fault::Memory
    }
}

impl<T: Drop> From<AllocFailed<T>> for Fault {
    ghost use Rattle.document_requests.specs.declared.fault.Fault.TheVariants.{Memory};
    ghost use Rattle.std.specs.Prelude.{◌≡◌};

    ghost from_gives = { λ _ fault. fault ≡ Memory };

    fn from(_refused: AllocFailed<T>) -> Fault {
        Fault::Memory
    }
}

impl From<Stop> for Fault {
    ghost use Rattle.document_requests.specs.Faults.{fault_of_stop};
    ghost use Rattle.std.specs.Prelude.{◌≡◌};

    ghost from_gives = { λ stop fault. fault ≡ fault_of_stop stop };

    fn from(stop: Stop) -> Fault {
        match stop {
            Stop::Reading => Fault::Reading,
            Stop::Writing => Fault::Writing,
            Stop::Memory => Fault::Memory,
        }
    }
}
