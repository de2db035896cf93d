//! The errors of building and executing a plan.
use std::alloc::{AllocError, AllocFailed};
use std::error::Error;
use std::fmt;

/// The error type of [`Plan::build`](crate::plan::Plan::build).
#[derive(Clone, Copy, Debug, PartialEq, Eq)]
pub enum PlanError {
    /// Two changes replace the same element.
    Intersecting = 1,
    /// A change inside a replaced node has no place in the payload.
    MissingMapping = 2,
    /// Out of memory.
    NoMemory = 3,
}

impl fmt::Display for PlanError {
    ghost use Rattle.std.specs.Prelude.{Some};
    ghost use Rattle.tree_rewrite.specs.Plan.{message_of};

    ghost output = { λ e. Some (message_of e) };

    fn fmt<W: fmt::Write>(&self, f: &mut fmt::Formatter<W>) -> fmt::Result {
        match self {
            PlanError::Intersecting => write!(f, "two changes replace one element"),
            PlanError::MissingMapping => {
                write!(
                    f,
                    "a change in a replaced node has no place in what replaces it"
                )
            }
            PlanError::NoMemory => write!(f, "out of memory"),
        }
    }
}

impl Error for PlanError {}

impl From<AllocError> for PlanError {
    ghost use Rattle.tree_rewrite.specs.declared.error.PlanError.TheVariants.{NoMemory};
    ghost use Rattle.std.specs.Prelude.{◌≡◌};

    ghost from_gives = { λ _ e. e ≡ NoMemory };

    fn from(_e: AllocError) -> PlanError {
        PlanError::NoMemory
    }
}

impl<T: Drop> From<AllocFailed<T>> for PlanError {
    ghost use Rattle.tree_rewrite.specs.declared.error.PlanError.TheVariants.{NoMemory};
    ghost use Rattle.std.specs.Prelude.{◌≡◌};

    ghost from_gives = { λ _ e. e ≡ NoMemory };

    fn from(_e: AllocFailed<T>) -> PlanError {
        PlanError::NoMemory
    }
}

/// The error type of [`Plan::execute`](crate::plan::Plan::execute).
#[derive(Clone, Copy, Debug, PartialEq, Eq)]
pub enum ExecuteError {
    /// A new node would have 2^32 or more bytes of text, or 2^32 or more children.
    TooLong = 1,
    /// Out of memory.
    NoMemory = 2,
}

impl fmt::Display for ExecuteError {
    ghost use Rattle.std.specs.Prelude.{Some};
    ghost use Rattle.tree_rewrite.specs.Fits.{execute_message};

    ghost output = { λ e. Some (execute_message e) };

    fn fmt<W: fmt::Write>(&self, f: &mut fmt::Formatter<W>) -> fmt::Result {
        match self {
            ExecuteError::TooLong => write!(f, "too long"),
            ExecuteError::NoMemory => write!(f, "out of memory"),
        }
    }
}

impl Error for ExecuteError {}

impl From<AllocError> for ExecuteError {
    ghost use Rattle.tree_rewrite.specs.declared.error.ExecuteError.TheVariants.{NoMemory};
    ghost use Rattle.std.specs.Prelude.{◌≡◌};

    ghost from_gives = { λ _ e. e ≡ NoMemory };

    fn from(_e: AllocError) -> ExecuteError {
        ExecuteError::NoMemory
    }
}

impl<T: Drop> From<AllocFailed<T>> for ExecuteError {
    ghost use Rattle.tree_rewrite.specs.declared.error.ExecuteError.TheVariants.{NoMemory};
    ghost use Rattle.std.specs.Prelude.{◌≡◌};

    ghost from_gives = { λ _ e. e ≡ NoMemory };

    fn from(_e: AllocFailed<T>) -> ExecuteError {
        ExecuteError::NoMemory
    }
}
