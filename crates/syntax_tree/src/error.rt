//! The errors of trees, mappings and positions.
use std::alloc::{AllocError, AllocFailed};
use std::error::Error;
use std::fmt;

/// The error of [`TreeIds::next`](crate::TreeIds::next): no tree number is left.
#[derive(Clone, Copy, Debug, PartialEq, Eq)]
pub struct Spent;

impl fmt::Display for Spent {
    ghost use Rattle.std.specs.Prelude.{Some, codes};

    ghost output = { λ e. Some (codes "no tree number is left") };

    fn fmt<W: fmt::Write>(&self, f: &mut fmt::Formatter<W>) -> fmt::Result {
        write!(f, "no tree number is left")
    }
}

impl Error for Spent {}

/// The error type of functions that create a tree. On error, no tree number is used up.
#[derive(Clone, Copy, Debug, PartialEq, Eq)]
pub enum TreeError {
    /// No tree number is left.
    Spent = 1,
    /// Out of memory.
    NoMemory = 2,
}

impl fmt::Display for TreeError {
    ghost use Rattle.std.specs.Prelude.{Some};
    ghost use Rattle.syntax_tree.specs.Refusal.{message_of};

    ghost output = { λ e. Some (message_of e) };

    fn fmt<W: fmt::Write>(&self, f: &mut fmt::Formatter<W>) -> fmt::Result {
        match self {
            TreeError::Spent => write!(f, "no tree number is left"),
            TreeError::NoMemory => write!(f, "out of memory"),
        }
    }
}

impl Error for TreeError {}

impl From<AllocError> for TreeError {
    ghost use Rattle.syntax_tree.specs.declared.error.TreeError.TheVariants.{NoMemory};
    ghost use Rattle.std.specs.Prelude.{◌≡◌};

    ghost from_gives = { λ _ e. e ≡ NoMemory };

    fn from(_e: AllocError) -> TreeError {
        TreeError::NoMemory
    }
}

impl From<Spent> for TreeError {
    ghost use Rattle.syntax_tree.specs.declared.error.TreeError.TheVariants.{Spent};
    ghost use Rattle.std.specs.Prelude.{◌≡◌};

    ghost from_gives = { λ _ e. e ≡ Spent };

    fn from(_e: Spent) -> TreeError {
        TreeError::Spent
    }
}

/// The error type of [`SyntaxMappingBuilder`](crate::SyntaxMappingBuilder). On error, the builder
/// is unchanged.
#[derive(Clone, Copy, Debug, PartialEq, Eq)]
pub enum MappingError {
    /// An output is not a child of the builder's parent node.
    NotChild = 1,
    /// There are more inputs than outputs.
    MoreInputs = 2,
    /// The tree number of an output is not greater than that of its input.
    Order = 3,
    /// Out of memory.
    NoMemory = 4,
}

impl fmt::Display for MappingError {
    ghost use Rattle.std.specs.Prelude.{Some};
    ghost use Rattle.syntax_tree.specs.Mapping.{message_of};

    ghost output = { λ e. Some (message_of e) };

    fn fmt<W: fmt::Write>(&self, f: &mut fmt::Formatter<W>) -> fmt::Result {
        match self {
            MappingError::NotChild => write!(f, "an output is no child of the parent"),
            MappingError::MoreInputs => write!(f, "there are more inputs than outputs"),
            MappingError::Order => write!(f, "an output's tree number is not the greater one"),
            MappingError::NoMemory => write!(f, "out of memory"),
        }
    }
}

impl Error for MappingError {}

impl From<AllocError> for MappingError {
    ghost use Rattle.syntax_tree.specs.declared.error.MappingError.TheVariants.{NoMemory};
    ghost use Rattle.std.specs.Prelude.{◌≡◌};

    ghost from_gives = { λ _ e. e ≡ NoMemory };

    fn from(_e: AllocError) -> MappingError {
        MappingError::NoMemory
    }
}

impl<T: Drop> From<AllocFailed<T>> for MappingError {
    ghost use Rattle.syntax_tree.specs.declared.error.MappingError.TheVariants.{NoMemory};
    ghost use Rattle.std.specs.Prelude.{◌≡◌};

    ghost from_gives = { λ _ e. e ≡ NoMemory };

    fn from(_e: AllocFailed<T>) -> MappingError {
        MappingError::NoMemory
    }
}

/// The error type of [`Position::before`](crate::Position::before) and
/// [`Position::after`](crate::Position::after).
#[derive(Clone, Copy, Debug, PartialEq, Eq)]
pub enum PositionError {
    /// The element is the root of its tree.
    NoParent = 1,
    /// Out of memory.
    NoMemory = 2,
}

impl fmt::Display for PositionError {
    ghost use Rattle.std.specs.Prelude.{Some};
    ghost use Rattle.syntax_tree.specs.Position.{message_of};

    ghost output = { λ e. Some (message_of e) };

    fn fmt<W: fmt::Write>(&self, f: &mut fmt::Formatter<W>) -> fmt::Result {
        match self {
            PositionError::NoParent => write!(f, "the element has no parent"),
            PositionError::NoMemory => write!(f, "out of memory"),
        }
    }
}

impl Error for PositionError {}

impl From<AllocError> for PositionError {
    ghost use Rattle.syntax_tree.specs.declared.error.PositionError.TheVariants.{NoMemory};
    ghost use Rattle.std.specs.Prelude.{◌≡◌};

    ghost from_gives = { λ _ e. e ≡ NoMemory };

    fn from(_e: AllocError) -> PositionError {
        PositionError::NoMemory
    }
}
