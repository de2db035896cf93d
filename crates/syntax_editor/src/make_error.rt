//! The error of making a token or an editor.
use std::alloc::AllocError;
use std::error::Error;
use std::fmt;
use syntax_tree::TreeError;

/// The error of making a token or an editor. Making a token uses up no tree number on error.
#[derive(Clone, Copy, Debug, PartialEq, Eq)]
pub enum MakeError {
    /// Out of memory.
    NoMemory = 4,
    /// No tree number is left.
    NoTreeNumber = 5,
    /// The text has 2^32 bytes or more.
    TooLong = 6,
}

impl fmt::Display for MakeError {
    ghost use Rattle.std.specs.Prelude.{Some};
    ghost use Rattle.syntax_editor.specs.Making.{make_message};

    ghost output = { λ e. Some (make_message e) };

    fn fmt<W: fmt::Write>(&self, f: &mut fmt::Formatter<W>) -> fmt::Result {
        match self {
            MakeError::NoMemory => write!(f, "out of memory"),
            MakeError::NoTreeNumber => write!(f, "no tree number is left"),
            MakeError::TooLong => write!(f, "too long"),
        }
    }
}

impl Error for MakeError {}

impl From<AllocError> for MakeError {
    ghost use Rattle.syntax_editor.specs.declared.make_error.MakeError.TheVariants.{NoMemory};
    ghost use Rattle.std.specs.Prelude.{◌≡◌};

    ghost from_gives = { λ _ e. e ≡ NoMemory };

    fn from(_e: AllocError) -> MakeError {
        MakeError::NoMemory
    }
}

impl From<TreeError> for MakeError {
    ghost use Rattle.syntax_editor.specs.Making.{of_tree};
    ghost use Rattle.std.specs.Prelude.{◌≡◌};

    ghost from_gives = { λ f e. e ≡ of_tree f };

    fn from(e: TreeError) -> MakeError {
        match e {
            TreeError::Spent => MakeError::NoTreeNumber,
            TreeError::NoMemory => MakeError::NoMemory,
        }
    }
}
