//! The error of indenting a node with a mapping.
use std::error::Error;
use std::fmt;
use syntax_editor::MakeError;

/// The error type of [`indent_with_mapping`](crate::indent_with_mapping). On error, no tree number
/// is used up, and the mapping is unchanged.
#[derive(Clone, Copy, Debug, PartialEq, Eq)]
pub enum IndentError {
    /// The number of the new tree is not greater than that of the node's tree, so its child nodes
    /// cannot be mapped.
    Order = 3,
    /// Out of memory.
    NoMemory = 4,
    /// No tree number is left.
    NoTreeNumber = 5,
    /// A token or a node would have 2^32 or more bytes of text, or a node 2^32 or more children.
    TooLong = 6,
}

impl fmt::Display for IndentError {
    ghost use Rattle.std.specs.Prelude.{Some};
    ghost use Rattle.tree_indent.specs.Mapped.{indent_message};

    ghost output = { λ e. Some (indent_message e) };

    fn fmt<W: fmt::Write>(&self, f: &mut fmt::Formatter<W>) -> fmt::Result {
        match self {
            IndentError::Order => write!(f, "the tree's number is not the greater one"),
            IndentError::NoMemory => write!(f, "out of memory"),
            IndentError::NoTreeNumber => write!(f, "no tree number is left"),
            IndentError::TooLong => write!(f, "too long"),
        }
    }
}

impl Error for IndentError {}

impl From<MakeError> for IndentError {
    ghost use Rattle.tree_indent.specs.Mapped.{of_make};
    ghost use Rattle.std.specs.Prelude.{◌≡◌};

    ghost from_gives = { λ f e. e ≡ of_make f };

    fn from(e: MakeError) -> IndentError {
        match e {
            MakeError::NoMemory => IndentError::NoMemory,
            MakeError::NoTreeNumber => IndentError::NoTreeNumber,
            MakeError::TooLong => IndentError::TooLong,
        }
    }
}
