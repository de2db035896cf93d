//! The error types of editors.
use std::alloc::{AllocError, AllocFailed};
use std::error::Error;
use std::fmt;
use syntax_tree::TreeError;
use tree_rewrite::error::PlanError;

/// The error of calls that record a change. The editor is unchanged.
#[derive(Clone, Copy, Debug, PartialEq, Eq)]
pub enum RecordError {
    /// An element or a position is not in the edited tree: the tree number differs, or no element
    /// of that kind is there.
    Foreign = 1,
    /// The ends are not children of one parent in order.
    BadRange = 2,
    /// The root would be deleted, or become something else than one node.
    BadTarget = 3,
    /// Out of memory.
    NoMemory = 4,
}

impl fmt::Display for RecordError {
    ghost use Rattle.std.specs.Prelude.{Some};
    ghost use Rattle.syntax_editor.specs.Refusal.{record_message};

    ghost output = { λ e. Some (record_message e) };

    fn fmt<W: fmt::Write>(&self, f: &mut fmt::Formatter<W>) -> fmt::Result {
        match self {
            RecordError::Foreign => write!(f, "of another tree"),
            RecordError::BadRange => write!(f, "the ends are not children of one parent in order"),
            RecordError::BadTarget => write!(f, "the root can only be replaced by one node"),
            RecordError::NoMemory => write!(f, "out of memory"),
        }
    }
}

impl Error for RecordError {}

impl From<AllocError> for RecordError {
    ghost use Rattle.syntax_editor.specs.declared.error.RecordError.TheVariants.{NoMemory};
    ghost use Rattle.std.specs.Prelude.{◌≡◌};

    ghost from_gives = { λ _ e. e ≡ NoMemory };

    fn from(_e: AllocError) -> RecordError {
        RecordError::NoMemory
    }
}

impl<T: Drop> From<AllocFailed<T>> for RecordError {
    ghost use Rattle.syntax_editor.specs.declared.error.RecordError.TheVariants.{NoMemory};
    ghost use Rattle.std.specs.Prelude.{◌≡◌};

    ghost from_gives = { λ _ e. e ≡ NoMemory };

    fn from(_e: AllocFailed<T>) -> RecordError {
        RecordError::NoMemory
    }
}

/// The error of merging editors.
#[derive(Clone, Copy, Debug, PartialEq, Eq)]
pub enum MergeError {
    /// The other editor is of another tree: the tree number or the tree differs.
    Foreign = 1,
    /// Out of memory.
    NoMemory = 4,
}

impl fmt::Display for MergeError {
    ghost use Rattle.std.specs.Prelude.{Some};
    ghost use Rattle.syntax_editor.specs.Refusal.{merge_message};

    ghost output = { λ e. Some (merge_message e) };

    fn fmt<W: fmt::Write>(&self, f: &mut fmt::Formatter<W>) -> fmt::Result {
        match self {
            MergeError::Foreign => write!(f, "of another tree"),
            MergeError::NoMemory => write!(f, "out of memory"),
        }
    }
}

impl Error for MergeError {}

/// The error of inserting elements with whitespace around them. The editor is unchanged.
#[derive(Clone, Copy, Debug, PartialEq, Eq)]
pub enum WhitespaceError {
    /// The position is not in the edited tree.
    Foreign = 1,
    /// Out of memory.
    NoMemory = 4,
    /// No tree number is left.
    NoTreeNumber = 5,
}

impl fmt::Display for WhitespaceError {
    ghost use Rattle.std.specs.Prelude.{Some};
    ghost use Rattle.syntax_editor.specs.Refusal.{whitespace_message};

    ghost output = { λ e. Some (whitespace_message e) };

    fn fmt<W: fmt::Write>(&self, f: &mut fmt::Formatter<W>) -> fmt::Result {
        match self {
            WhitespaceError::Foreign => write!(f, "of another tree"),
            WhitespaceError::NoMemory => write!(f, "out of memory"),
            WhitespaceError::NoTreeNumber => write!(f, "no tree number is left"),
        }
    }
}

impl Error for WhitespaceError {}

impl From<AllocError> for WhitespaceError {
    ghost use Rattle.syntax_editor.specs.declared.error.WhitespaceError.TheVariants.{NoMemory};
    ghost use Rattle.std.specs.Prelude.{◌≡◌};

    ghost from_gives = { λ _ e. e ≡ NoMemory };

    fn from(_e: AllocError) -> WhitespaceError {
        WhitespaceError::NoMemory
    }
}

impl<T: Drop> From<AllocFailed<T>> for WhitespaceError {
    ghost use Rattle.syntax_editor.specs.declared.error.WhitespaceError.TheVariants.{NoMemory};
    ghost use Rattle.std.specs.Prelude.{◌≡◌};

    ghost from_gives = { λ _ e. e ≡ NoMemory };

    fn from(_e: AllocFailed<T>) -> WhitespaceError {
        WhitespaceError::NoMemory
    }
}

impl From<TreeError> for WhitespaceError {
    ghost use Rattle.syntax_editor.specs.Refusal.{of_number};
    ghost use Rattle.std.specs.Prelude.{◌≡◌};

    ghost from_gives = { λ f e. e ≡ of_number f };

    fn from(e: TreeError) -> WhitespaceError {
        match e {
            TreeError::Spent => WhitespaceError::NoTreeNumber,
            TreeError::NoMemory => WhitespaceError::NoMemory,
        }
    }
}

/// The error of applying the recorded changes.
#[derive(Clone, Copy, Debug, PartialEq, Eq)]
pub enum RewriteError {
    /// Two changes replace one element.
    Intersecting = 1,
    /// A change in a replaced node has no place in what replaces it.
    MissingMapping = 2,
    /// A node of the tree would have a text of 2^32 bytes or more, or 2^32 children or more.
    TooLong = 3,
    /// Out of memory.
    NoMemory = 4,
}

impl fmt::Display for RewriteError {
    ghost use Rattle.std.specs.Prelude.{Some};
    ghost use Rattle.syntax_editor.specs.Refusal.{rewrite_message};

    ghost output = { λ e. Some (rewrite_message e) };

    fn fmt<W: fmt::Write>(&self, f: &mut fmt::Formatter<W>) -> fmt::Result {
        match self {
            RewriteError::Intersecting => write!(f, "two changes replace one element"),
            RewriteError::MissingMapping => write!(
                f,
                "a change in a replaced node has no place in what replaces it"
            ),
            RewriteError::TooLong => write!(f, "too long"),
            RewriteError::NoMemory => write!(f, "out of memory"),
        }
    }
}

impl Error for RewriteError {}

impl From<AllocError> for RewriteError {
    ghost use Rattle.syntax_editor.specs.declared.error.RewriteError.TheVariants.{NoMemory};
    ghost use Rattle.std.specs.Prelude.{◌≡◌};

    ghost from_gives = { λ _ e. e ≡ NoMemory };

    fn from(_e: AllocError) -> RewriteError {
        RewriteError::NoMemory
    }
}

impl From<PlanError> for RewriteError {
    ghost use Rattle.syntax_editor.specs.Refusal.{of_plan};
    ghost use Rattle.std.specs.Prelude.{◌≡◌};

    ghost from_gives = { λ f e. e ≡ of_plan f };

    fn from(e: PlanError) -> RewriteError {
        match e {
            PlanError::Intersecting => RewriteError::Intersecting,
            PlanError::MissingMapping => RewriteError::MissingMapping,
            PlanError::NoMemory => RewriteError::NoMemory,
        }
    }
}

/// The error of finishing an editor.
#[derive(Clone, Copy, Debug, PartialEq, Eq)]
pub enum FinishError {
    /// Two changes replace one element.
    Intersecting = 1,
    /// A change in a replaced node has no place in what replaces it.
    MissingMapping = 2,
    /// A node of the tree would have a text of 2^32 bytes or more, or 2^32 children or more.
    TooLong = 3,
    /// No tree number is left.
    NoTreeNumber = 4,
    /// Out of memory.
    NoMemory = 5,
}

impl fmt::Display for FinishError {
    ghost use Rattle.std.specs.Prelude.{Some};
    ghost use Rattle.syntax_editor.specs.Refusal.{finish_message};

    ghost output = { λ e. Some (finish_message e) };

    fn fmt<W: fmt::Write>(&self, f: &mut fmt::Formatter<W>) -> fmt::Result {
        match self {
            FinishError::Intersecting => write!(f, "two changes replace one element"),
            FinishError::MissingMapping => write!(
                f,
                "a change in a replaced node has no place in what replaces it"
            ),
            FinishError::TooLong => write!(f, "too long"),
            FinishError::NoTreeNumber => write!(f, "no tree number is left"),
            FinishError::NoMemory => write!(f, "out of memory"),
        }
    }
}

impl Error for FinishError {}

impl From<AllocError> for FinishError {
    ghost use Rattle.syntax_editor.specs.declared.error.FinishError.TheVariants.{NoMemory};
    ghost use Rattle.std.specs.Prelude.{◌≡◌};

    ghost from_gives = { λ _ e. e ≡ NoMemory };

    fn from(_e: AllocError) -> FinishError {
        FinishError::NoMemory
    }
}

impl From<RewriteError> for FinishError {
    ghost use Rattle.syntax_editor.specs.Refusal.{of_rewrite};
    ghost use Rattle.std.specs.Prelude.{◌≡◌};

    ghost from_gives = { λ f e. e ≡ of_rewrite f };

    fn from(e: RewriteError) -> FinishError {
        match e {
            RewriteError::Intersecting => FinishError::Intersecting,
            RewriteError::MissingMapping => FinishError::MissingMapping,
            RewriteError::TooLong => FinishError::TooLong,
            RewriteError::NoMemory => FinishError::NoMemory,
        }
    }
}

impl From<TreeError> for FinishError {
    ghost use Rattle.syntax_editor.specs.Refusal.{of_tree};
    ghost use Rattle.std.specs.Prelude.{◌≡◌};

    ghost from_gives = { λ f e. e ≡ of_tree f };

    fn from(e: TreeError) -> FinishError {
        match e {
            TreeError::Spent => FinishError::NoTreeNumber,
            TreeError::NoMemory => FinishError::NoMemory,
        }
    }
}
