//! Why a call was refused.
use std::alloc::AllocError;
use std::error::Error;
use std::fmt;
use syntax_editor::RewriteError;
use syntax_tree::TreeError;

/// The error type of `Document::open`. On error, nothing is changed.
#[derive(Clone, Copy, Debug, PartialEq, Eq)]
pub enum OpenError {
    /// The text has more than 16,777,216 bytes.
    TooLong = 1,
    /// No tree number is left.
    NoTreeNumber = 2,
    /// Out of memory.
    NoMemory = 3,
}

impl fmt::Display for OpenError {
    ghost use Rattle.std.specs.Prelude.{Some};
    ghost use Rattle.rust_document.specs.Open.{message_of};

    ghost output = { λ e. Some (message_of e) };

    fn fmt<W: fmt::Write>(&self, f: &mut fmt::Formatter<W>) -> fmt::Result {
        match self {
            OpenError::TooLong => write!(f, "too long"),
            OpenError::NoTreeNumber => write!(f, "no tree number is left"),
            OpenError::NoMemory => write!(f, "out of memory"),
        }
    }
}

impl Error for OpenError {}

impl From<AllocError> for OpenError {
    ghost use Rattle.rust_document.specs.declared.error.OpenError.TheVariants.{NoMemory};
    ghost use Rattle.std.specs.Prelude.{◌≡◌};

    ghost from_gives = { λ _ e. e ≡ NoMemory };

    fn from(_e: AllocError) -> OpenError {
        OpenError::NoMemory
    }
}

impl From<TreeError> for OpenError {
    ghost use Rattle.rust_document.specs.Open.{open_error_of};
    ghost use Rattle.std.specs.Prelude.{◌≡◌};

    ghost from_gives = { λ t e. e ≡ open_error_of t };

    fn from(e: TreeError) -> OpenError {
        match e {
            TreeError::Spent => OpenError::NoTreeNumber,
            TreeError::NoMemory => OpenError::NoMemory,
        }
    }
}

/// The error type of `Document::edit`. On error, the document is unchanged.
#[derive(Clone, Copy, Debug, PartialEq, Eq)]
pub enum EditError {
    /// The new text has more than 16,777,216 bytes.
    TooLong = 1,
    /// No tree number is left.
    NoTreeNumber = 2,
    /// Out of memory.
    NoMemory = 3,
}

impl fmt::Display for EditError {
    ghost use Rattle.std.specs.Prelude.{Some};
    ghost use Rattle.rust_document.specs.Edit.{edit_message_of};

    ghost output = { λ e. Some (edit_message_of e) };

    fn fmt<W: fmt::Write>(&self, f: &mut fmt::Formatter<W>) -> fmt::Result {
        match self {
            EditError::TooLong => write!(f, "too long"),
            EditError::NoTreeNumber => write!(f, "no tree number is left"),
            EditError::NoMemory => write!(f, "out of memory"),
        }
    }
}

impl Error for EditError {}

impl From<AllocError> for EditError {
    ghost use Rattle.rust_document.specs.declared.error.EditError.TheVariants.{NoMemory};
    ghost use Rattle.std.specs.Prelude.{◌≡◌};

    ghost from_gives = { λ _ e. e ≡ NoMemory };

    fn from(_e: AllocError) -> EditError {
        EditError::NoMemory
    }
}

impl From<TreeError> for EditError {
    ghost use Rattle.rust_document.specs.Edit.{edit_error_of};
    ghost use Rattle.std.specs.Prelude.{◌≡◌};

    ghost from_gives = { λ t e. e ≡ edit_error_of t };

    fn from(e: TreeError) -> EditError {
        match e {
            TreeError::Spent => EditError::NoTreeNumber,
            TreeError::NoMemory => EditError::NoMemory,
        }
    }
}

/// The error type of `Document::commit`. On error, the document is unchanged.
#[derive(Clone, Copy, Debug, PartialEq, Eq)]
pub enum CommitError {
    /// The editor is one of another tree.
    Foreign = 1,
    /// Two changes replace one element.
    Intersecting = 2,
    /// A change in a replaced node has no place in what replaces it.
    MissingMapping = 3,
    /// The new text has more than 16,777,216 bytes, or a node of the new tree 2^32 children or
    /// more.
    TooLong = 4,
    /// The new text does not read as the rewritten tree.
    Unfaithful = 5,
    /// No tree number is left.
    NoTreeNumber = 6,
    /// Out of memory.
    NoMemory = 7,
}

impl fmt::Display for CommitError {
    ghost use Rattle.std.specs.Prelude.{Some};
    ghost use Rattle.rust_document.specs.Commit.{commit_message_of};

    ghost output = { λ e. Some (commit_message_of e) };

    fn fmt<W: fmt::Write>(&self, f: &mut fmt::Formatter<W>) -> fmt::Result {
        match self {
            CommitError::Foreign => write!(f, "of another tree"),
            CommitError::Intersecting => write!(f, "two changes replace one element"),
            CommitError::MissingMapping => {
                write!(
                    f,
                    "a change in a replaced node has no place in what replaces it"
                )
            }
            CommitError::TooLong => write!(f, "too long"),
            CommitError::Unfaithful => write!(
                f,
                "the new text does not read as the rewritten tree"
            ),
            CommitError::NoTreeNumber => write!(f, "no tree number is left"),
            CommitError::NoMemory => write!(f, "out of memory"),
        }
    }
}

impl Error for CommitError {}

impl From<AllocError> for CommitError {
    ghost use Rattle.rust_document.specs.declared.error.CommitError.TheVariants.{NoMemory};
    ghost use Rattle.std.specs.Prelude.{◌≡◌};

    ghost from_gives = { λ _ e. e ≡ NoMemory };

    fn from(_e: AllocError) -> CommitError {
        CommitError::NoMemory
    }
}

impl From<TreeError> for CommitError {
    ghost use Rattle.rust_document.specs.Commit.{commit_error_of};
    ghost use Rattle.std.specs.Prelude.{◌≡◌};

    ghost from_gives = { λ t e. e ≡ commit_error_of t };

    fn from(e: TreeError) -> CommitError {
        match e {
            TreeError::Spent => CommitError::NoTreeNumber,
            TreeError::NoMemory => CommitError::NoMemory,
        }
    }
}

impl From<RewriteError> for CommitError {
    ghost use Rattle.rust_document.specs.Commit.{of_rewrite};
    ghost use Rattle.std.specs.Prelude.{◌≡◌};

    ghost from_gives = { λ r e. e ≡ of_rewrite r };

    fn from(e: RewriteError) -> CommitError {
        match e {
            RewriteError::Intersecting => CommitError::Intersecting,
            RewriteError::MissingMapping => CommitError::MissingMapping,
            RewriteError::TooLong => CommitError::TooLong,
            RewriteError::NoMemory => CommitError::NoMemory,
        }
    }
}

/// The error type of `Document::commit_without_messages`. On error, the document is unchanged.
#[derive(Clone, Copy, Debug, PartialEq, Eq)]
pub enum WithoutMessagesError {
    /// The present or the new text has messages.
    Messages,
    /// One of the refusals of `Document::commit`.
    Refused(CommitError),
}

impl fmt::Display for WithoutMessagesError {
    ghost use Rattle.std.specs.Prelude.{Some};
    ghost use Rattle.rust_document.specs.CommitWithoutMessages.{without_messages_words};

    ghost output = { λ e. Some (without_messages_words e) };

    fn fmt<W: fmt::Write>(&self, f: &mut fmt::Formatter<W>) -> fmt::Result {
        match self {
            WithoutMessagesError::Messages => write!(f, "has messages"),
            WithoutMessagesError::Refused(error) => write!(f, "{error}"),
        }
    }
}

impl Error for WithoutMessagesError {}

impl From<CommitError> for WithoutMessagesError {
    ghost use Rattle.rust_document.specs.declared.error.WithoutMessagesError.TheVariants.{Refused};
    ghost use Rattle.std.specs.Prelude.{◌≡◌};

    ghost from_gives = { λ c e. e ≡ Refused c };

    fn from(error: CommitError) -> WithoutMessagesError {
        WithoutMessagesError::Refused(error)
    }
}

impl From<TreeError> for WithoutMessagesError {
    ghost use Rattle.rust_document.specs.Commit.{commit_error_of};
    ghost use Rattle.rust_document.specs.declared.error.WithoutMessagesError.TheVariants.{Refused};
    ghost use Rattle.std.specs.Prelude.{◌≡◌};

    ghost from_gives = { λ t e. e ≡ Refused (commit_error_of t) };

    fn from(error: TreeError) -> WithoutMessagesError {
        WithoutMessagesError::Refused(CommitError::from(error))
    }
}

/// The error type of `payload`. On error, no tree number is used up.
#[derive(Clone, Copy, Debug, PartialEq, Eq)]
pub enum PayloadError {
    /// The lexer or the parser has a message about the text.
    Message = 1,
    /// The text is no token, or more than one.
    NotOneToken = 2,
    /// The text has more than 16,777,216 bytes.
    TooLong = 3,
    /// No tree number is left.
    NoTreeNumber = 4,
    /// Out of memory.
    NoMemory = 5,
}

impl fmt::Display for PayloadError {
    ghost use Rattle.std.specs.Prelude.{Some};
    ghost use Rattle.rust_document.specs.Payload.{payload_message_of};

    ghost output = { λ e. Some (payload_message_of e) };

    fn fmt<W: fmt::Write>(&self, f: &mut fmt::Formatter<W>) -> fmt::Result {
        match self {
            PayloadError::Message => write!(f, "has messages"),
            PayloadError::NotOneToken => write!(f, "not one token"),
            PayloadError::TooLong => write!(f, "too long"),
            PayloadError::NoTreeNumber => write!(f, "no tree number is left"),
            PayloadError::NoMemory => write!(f, "out of memory"),
        }
    }
}

impl Error for PayloadError {}

impl From<AllocError> for PayloadError {
    ghost use Rattle.rust_document.specs.declared.error.PayloadError.TheVariants.{NoMemory};
    ghost use Rattle.std.specs.Prelude.{◌≡◌};

    ghost from_gives = { λ _ e. e ≡ NoMemory };

    fn from(_e: AllocError) -> PayloadError {
        PayloadError::NoMemory
    }
}

impl From<TreeError> for PayloadError {
    ghost use Rattle.rust_document.specs.Payload.{of_tree_error};
    ghost use Rattle.std.specs.Prelude.{◌≡◌};

    ghost from_gives = { λ t e. e ≡ of_tree_error t };

    fn from(e: TreeError) -> PayloadError {
        match e {
            TreeError::Spent => PayloadError::NoTreeNumber,
            TreeError::NoMemory => PayloadError::NoMemory,
        }
    }
}
