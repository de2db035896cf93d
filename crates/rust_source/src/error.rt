//! The errors of a tool.
use renamer::RenameError;
use rust_document::{
    CommitError, EditError, MakeError, MergeError, OpenError, PayloadError, RecordError,
    WhitespaceError, WithoutMessagesError,
};
use std::alloc::{AllocError, AllocFailed};
use std::error::Error;
use std::fmt;
use syntax_tree::PositionError;

/// The error of the calls of [`Source`](crate::Source) that read a text as one node.
#[derive(Clone, Copy, Debug, PartialEq, Eq)]
pub enum NodeError {
    /// The text is no payload.
    Payload(PayloadError),
    /// The text has no such node, or more than one.
    NotOneNode,
}

impl fmt::Display for NodeError {
    ghost use Rattle.std.specs.Prelude.{Some};
    ghost use Rattle.rust_source.specs.Errors.{node_message};

    ghost output = { λ e. Some (node_message e) };

    fn fmt<W: fmt::Write>(&self, f: &mut fmt::Formatter<W>) -> fmt::Result {
        match self {
            NodeError::Payload(error) => write!(f, "{error}"),
            NodeError::NotOneNode => write!(f, "not one node"),
        }
    }
}

impl Error for NodeError {}

/// Any error of a call that a tool makes.
#[derive(Clone, Copy, Debug, PartialEq, Eq)]
pub enum SourceError {
    /// A text is not opened.
    Open(OpenError),
    /// A text is not edited.
    Edit(EditError),
    /// A text is no payload.
    Payload(PayloadError),
    /// A text is not one node.
    Node(NodeError),
    /// There is no position beside an element.
    Position(PositionError),
    /// An element is not made.
    Make(MakeError),
    /// A change is not recorded.
    Record(RecordError),
    /// A change is not recorded with its whitespace.
    Whitespace(WhitespaceError),
    /// Two editors are not merged.
    Merge(MergeError),
    /// A commit fails.
    Commit(CommitError),
    /// A commit of texts without messages fails.
    WithoutMessages(WithoutMessagesError),
    /// Identifiers are not renamed.
    Rename(RenameError),
    /// An allocation fails.
    Memory(AllocError),
}

impl fmt::Display for SourceError {
    ghost use Rattle.std.specs.Prelude.{Some};
    ghost use Rattle.rust_source.specs.Errors.{source_message};

    ghost output = { λ e. Some (source_message e) };

    fn fmt<W: fmt::Write>(&self, f: &mut fmt::Formatter<W>) -> fmt::Result {
        match self {
            SourceError::Open(error) => write!(f, "{error}"),
            SourceError::Edit(error) => write!(f, "{error}"),
            SourceError::Payload(error) => write!(f, "{error}"),
            SourceError::Node(error) => write!(f, "{error}"),
            SourceError::Position(error) => write!(f, "{error}"),
            SourceError::Make(error) => write!(f, "{error}"),
            SourceError::Record(error) => write!(f, "{error}"),
            SourceError::Whitespace(error) => write!(f, "{error}"),
            SourceError::Merge(error) => write!(f, "{error}"),
            SourceError::Commit(error) => write!(f, "{error}"),
            SourceError::WithoutMessages(error) => write!(f, "{error}"),
            SourceError::Rename(error) => write!(f, "{error}"),
            SourceError::Memory(_) => write!(f, "out of memory"),
        }
    }
}

impl Error for SourceError {}

impl From<OpenError> for SourceError {
    ghost use Rattle.rust_source.specs.declared.error.SourceError.TheVariants.{Open};
    ghost use Rattle.std.specs.Prelude.{◌≡◌};

    ghost from_gives = { λ x e. e ≡ Open x };

    fn from(error: OpenError) -> SourceError {
        SourceError::Open(error)
    }
}

impl From<EditError> for SourceError {
    ghost use Rattle.rust_source.specs.declared.error.SourceError.TheVariants.{Edit};
    ghost use Rattle.std.specs.Prelude.{◌≡◌};

    ghost from_gives = { λ x e. e ≡ Edit x };

    fn from(error: EditError) -> SourceError {
        SourceError::Edit(error)
    }
}

impl From<PayloadError> for SourceError {
    ghost use Rattle.rust_source.specs.declared.error.SourceError.TheVariants.{Payload};
    ghost use Rattle.std.specs.Prelude.{◌≡◌};

    ghost from_gives = { λ x e. e ≡ Payload x };

    fn from(error: PayloadError) -> SourceError {
        SourceError::Payload(error)
    }
}

impl From<NodeError> for SourceError {
    ghost use Rattle.rust_source.specs.declared.error.SourceError.TheVariants.{Node};
    ghost use Rattle.std.specs.Prelude.{◌≡◌};

    ghost from_gives = { λ x e. e ≡ Node x };

    fn from(error: NodeError) -> SourceError {
        SourceError::Node(error)
    }
}

impl From<PositionError> for SourceError {
    ghost use Rattle.rust_source.specs.declared.error.SourceError.TheVariants.{Position};
    ghost use Rattle.std.specs.Prelude.{◌≡◌};

    ghost from_gives = { λ x e. e ≡ Position x };

    fn from(error: PositionError) -> SourceError {
        SourceError::Position(error)
    }
}

impl From<MakeError> for SourceError {
    ghost use Rattle.rust_source.specs.declared.error.SourceError.TheVariants.{Make};
    ghost use Rattle.std.specs.Prelude.{◌≡◌};

    ghost from_gives = { λ x e. e ≡ Make x };

    fn from(error: MakeError) -> SourceError {
        SourceError::Make(error)
    }
}

impl From<RecordError> for SourceError {
    ghost use Rattle.rust_source.specs.declared.error.SourceError.TheVariants.{Record};
    ghost use Rattle.std.specs.Prelude.{◌≡◌};

    ghost from_gives = { λ x e. e ≡ Record x };

    fn from(error: RecordError) -> SourceError {
        SourceError::Record(error)
    }
}

impl From<WhitespaceError> for SourceError {
    ghost use Rattle.rust_source.specs.declared.error.SourceError.TheVariants.{Whitespace};
    ghost use Rattle.std.specs.Prelude.{◌≡◌};

    ghost from_gives = { λ x e. e ≡ Whitespace x };

    fn from(error: WhitespaceError) -> SourceError {
        SourceError::Whitespace(error)
    }
}

impl From<MergeError> for SourceError {
    ghost use Rattle.rust_source.specs.declared.error.SourceError.TheVariants.{Merge};
    ghost use Rattle.std.specs.Prelude.{◌≡◌};

    ghost from_gives = { λ x e. e ≡ Merge x };

    fn from(error: MergeError) -> SourceError {
        SourceError::Merge(error)
    }
}

impl From<CommitError> for SourceError {
    ghost use Rattle.rust_source.specs.declared.error.SourceError.TheVariants.{Commit};
    ghost use Rattle.std.specs.Prelude.{◌≡◌};

    ghost from_gives = { λ x e. e ≡ Commit x };

    fn from(error: CommitError) -> SourceError {
        SourceError::Commit(error)
    }
}

impl From<WithoutMessagesError> for SourceError {
    ghost use Rattle.rust_source.specs.declared.error.SourceError.TheVariants.{WithoutMessages};
    ghost use Rattle.std.specs.Prelude.{◌≡◌};

    ghost from_gives = { λ x e. e ≡ WithoutMessages x };

    fn from(error: WithoutMessagesError) -> SourceError {
        SourceError::WithoutMessages(error)
    }
}

impl From<RenameError> for SourceError {
    ghost use Rattle.rust_source.specs.declared.error.SourceError.TheVariants.{Rename};
    ghost use Rattle.std.specs.Prelude.{◌≡◌};

    ghost from_gives = { λ x e. e ≡ Rename x };

    fn from(error: RenameError) -> SourceError {
        SourceError::Rename(error)
    }
}

impl From<AllocError> for SourceError {
    ghost use Rattle.rust_source.specs.declared.error.SourceError.TheVariants.{Memory};
    ghost use Rattle.std.specs.Prelude.{◌≡◌};

    ghost from_gives = { λ x e. e ≡ Memory x };

    fn from(error: AllocError) -> SourceError {
        SourceError::Memory(error)
    }
}

impl<T: Drop> From<AllocFailed<T>> for SourceError {
    ghost use Rattle.rust_source.specs.declared.error.SourceError.TheVariants.{Memory};
    ghost use Rattle.std.specs.Prelude.{◌≡◌, alloc_error};

    ghost from_gives = { λ _ e. e ≡ Memory alloc_error };

    fn from(_refused: AllocFailed<T>) -> SourceError {
        SourceError::Memory(AllocError)
    }
}
