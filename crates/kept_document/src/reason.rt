//! Why an export changes nothing, and the code that says so in C.
ghost use Rattle.std.specs.Prelude.{◌≡◌, ◌≢◌};
ghost use Rattle.kept_document.specs.Reasons.{code_of};

use document_requests::Refusal;
use renamer::RenameError;
use rust_document::{CommitError, EditError, OpenError, PayloadError, RecordError};
use std::alloc::AllocError;

/// Why an export changes nothing.
#[derive(Clone, Copy, Debug, PartialEq, Eq)]
pub enum Reason {
    /// A buffer is too short.
    Short,
    /// A text is not UTF-8.
    NotUtf8,
    /// Out of memory.
    NoMemory,
    /// There is no such edition, grammar or kind.
    NoSuch,
    /// A text has more than 16,777,216 bytes.
    TooLong,
    /// There is no such range.
    Range,
    /// The handle is closed.
    NotOpen,
    /// The handle is open.
    IsOpen,
    /// No tree number is left.
    NoNumber,
    /// The command is no commit, or the name is no identifier.
    NoCommand,
    /// The new text does not read as the rewritten tree.
    Unfaithful,
    /// A change names no element.
    NoTarget,
    /// A text to insert is not what it is to be read as.
    Payload,
    /// The target of an insertion is the root.
    NoParent,
    /// The root would be deleted, or become a token.
    BadTarget,
    /// Two changes replace one element.
    Intersecting,
    /// A change in a replaced node has no place in what replaces it.
    MissingMapping,
    /// Reading the text may take more levels than the library allows.
    TooDeep,
}

impl Reason {
    /// Returns the code of C.
    pub fn code(self) -> u32
        ensures code { result ≡ code_of self }
        ensures nonzero { result ≢ 0 }
    {
        match self {
            Reason::Short => 1,
            Reason::NotUtf8 => 2,
            Reason::NoMemory => 3,
            Reason::NoSuch => 4,
            Reason::TooLong => 5,
            Reason::Range => 6,
            Reason::NotOpen => 7,
            Reason::IsOpen => 8,
            Reason::NoNumber => 9,
            Reason::NoCommand => 10,
            Reason::Unfaithful => 11,
            Reason::NoTarget => 12,
            Reason::Payload => 13,
            Reason::NoParent => 14,
            Reason::BadTarget => 15,
            Reason::Intersecting => 16,
            Reason::MissingMapping => 17,
            Reason::TooDeep => 18,
        }
    }
}

impl From<AllocError> for Reason {
    ghost use Rattle.kept_document.specs.declared.reason.Reason.TheVariants.{NoMemory};
    ghost use Rattle.std.specs.Prelude.{◌≡◌};

    ghost from_gives = { λ _ r. r ≡ NoMemory };

    fn from(_error: AllocError) -> Reason {
        Reason::NoMemory
    }
}

impl From<OpenError> for Reason {
    ghost use Rattle.kept_document.specs.Reasons.{of_open};
    ghost use Rattle.std.specs.Prelude.{◌≡◌};

    ghost from_gives = { λ e r. r ≡ of_open e };

    fn from(error: OpenError) -> Reason {
        match error {
            OpenError::TooLong => Reason::TooLong,
            OpenError::NoTreeNumber => Reason::NoNumber,
            OpenError::NoMemory => Reason::NoMemory,
        }
    }
}

impl From<EditError> for Reason {
    ghost use Rattle.kept_document.specs.Reasons.{of_edit};
    ghost use Rattle.std.specs.Prelude.{◌≡◌};

    ghost from_gives = { λ e r. r ≡ of_edit e };

    fn from(error: EditError) -> Reason {
        match error {
            EditError::TooLong => Reason::TooLong,
            EditError::NoTreeNumber => Reason::NoNumber,
            EditError::NoMemory => Reason::NoMemory,
        }
    }
}

impl From<Refusal> for Reason {
    ghost use Rattle.kept_document.specs.Reasons.{of_refusal};
    ghost use Rattle.std.specs.Prelude.{◌≡◌};

    ghost from_gives = { λ e r. r ≡ of_refusal e };

    fn from(refusal: Refusal) -> Reason {
        match refusal {
            Refusal::Request | Refusal::Float | Refusal::Messages => Reason::NoCommand,
            Refusal::Range => Reason::Range,
            Refusal::TooLong => Reason::TooLong,
            Refusal::NoTarget => Reason::NoTarget,
            Refusal::Payload => Reason::Payload,
            Refusal::NoParent => Reason::NoParent,
            Refusal::BadTarget => Reason::BadTarget,
            Refusal::Intersecting => Reason::Intersecting,
            Refusal::MissingMapping => Reason::MissingMapping,
            Refusal::Unfaithful => Reason::Unfaithful,
            Refusal::NoTreeNumber => Reason::NoNumber,
        }
    }
}

impl From<PayloadError> for Reason {
    ghost use Rattle.kept_document.specs.Reasons.{of_payload};
    ghost use Rattle.std.specs.Prelude.{◌≡◌};

    ghost from_gives = { λ e r. r ≡ of_payload e };

    fn from(error: PayloadError) -> Reason {
        match error {
            PayloadError::Message | PayloadError::NotOneToken => Reason::NoCommand,
            PayloadError::TooLong => Reason::TooLong,
            PayloadError::NoTreeNumber => Reason::NoNumber,
            PayloadError::NoMemory => Reason::NoMemory,
        }
    }
}

impl From<CommitError> for Reason {
    ghost use Rattle.kept_document.specs.Reasons.{of_commit};
    ghost use Rattle.std.specs.Prelude.{◌≡◌};

    ghost from_gives = { λ e r. r ≡ of_commit e };

    fn from(error: CommitError) -> Reason {
        match error {
            CommitError::Foreign => Reason::NoCommand,
            CommitError::Intersecting => Reason::Intersecting,
            CommitError::MissingMapping => Reason::MissingMapping,
            CommitError::TooLong => Reason::TooLong,
            CommitError::Unfaithful => Reason::Unfaithful,
            CommitError::NoTreeNumber => Reason::NoNumber,
            CommitError::NoMemory => Reason::NoMemory,
        }
    }
}

impl From<RenameError> for Reason {
    ghost use Rattle.kept_document.specs.Reasons.{of_rename};
    ghost use Rattle.std.specs.Prelude.{◌≡◌};

    ghost from_gives = { λ e r. r ≡ of_rename e };

    fn from(error: RenameError) -> Reason {
        match error {
            RenameError::NoToken(error) => Reason::from(error),
            RenameError::NotRecorded(RecordError::NoMemory) => Reason::NoMemory,
            RenameError::NotRecorded(_) => Reason::NoCommand,
            RenameError::Refused(error) => Reason::from(error),
            RenameError::NoMemory => Reason::NoMemory,
        }
    }
}
