//! Why a command was not done.
ghost use Rattle.std.specs.Prelude.{◌≡◌};

use crate::reply::Refusal;
use rust_document::{CommitError, EditError, PayloadError, RecordError, WithoutMessagesError};
use std::alloc::AllocError;
use syntax_tree::PositionError;

/// What kept a command from being done. The document is as before.
#[derive(Clone, Copy, Debug, PartialEq, Eq)]
pub enum Stop {
    /// The command is answered by a refusal.
    Refused(Refusal),
    /// Out of memory; the command has no answer.
    NoMemory,
}

impl From<AllocError> for Stop {
    ghost use Rattle.document_requests.specs.declared.stop.Stop.TheVariants.{NoMemory};

    ghost from_gives = { λ _ stop. stop ≡ NoMemory };

    fn from(_refused: AllocError) -> Stop {
        Stop::NoMemory
    }
}

impl From<PayloadError> for Stop {
    ghost use Rattle.document_requests.specs.Applied.{stop_of_payload};

    ghost from_gives = { λ error stop. stop ≡ stop_of_payload error };

    fn from(error: PayloadError) -> Stop {
        match error {
            PayloadError::Message | PayloadError::NotOneToken | PayloadError::TooLong => {
                Stop::Refused(Refusal::Payload)
            }
            PayloadError::NoTreeNumber => Stop::Refused(Refusal::NoTreeNumber),
            PayloadError::NoMemory => Stop::NoMemory,
        }
    }
}

impl From<EditError> for Stop {
    ghost use Rattle.document_requests.specs.Applied.{stop_of_edit};

    ghost from_gives = { λ error stop. stop ≡ stop_of_edit error };

    fn from(error: EditError) -> Stop {
        match error {
            EditError::TooLong => Stop::Refused(Refusal::TooLong),
            EditError::NoTreeNumber => Stop::Refused(Refusal::NoTreeNumber),
            EditError::NoMemory => Stop::NoMemory,
        }
    }
}

impl From<RecordError> for Stop {
    ghost use Rattle.document_requests.specs.Applied.{stop_of_record};

    ghost from_gives = { λ error stop. stop ≡ stop_of_record error };

    fn from(error: RecordError) -> Stop {
        match error {
            RecordError::Foreign => Stop::Refused(Refusal::NoTarget),
            RecordError::BadRange | RecordError::BadTarget => Stop::Refused(Refusal::BadTarget),
            RecordError::NoMemory => Stop::NoMemory,
        }
    }
}

impl From<PositionError> for Stop {
    ghost use Rattle.document_requests.specs.Applied.{stop_of_position};

    ghost from_gives = { λ error stop. stop ≡ stop_of_position error };

    fn from(error: PositionError) -> Stop {
        match error {
            PositionError::NoParent => Stop::Refused(Refusal::NoParent),
            PositionError::NoMemory => Stop::NoMemory,
        }
    }
}

impl From<CommitError> for Stop {
    ghost use Rattle.document_requests.specs.Applied.{stop_of_commit};

    ghost from_gives = { λ error stop. stop ≡ stop_of_commit error };

    fn from(error: CommitError) -> Stop {
        match error {
            CommitError::Foreign => Stop::Refused(Refusal::NoTarget),
            CommitError::Intersecting => Stop::Refused(Refusal::Intersecting),
            CommitError::MissingMapping => Stop::Refused(Refusal::MissingMapping),
            CommitError::TooLong => Stop::Refused(Refusal::TooLong),
            CommitError::Unfaithful => Stop::Refused(Refusal::Unfaithful),
            CommitError::NoTreeNumber => Stop::Refused(Refusal::NoTreeNumber),
            CommitError::NoMemory => Stop::NoMemory,
        }
    }
}

impl From<WithoutMessagesError> for Stop {
    ghost use Rattle.document_requests.specs.Applied.{stop_of_clean_commit};

    ghost from_gives = { λ error stop. stop ≡ stop_of_clean_commit error };

    fn from(error: WithoutMessagesError) -> Stop {
        match error {
            WithoutMessagesError::Messages => Stop::Refused(Refusal::Messages),
            WithoutMessagesError::Refused(error) => Stop::from(error),
        }
    }
}
