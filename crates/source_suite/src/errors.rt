//! Each error of a source has its variant and its text.
use renamer::RenameError;
use rust_document::{
    CommitError, EditError, MakeError, MergeError, OpenError, PayloadError, RecordError,
    WhitespaceError, WithoutMessagesError,
};
use rust_source::{NodeError, SourceError};
use std::alloc::AllocError;
use std::test::Fail;
use syntax_tree::PositionError;

/// An error of each kind, its variant, and its text.
fn texts() -> [(SourceError, SourceError, &'static str); 14] {
    [
        (
            OpenError::TooLong.into(),
            SourceError::Open(OpenError::TooLong),
            "too long",
        ),
        (
            EditError::NoTreeNumber.into(),
            SourceError::Edit(EditError::NoTreeNumber),
            "no tree number is left",
        ),
        (
            PayloadError::NotOneToken.into(),
            SourceError::Payload(PayloadError::NotOneToken),
            "not one token",
        ),
        (
            NodeError::NotOneNode.into(),
            SourceError::Node(NodeError::NotOneNode),
            "not one node",
        ),
        (
            PositionError::NoParent.into(),
            SourceError::Position(PositionError::NoParent),
            "the element has no parent",
        ),
        (
            MakeError::TooLong.into(),
            SourceError::Make(MakeError::TooLong),
            "too long",
        ),
        (
            RecordError::Foreign.into(),
            SourceError::Record(RecordError::Foreign),
            "of another tree",
        ),
        (
            WhitespaceError::Foreign.into(),
            SourceError::Whitespace(WhitespaceError::Foreign),
            "of another tree",
        ),
        (
            MergeError::Foreign.into(),
            SourceError::Merge(MergeError::Foreign),
            "of another tree",
        ),
        (
            CommitError::Unfaithful.into(),
            SourceError::Commit(CommitError::Unfaithful),
            "the new text does not read as the rewritten tree",
        ),
        (
            WithoutMessagesError::Messages.into(),
            SourceError::WithoutMessages(WithoutMessagesError::Messages),
            "has messages",
        ),
        (
            RenameError::Refused(CommitError::Unfaithful).into(),
            SourceError::Rename(RenameError::Refused(CommitError::Unfaithful)),
            "the new text does not read as the rewritten tree",
        ),
        (
            RenameError::NoMemory.into(),
            SourceError::Rename(RenameError::NoMemory),
            "out of memory",
        ),
        (
            AllocError.into(),
            SourceError::Memory(AllocError),
            "out of memory",
        ),
    ]
}

#[test]
fn errors_keep_their_texts(rt: HostRuntime) -> Result<(), Fail> {
    for (error, variant, text) in texts() {
        let shown = format!(in rt.alloc(); "{error}")?;
        let is_right = (error == variant) & (shown.as_str() == text);
        drop(shown);
        assert!(rt; is_right);
    }
    Ok(())
}
