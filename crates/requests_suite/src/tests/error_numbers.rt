//! The numbers of errors, by which callers in other languages tell them apart.
use ra_parser::ParseError;
use rowan::CursorError;
use rowan_green::GreenError;
use rust_document::{CommitError, EditError, OpenError, PayloadError};
use syntax_editor::{
    FinishError, MakeError, MergeError, RecordError, RewriteError, WhitespaceError,
};
use syntax_tree::{MappingError, PositionError, TreeError};
use tree_indent::IndentError;
use tree_rewrite::error::{ExecuteError, PlanError};

/// An error type, the numbers of its variants, and those that they must have.
type Numbers = (&'static str, &'static [u32], &'static [u32]);

const NUMBERS: &[Numbers] = &[
    (
        "GreenError",
        &[
            GreenError::TooLong as u32,
            GreenError::Unbalanced as u32,
            GreenError::NoMemory as u32,
        ],
        &[1, 2, 3],
    ),
    (
        "CursorError",
        &[
            CursorError::NotFound as u32,
            CursorError::TooLong as u32,
            CursorError::NoMemory as u32,
        ],
        &[1, 2, 3],
    ),
    (
        "ParseError",
        &[ParseError::TooLong as u32, ParseError::NoMemory as u32],
        &[1, 2],
    ),
    (
        "TreeError",
        &[TreeError::Spent as u32, TreeError::NoMemory as u32],
        &[1, 2],
    ),
    (
        "MappingError",
        &[
            MappingError::NotChild as u32,
            MappingError::MoreInputs as u32,
            MappingError::Order as u32,
            MappingError::NoMemory as u32,
        ],
        &[1, 2, 3, 4],
    ),
    (
        "PositionError",
        &[
            PositionError::NoParent as u32,
            PositionError::NoMemory as u32,
        ],
        &[1, 2],
    ),
    (
        "PlanError",
        &[
            PlanError::Intersecting as u32,
            PlanError::MissingMapping as u32,
            PlanError::NoMemory as u32,
        ],
        &[1, 2, 3],
    ),
    (
        "ExecuteError",
        &[ExecuteError::TooLong as u32, ExecuteError::NoMemory as u32],
        &[1, 2],
    ),
    (
        "RecordError",
        &[
            RecordError::Foreign as u32,
            RecordError::BadRange as u32,
            RecordError::BadTarget as u32,
            RecordError::NoMemory as u32,
        ],
        &[1, 2, 3, 4],
    ),
    (
        "MergeError",
        &[MergeError::Foreign as u32, MergeError::NoMemory as u32],
        &[1, 4],
    ),
    (
        "WhitespaceError",
        &[
            WhitespaceError::Foreign as u32,
            WhitespaceError::NoMemory as u32,
            WhitespaceError::NoTreeNumber as u32,
        ],
        &[1, 4, 5],
    ),
    (
        "MakeError",
        &[
            MakeError::NoMemory as u32,
            MakeError::NoTreeNumber as u32,
            MakeError::TooLong as u32,
        ],
        &[4, 5, 6],
    ),
    (
        "IndentError",
        &[
            IndentError::Order as u32,
            IndentError::NoMemory as u32,
            IndentError::NoTreeNumber as u32,
            IndentError::TooLong as u32,
        ],
        &[3, 4, 5, 6],
    ),
    (
        "RewriteError",
        &[
            RewriteError::Intersecting as u32,
            RewriteError::MissingMapping as u32,
            RewriteError::TooLong as u32,
            RewriteError::NoMemory as u32,
        ],
        &[1, 2, 3, 4],
    ),
    (
        "FinishError",
        &[
            FinishError::Intersecting as u32,
            FinishError::MissingMapping as u32,
            FinishError::TooLong as u32,
            FinishError::NoTreeNumber as u32,
            FinishError::NoMemory as u32,
        ],
        &[1, 2, 3, 4, 5],
    ),
    (
        "OpenError",
        &[
            OpenError::TooLong as u32,
            OpenError::NoTreeNumber as u32,
            OpenError::NoMemory as u32,
        ],
        &[1, 2, 3],
    ),
    (
        "EditError",
        &[
            EditError::TooLong as u32,
            EditError::NoTreeNumber as u32,
            EditError::NoMemory as u32,
        ],
        &[1, 2, 3],
    ),
    (
        "CommitError",
        &[
            CommitError::Foreign as u32,
            CommitError::Intersecting as u32,
            CommitError::MissingMapping as u32,
            CommitError::TooLong as u32,
            CommitError::Unfaithful as u32,
            CommitError::NoTreeNumber as u32,
            CommitError::NoMemory as u32,
        ],
        &[1, 2, 3, 4, 5, 6, 7],
    ),
    (
        "PayloadError",
        &[
            PayloadError::Message as u32,
            PayloadError::NotOneToken as u32,
            PayloadError::TooLong as u32,
            PayloadError::NoTreeNumber as u32,
            PayloadError::NoMemory as u32,
        ],
        &[1, 2, 3, 4, 5],
    ),
];

#[test]
fn errors_have_their_numbers(rt: HostRuntime) {
    for (name, numbers, wanted) in NUMBERS {
        assert!(rt; *numbers == *wanted, "{name}");
    }
}
