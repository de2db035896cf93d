//! A Rust text for whoever writes a tool: one crate to name.
//!
//! A [`Source`] holds the allocator, the tree numbers and the document, so that a tool passes
//! neither. All that a tool names is exported here. Each call answers with its own error, and
//! [`SourceError`] takes all of them by `?`.
#![tactic(auto)]

pub mod ancestors;
mod changed_ranges;
pub mod error;
pub mod identifiers;
pub mod lines;
pub mod making;
pub mod preview;
pub mod ranged_errors;
pub mod source;

pub use ancestors::ancestor_below;
pub use changed_ranges::ChangedRange;
pub use error::{NodeError, SourceError};
pub use lines::Side;
pub use making::is_of_kind;
pub use parser_input::{Edition, SyntaxKind};
pub use preview::Preview;
pub use ra_parser::{Grammar, TopEntryPoint};
pub use ranged_errors::RangedError;
pub use renamer::RenameError;
pub use rowan_green::{TextRange, TextSize};
pub use rust_document::{
    Annotations, CommitError, Committed, Difference, EditError, Edited, IndentLevel, LexedToken,
    MakeError, MergeError, OpenError, PayloadEntry, PayloadError, RecordError, Space,
    SyntaxAnnotation, SyntaxEditor, SyntaxError, SyntaxMessage, Tokens, WhitespaceError,
    WithoutMessagesError, is_plain_name,
};
pub use source::Source;
pub use syntax_tree::{
    Element, Position, PositionError, SyntaxElement, SyntaxMapping, SyntaxMappingBuilder,
    SyntaxNode, SyntaxToken, TreeIds,
};
pub use typed_nodes::{
    AstNode, Attr, AttrParts, Call, CallParts, Enum, EnumParts, Fn, FnParts, HasArgList,
    HasAttributes, HasElements, HasGenericParams, HasName, HasVisibility, Impl, ImplParts,
    ItemList, Let, LetParts, MethodCall, MethodCallParts, SourceFile, StmtList, Struct,
    StructParts, Use, UseParts,
};
