//! A text with its reading: its messages and its tree, and nothing that an earlier text left.
//!
//! A text is read whole, by the grammar that the document was opened with: the profile, or the
//! whole language. It changes by edits of its bytes, and by what an editor records on its tree.
#![tactic(auto)]

mod bare;
mod content_edit;
pub mod difference;
pub mod document;
mod edit;
pub mod error;
pub mod laws;
mod leaf;
mod lexing;
mod message_sink;
mod name_edit;
mod parse;
pub mod payload_entry;
pub mod plain_name;
mod preface;
mod read;
mod rewrite;
pub mod syntax_error;
pub mod tokens;
mod tree_sink;
mod tree_text;

pub use difference::Difference;
pub use document::{Committed, Document, Edited, MAX_TEXT, RewrittenText};
pub use error::{CommitError, EditError, OpenError, PayloadError, WithoutMessagesError};
pub use parser_input::edition::Edition;
pub use parser_input::syntax_kind::SyntaxKind;
pub use payload_entry::{PayloadEntry, payload};
pub use plain_name::is_plain_name;
pub use ra_parser::{Grammar, TopEntryPoint};
pub use rowan_green::TextRange;
pub use syntax_editor::{
    Annotations, AttrsOwnerEdit, Fn, HasAttrs, IndentLevel, ItemList, MakeError, MergeError,
    RecordError, SourceFile, Space, StmtList, Struct, SyntaxAnnotation, SyntaxEditor,
    SyntaxFactory, Unmerged, Use, WhitespaceError,
};
pub use syntax_error::{SyntaxError, SyntaxMessage};
pub use syntax_tree::{SyntaxElement, SyntaxNode, TreeIds};
pub use tokens::{LexedToken, Tokens};
