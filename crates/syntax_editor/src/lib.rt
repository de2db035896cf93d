//! Changes recorded on a numbered tree, and the tree with all of them applied.
//!
//! An editor only records: its tree stays unchanged. An inserted element may be of any tree, and is
//! copied as it is there.
#![tactic(auto)]

pub mod again;
pub mod annotation;
pub mod attrs;
mod by_way;
pub mod changes;
pub mod edit;
pub mod editor;
pub mod error;
pub mod factory;
pub mod find;
mod groups;
pub mod indent_level;
pub mod laws;
pub mod make_error;
pub mod merging;
pub mod nodes;
mod noted;
pub mod recorded;
pub mod recording;
pub mod rewriting;
pub mod spaced;
pub mod target;
pub mod typed;
mod undo;
pub mod whitespace;

pub use annotation::{Annotations, SyntaxAnnotation};
pub use attrs::AttrsOwnerEdit;
pub use edit::SyntaxEdit;
pub use editor::SyntaxEditor;
pub use error::{FinishError, MergeError, RecordError, RewriteError, WhitespaceError};
pub use factory::SyntaxFactory;
pub use indent_level::IndentLevel;
pub use make_error::MakeError;
pub use merging::Unmerged;
pub use nodes::{Fn, HasAttrs, ItemList, SourceFile, StmtList, Struct, Use};
pub use whitespace::Space;
