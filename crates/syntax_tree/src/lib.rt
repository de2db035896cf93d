//! Nodes and tokens of numbered trees, over the cursors of `rowan`.
//!
//! Model of an element: the number of its tree, and its place, which is the green root and the
//! element's *up-path*: the child indices from the element up to the root, innermost first.
//! `cursor` returns a reference to the cursor, through which everything else is read.
#![tactic(auto)]

pub mod around;
pub mod ast;
pub mod element;
pub mod elements;
pub mod error;
pub mod find;
pub mod handle;
pub mod iter;
pub mod kinds;
pub mod language;
pub mod mapping;
pub mod position;
mod same;
pub mod tree_ids;
pub mod ways;

pub use ast::AstNode;
pub use element::{Element, SyntaxElement};
pub use error::{MappingError, PositionError, Spent, TreeError};
pub use handle::{SyntaxNode, SyntaxToken};
pub use iter::{Ancestors, DescendantsWithTokens, SyntaxElementChildren, SyntaxNodeChildren};
pub use kinds::{ChildrenOfKind, Descendants};
pub use language::RustLanguage;
pub use mapping::{SyntaxMapping, SyntaxMappingBuilder};
pub use position::Position;
pub use tree_ids::TreeIds;
