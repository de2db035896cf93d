//! Indents and dedents nodes. Each call returns the root of a new tree.
#![tactic(auto)]

pub mod ast_node_edit;
pub mod edit;
pub mod error;
pub mod laws;
pub mod mapped;
pub mod shift;
pub mod trees;

pub use ast_node_edit::AstNodeEdit;
pub use edit::{dedent, indent, reset_indent};
pub use error::IndentError;
pub use mapped::indent_with_mapping;
