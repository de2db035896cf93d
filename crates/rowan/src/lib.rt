//! Cursors over green trees: nodes and tokens that know their positions.
//!
//! The model of a cursor is a place: a root term and the up-path, child indices with the innermost
//! first. The path from the root is the up-path reversed. Everything else follows from the two: the
//! green value is the term there, an offset is the length of all text before it, a walk is a part
//! of the word of the tree.
//!
//! A node keeps its parent and its offset, so a step to its parent takes constant time. A step to a
//! child or to a neighbouring sibling takes time in the height of the balanced list of children.
//! Each allocates at most one small block; a token allocates nothing, and cloning does not
//! allocate. Steps to a sibling that is a node skip the tokens between, one by one. Comparing two
//! cursors with equal up-paths reads both roots.
//!
//! Cursors are dropped, and their up-paths compared and hashed, by loops. Finding the character at
//! an offset descends by a loop, too. Comparing a text with a string nests calls to the binary
//! logarithm of the text's length at most; printing a text, reading its chunks and comparing two
//! texts go one call deeper for each level of the tree.
//!
//! A call that creates a cursor allocates or increments a reference count, so it returns a
//! `Result`. An iterator yields one `Err` and then ends.
#![tactic(auto)]

pub mod api;
pub mod around;
pub mod ast;
mod child_parts;
mod chunks;
mod cursor;
mod cursor_pointer;
mod cursor_ranges;
mod cursor_step;
mod cursor_tokens;
mod debug_tree;
mod display;
pub mod element;
mod equality;
pub mod error;
pub mod language;
pub mod laws;
pub mod preorder;
pub mod ptr;
mod replace;
pub mod syntax_children;
pub mod syntax_text;
mod text_bytes;
mod text_chunks;
mod text_compare;
mod text_search;
mod token_at_offset;
pub mod utility_types;
mod walk;
mod ways;

pub use api::{SyntaxElement, SyntaxNode, SyntaxToken};
pub use around::{Ancestors, Siblings, SiblingsWithTokens};
pub use ast::{AstChildren, AstNode, AstPtr, support};
pub use element::ElementExt;
pub use error::CursorError;
pub use language::Language;
pub use preorder::{Descendants, DescendantsWithTokens, Preorder, PreorderWithTokens};
pub use ptr::SyntaxNodePtr;
pub use syntax_children::{SyntaxElementChildren, SyntaxNodeChildren};
pub use syntax_text::SyntaxText;
pub use utility_types::{Direction, TokenAtOffset, WalkEvent};
