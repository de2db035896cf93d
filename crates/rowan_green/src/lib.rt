//! Green trees: immutable syntax trees whose nodes and tokens are shared and know neither their
//! parents nor their offsets.
//!
//! The model of a green value is a term: a token is a leaf (a kind and a text), a node is a kind
//! and a list of terms. Contracts do not say which values are shared, nor which cache has them.
//!
//! A tree from a builder is in one arena: its text once, and an entry of 8 bytes for each node and
//! token. A node that is created from elements, or by an edit, stores its length, and its children
//! as a balanced list.
//!
//! - `clone`, `kind`, `text_len` and `children` take constant time.
//! - `child`, `child_at_offset` and each step through the children of a list take time in the
//!   list's height, which is 0 for up to 16 children. `child_at_offset` halves the children of an
//!   arena's node.
//! - An edit takes the time of the new children and of a few paths through the list. It shares the
//!   other parts of the list, and leaves the other children of an arena's node in the arena.
//! - A build takes the time of its calls.
//! - Equality reads both values to their ends.
//! - Printing nests one call for each level above the arenas.
//! - Dropping and comparing continue with the longest child in a loop: their calls nest to the
//!   binary logarithm of the text's length, and as deep as nodes without text are nested.
#![tactic(auto)]

mod arena;
pub mod builder;
pub mod child_at;
mod closing;
mod display;
pub mod element;
mod element_clones;
mod element_list;
mod element_list_join;
pub mod element_ref;
mod element_search;
mod equality;
pub mod error;
mod flat_children;
mod flat_node;
mod flat_ref;
mod growing;
mod list_children;
pub mod node;
pub mod node_cache;
pub mod node_children;
mod node_data;
mod node_edits;
mod node_hash;
mod pieces;
mod reading;
mod run;
pub mod syntax_kind;
pub mod text_builder;
pub mod text_range;
pub mod text_size;
pub mod token;
pub mod utility_types;

pub use builder::{Checkpoint, GreenNodeBuilder, Unfinished};
pub use child_at::ChildAt;
pub use element::GreenElement;
pub use element_ref::{GreenElementRef, GreenNodeRef, GreenTokenRef};
pub use error::GreenError;
pub use node::GreenNode;
pub use node_cache::NodeCache;
pub use node_children::Children;
pub use syntax_kind::SyntaxKind;
pub use text_builder::GreenTextBuilder;
pub use text_range::TextRange;
pub use text_size::TextSize;
pub use token::GreenToken;
pub use utility_types::NodeOrToken;
