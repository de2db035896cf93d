//! Rewrites of numbered trees: recorded changes, applied atomically.
//!
//! A change inserts elements into a gap between children, or replaces a range of children. All
//! changes of a list are recorded on one tree and applied to it as it was. The contents of a
//! replaced element are discarded with it. But if a node is replaced by a node, the changes inside
//! it are applied to that payload, at the place that a mapping names.
//!
//! - A *payload*: the elements that a change inserts, or by which it replaces others.
//! - A *target tree* (`sheet` in definitions) is the recorded tree, or a payload with changes inside the node that
//!   it replaces.
//! - A *planned change* (`Job`) is a change of a target tree: those inside a payload come first.
//! - An *up-path* (`way`) leads from an element to its root: child indices, the innermost first.
//! - A *gap* is the place before a child, or after the last one; a *slot* is that of a child.
//! - *Pieces* are the rewritten tree in preorder; those of a payload are in a *group*.
#![tactic(auto)]

pub mod change;
mod changed;
mod climb;
mod depth;
pub mod error;
mod execute;
mod fill;
mod green;
mod held_ways;
pub mod job;
mod kept;
pub mod laws;
mod lists;
pub mod mapped;
mod moved;
mod nesting;
mod on_payloads;
pub mod origins;
mod overlay;
mod path;
pub mod piece;
pub mod plan;
mod put;
mod sheet;
mod target_tree;
pub mod tree_change;
pub mod way_map;
mod way_trie;
mod ways;
