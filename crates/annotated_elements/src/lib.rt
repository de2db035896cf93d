//! Elements that were annotated before a rewrite, found again in the rewritten tree.
//!
//! An annotated element is followed by a mapping to its end: a step goes to the image of the nearest
//! mapped node at or above it, and down again by the same child indices. The element is found at
//! each element of the rewritten tree that was copied from its end.
#![tactic(auto)]

pub mod annotated;
pub mod changed;
pub mod following;
pub mod found;
mod groups;
pub mod laws;
