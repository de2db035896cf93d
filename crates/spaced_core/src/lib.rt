//! Laws of trees of the core language in which whitespace parts the leaves.
//!
//! It holds definitions and what is proved of them.
#![tactic(auto)]

pub mod laws;
