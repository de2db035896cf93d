//! Laws of texts and trees in which identifiers are renamed.
//!
//! It holds definitions and what is proved of them.
#![tactic(auto)]

pub mod laws;
