//! Laws of recorded changes that replace leaves by leaves.
//!
//! It holds definitions and what is proved of them.
#![tactic(auto)]

pub mod laws;
