//! The core of Rust as a language of its own, and the laws that the grammar reads it as what it is.
//!
//! It holds definitions and what is proved of them.
#![tactic(auto)]

pub mod laws;
