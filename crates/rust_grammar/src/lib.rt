//! The grammar of Rust: the forms of rules, what a rule means on an input, the table of
//! productions, and laws of these.
//!
//! It holds definitions and what is proved of them; the functions that read what it says are those
//! of `rust_productions` and `grammar_reader`.
#![tactic(auto)]

pub mod laws;
