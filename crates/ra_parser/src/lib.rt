//! The entries of the grammar of Rust: its table, and what a rule means on an input, are
//! `rust_grammar`'s.
//!
//! An input is read as what is asked of it: [`TopEntryPoint::parse`]. What reads is
//! `grammar_reader`, each production by its own function.
#![tactic(auto)]

mod entries;
pub mod entry_points;
mod grammar;

pub use entry_points::{ParseError, TopEntryPoint};
pub use grammar::Grammar;
