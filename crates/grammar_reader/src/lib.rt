//! Reads the productions of the grammar of Rust that call each other: the table, and what a rule
//! means on an input, are `rust_grammar`'s; the productions that call none of these are
//! `rust_productions`'.
#![tactic(auto)]

pub mod grammar;
