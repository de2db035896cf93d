//! Functions of the productions of the grammar of Rust that call none of the cycle of calls in
//! `grammar_reader`: the table, and what a rule means on an input, are `rust_grammar`'s.
#![tactic(auto)]

pub mod condition;
pub mod grammar;
pub mod marker;
pub mod parser;
