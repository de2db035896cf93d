//! The words of the language for kinds of tokens and nodes, as messages have them.
#![tactic(auto)]

mod words;

pub use words::words_of;
