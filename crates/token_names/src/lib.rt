//! Which tokens have a name: identifiers and lifetimes, in each spelling that the compiler takes as one.
#![tactic(auto)]

mod macro_names;
mod names;

pub use macro_names::is_macro_name;
pub use names::{has_name, is_given, is_lifetime, is_of_kind, word_of};
