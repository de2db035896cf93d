//! The command that renames identifiers, lifetimes and labels in files.
#![tactic(auto)]

mod advice;
mod left_names;
mod names;
mod renaming;
mod survey;

pub use renaming::rename;
