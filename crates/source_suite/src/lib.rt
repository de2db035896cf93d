//! The crates for tools, the tools that are examples, and what the command plans are tried here.
#![tactic(auto)]

#[cfg(test)]
mod errors;
#[cfg(test)]
mod extractions;
#[cfg(test)]
mod mentions;
#[cfg(test)]
mod must_use;
#[cfg(test)]
mod plans;
#[cfg(test)]
mod previews;
#[cfg(test)]
mod renames;
#[cfg(test)]
mod renaming_tool;
#[cfg(test)]
mod reports;
#[cfg(test)]
mod rewrites;
#[cfg(test)]
mod trials;
#[cfg(test)]
mod typed;
