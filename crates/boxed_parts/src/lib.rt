//! A box as its pointer and its allocator.
#![tactic(auto)]

pub mod parts;

pub use parts::Parts;
