//! Cursors are tried here, in the trees of a small language of lists of words.
#![tactic(auto)]

pub mod lists;

pub use lists::{Kind, ListNode, Lists};

#[cfg(test)]
mod tests;
