//! Green trees are tried here.
#![tactic(auto)]

#[cfg(test)]
mod built_trees;
#[cfg(test)]
mod tests;
