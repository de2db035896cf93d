//! Editors are tried here.
#![tactic(auto)]

#[cfg(test)]
mod tests;
