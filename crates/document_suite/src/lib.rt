//! Tests of trees and documents.
#![tactic(auto)]

#[cfg(test)]
mod tests;
