//! The editions that Cargo's manifests name.
#![tactic(auto)]

mod manifest;

pub use manifest::{Said, said_in};
