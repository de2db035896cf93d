//! A server of the Language Server Protocol over a reader and a writer.
#![tactic(auto)]

pub mod laws;
mod server;
mod write;

pub use server::serve;
