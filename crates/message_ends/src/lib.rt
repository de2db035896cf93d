//! Where the messages of a document end.
#![tactic(auto)]

mod ends;

pub use ends::MessageEnds;
