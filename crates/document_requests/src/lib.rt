//! Requests: a Rust text is read, changes to it are made where the new text reads as the changed
//! tree, and each is answered.
//!
//! `run` reads a request as JSON from any reader, and writes its answer to any writer.
#![tactic(auto)]

mod answer_line;
pub mod apply;
mod device;
mod dialogue;
pub mod fault;
mod floats;
mod lines;
mod print;
mod reason;
pub mod reply;
pub mod request;
mod rule;
pub mod run;
pub mod serve;
mod shape;
pub mod stop;
pub mod watched;

pub use dialogue::Dialogue;
pub use fault::Fault;
pub use line_reader::serve_lines;
pub use reason::first_difference;
pub use reply::{Refusal, Reply};
pub use request::{Change, Command, Entry, Format, Op, Request, Target};
pub use rule::{CommitRule, answer_by};
pub use shape::commands_of;
pub use watched::Watched;
