//! A session of the Language Server Protocol: the texts that a client has open, and what it is told of them.
#![tactic(auto)]

mod documents;
mod language;
pub mod laws;
mod losses;
mod messages;
mod notices;
mod requests;
mod session;
mod telling;

pub use language::Language;
pub use messages::step;
pub use session::{OpenText, Phase, Session};
pub use telling::tell;
