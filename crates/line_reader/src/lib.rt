//! Lines of a client, each of them bounded and each answered.
//!
//! [`serve_lines`] reads lines from a [`Client`] and writes an answer to each. It reads only when each
//! whole line that the client has sent is answered. A line past a limit is skipped, and its bytes are
//! not kept.
#![tactic(auto)]

mod client;
mod line;
mod serve;

pub use client::Client;
pub use serve::{Stop, serve_lines};
