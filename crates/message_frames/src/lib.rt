//! Messages of a stream, each with a header that says how many bytes it has, as the Language Server Protocol has them.
//!
//! [`frame_in`] reads the message that a buffer begins with, and [`push_message`] writes a message with its header.
#![tactic(auto)]

mod frame;
mod header;
pub mod laws;
mod number;
mod write;

pub use frame::{Frame, MAX_BODY, frame_in};
pub use header::{HeaderRead, MAX_HEADER, header_in};
pub use write::push_message;
