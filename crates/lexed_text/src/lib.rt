//! A text that keeps its tokens over edits.
#![tactic(auto)]

pub mod kept;
pub mod laws;
mod lexed_text;
mod relex;
mod replace;
mod runs;

pub use kept::Kept;
pub use lexed_text::LexedText;
