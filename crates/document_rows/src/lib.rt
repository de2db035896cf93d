//! Tokens, tree and messages of a document as rows of `u32`s, in the layout of C.
#![tactic(auto)]

pub mod messages;
pub mod rows;
pub mod tokens;
pub mod tree;

pub use messages::{MessageRows, message_rows};
pub use rows::{ElementRow, MessageRow, RangeRow, TokenRow};
pub use tokens::token_rows;
pub use tree::element_rows;
