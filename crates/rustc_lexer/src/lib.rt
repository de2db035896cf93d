//! Lexer for Rust source text: cuts a text into tokens, each a kind and a length in bytes. The
//! tokens cover the whole text.
#![tactic(auto)]

mod bytes;
mod classes;
mod comments;
mod cursor;
pub mod laws;
mod lexemes;
mod literals;
mod names;
mod numbers;
mod shebang;
mod token;
mod tokens;

pub use classes::{is_horizontal_whitespace, is_id_continue, is_id_start, is_ident, is_whitespace};
pub use cursor::Cursor;
pub use shebang::strip_shebang;
pub use token::{Base, DocStyle, LiteralKind, Token, TokenKind};
pub use tokens::{Tokens, tokenize};
