//! The input of the parser: editions, syntax kinds, keywords, the leaves of a text and its preface.
#![tactic(auto)]

pub mod edition;
pub mod errors;
mod escapes;
pub mod frontmatter;
pub mod frontmatter_error;
pub mod input;
pub mod keywords;
mod kind_names;
mod kind_table;
pub mod laws;
mod leaves;
pub mod lexed_str;
mod literals;
mod message;
mod parser_token;
mod steps;
pub mod syntax_kind;
mod word_table;

pub use edition::Edition;
pub use input::Input;
pub use lexed_str::LexedStr;
pub use syntax_kind::SyntaxKind;
