//! Reads texts as patterns.
//!
//! `$a` stands for one element, `$$$a` for a run of elements of a list; `$_`, `$$$_` and `$$$` stand for
//! any such part, and bind nothing.
#![tactic(auto)]

pub mod checks;
pub mod compile;
pub mod error;
pub mod frames;
pub mod parse;
pub mod pieces;
pub mod reading;
pub mod spelling;
pub mod stand_ins;
pub mod template;
pub mod words;

pub use error::PatternError;
pub use parse::{other_fragments, parse_pattern};
pub use reading::{Dialect, read_node};
pub use template::{Hole, Template, TemplatePiece, TemplateTree, parse_template};
pub use words::may_match;
