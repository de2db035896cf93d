//! Replaces the matches of a pattern by a template.
//!
//! A [`Rule`] is a pattern and a template. Each match is replaced by the template with what the places of
//! the pattern stand for in its holes, in parentheses exactly where the text would read otherwise. The new
//! text is accepted only if it reads as the tree with these replacements.
#![tactic(auto)]

mod asked;
mod candidate;
mod comments;
mod error;
mod fillings;
mod frames;
mod indents;
mod instance;
mod replacing;
mod rule;
mod same;
mod spots;
mod template_text;
mod texts;

pub use error::{Reason, Refusal, ReplaceError, RuleError};
pub use replacing::{Comments, Options, Replaced, replace};
pub use rule::Rule;
