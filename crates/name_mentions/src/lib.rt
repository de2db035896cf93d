//! Where the tokens of a text spell a name but are not the identifier.
#![tactic(auto)]

mod mentions;
mod place;
mod words;

pub use mentions::{Mentions, mentions_of};
pub use place::{Mention, MentionPlace};
