//! Lexes texts over and over, stage by stage, and prints the number of tokens of the parser's
//! input.
//!
//! Standard input is a list of texts, each ended by the character U+001E; the edition is 2021. With
//! no text, trivia is added to the steps of an output of a million tokens instead. [`stages`] and
//! [`events`] describe the output of each round.
#![tactic(auto)]

use events::measure_events;
use stages::measure_stages;
use std::alloc::{AllocError, Global};
use std::io;

mod events;
mod stages;

/// The number of rounds.
const ROUNDS: u32 = 5;

fn split(alloc: Global, texts: &str) -> Result<Vec<&str>, AllocError> {
    let mut all = Vec::new(alloc);
    for text in texts.split_terminator('\u{1E}') {
        all.push(text)?;
    }
    Ok(all)
}

fn main(rt: HostRuntime) -> io::Result<()> {
    let read = io::read_to_string(rt.alloc(), rt.reader())?;
    let texts = split(rt.alloc(), read.as_str())?;
    if texts.is_empty() {
        return measure_events(&rt, ROUNDS);
    }
    measure_stages(&rt, &texts, ROUNDS)
}
