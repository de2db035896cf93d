//! Stand-ins: identifiers in place of metavariables, and texts with them.

use crate::pieces::Piece;
use std::alloc::{AllocError, Global};

/// How a metavariable is spelled, so that it is an element of a list.
#[derive(Clone, Copy, Debug, PartialEq, Eq)]
pub enum Spelling {
    /// `q`
    Name,
    /// `q: q`, a parameter of a function or a field
    Typed,
    /// `q => q,`, an arm
    Arm,
    /// `q! {}`, an item
    Item,
}

/// A metavariable with the identifier in its place.
#[derive(Drop)]
pub struct StandIn {
    pub word: String,
    pub name: String,
    pub is_sequence: bool,
}

/// Returns the first `q0_`, `q1_`, .. that a text lacks, if one of the first 2^32 - 1 is.
pub fn free_prefix(alloc: Global, text: &str) -> Result<Option<String>, AllocError> {
    for number in 0..u32::MAX {
        let prefix = format!(in alloc; "q{number}_")?;
        if text.find(prefix.as_str()).is_none() {
            return Ok(Some(prefix));
        }
    }
    Ok(None)
}

/// Returns the name of a metavariable and whether it is a sequence; `None` for other pieces.
fn named<'a, 'b>(piece: &'b Piece<'a>) -> Option<(&'b str, bool)> {
    match piece {
        Piece::Plain(_) => None,
        Piece::One(name) => Some((name.text(), false)),
        Piece::Many(name) => Some((name.text(), true)),
        Piece::Rest => Some(("_", true)),
    }
}

/// Returns the stand-ins of a text's metavariables, in order.
pub fn stand_ins(
    alloc: Global,
    prefix: &str,
    pieces: &[Piece<'_>],
) -> Result<Vec<StandIn>, AllocError> {
    let mut all = Vec::new(alloc);
    for piece in pieces {
        if let Some((name, is_sequence)) = named(piece) {
            let number = all.len();
            let word = format!(in alloc; "{prefix}{number}")?;
            let name = String::from_str(alloc, name)?;
            all.push(StandIn {
                word,
                name,
                is_sequence,
            })?;
        }
    }
    Ok(all)
}

/// Adds a stand-in as it is spelled.
pub(crate) fn push_spelled(
    text: &mut String,
    word: &str,
    spelling: Spelling,
) -> Result<(), AllocError> {
    text.push_str(word)?;
    match spelling {
        Spelling::Name => {}
        Spelling::Typed => {
            text.push_str(": ")?;
            text.push_str(word)?;
        }
        Spelling::Arm => {
            text.push_str(" => ")?;
            text.push_str(word)?;
            text.push_str(",")?;
        }
        Spelling::Item => text.push_str("! {}")?,
    }
    Ok(())
}

/// Returns the text with stand-ins in place of metavariables, spelled by number.
pub fn spelled_text(
    alloc: Global,
    pieces: &[Piece<'_>],
    stand_ins: &[StandIn],
    spellings: &[Spelling],
) -> Result<String, AllocError> {
    let mut text = String::new(alloc);
    let mut number = 0usize;
    for piece in pieces {
        if let Piece::Plain(leaf) = piece {
            text.push_str(leaf.text())?;
        } else if number < stand_ins.len() && number < spellings.len() {
            push_spelled(
                &mut text,
                stand_ins[number].word.as_str(),
                spellings[number],
            )?;
            number += 1;
        }
    }
    Ok(text)
}
