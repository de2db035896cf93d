//! Texts that are read as patterns.

use crate::checks::{count_places, has_two_sequences, is_mixed};
use crate::compile::compiled;
use crate::error::PatternError;
use crate::frames::{after, before};
use crate::pieces::{Piece, pieces_of, trimmed};
use crate::reading::{Dialect, opened, read_as};
use crate::spelling::{Spelling, StandIn, free_prefix, spelled_text, stand_ins};
use crate::stand_ins::spellings;
use rowan_green::{GreenElement, GreenNode, NodeOrToken};
use rust_document::Document;
use std::alloc::Global;
use tree_patterns::fragment::FRAGMENTS;
use tree_patterns::leaves::leaves_of;
use tree_patterns::{Fragment, Pattern};

/// A text with metavariables that was read, and how they were spelled.
#[derive(Drop)]
pub(crate) struct Spelled<T> {
    pub tree: T,
    pub spellings: Vec<Spelling>,
}

/// Returns the tree that a text with metavariables is as a fragment, if it reads so: first with each
/// spelled as an identifier, then with sequences spelled as elements of their lists.
fn read_pattern(
    alloc: Global,
    dialect: Dialect,
    fragment: Fragment,
    pieces: &[Piece<'_>],
    stand_ins: &[StandIn],
) -> Result<Option<Spelled<GreenNode>>, PatternError> {
    let mut names = Vec::new(alloc);
    for _ in stand_ins {
        names.push(Spelling::Name)?;
    }
    let text = spelled_text(alloc, pieces, stand_ins, names.as_slice())?;
    if let Some(tree) = read_as(alloc, dialect, fragment, text.as_str())? {
        return Ok(Some(Spelled {
            tree,
            spellings: names,
        }));
    }
    let before = before(fragment);
    let after = after(fragment);
    let text = text.as_str();
    let whole = format!(in alloc; "{before}{text}{after}")?;
    let document = opened(alloc, dialect, whole.as_str())?;
    let root = document.root().cursor().green().as_ref();
    let spelled = spellings(alloc, stand_ins, &root)?;
    let text = spelled_text(alloc, pieces, stand_ins, spelled.as_slice())?;
    match read_as(alloc, dialect, fragment, text.as_str())? {
        Some(tree) => Ok(Some(Spelled {
            tree,
            spellings: spelled,
        })),
        None => Ok(None),
    }
}

/// Returns the tree of a pattern that is read as a fragment, if it reads so.
pub(crate) fn pattern_as(
    alloc: Global,
    dialect: Dialect,
    fragment: Fragment,
    pieces: &[Piece<'_>],
    stand_ins: &[StandIn],
) -> Result<Option<Spelled<GreenElement>>, PatternError> {
    let Some(read) = read_pattern(alloc, dialect, fragment, pieces, stand_ins)? else {
        return Ok(None);
    };
    let Spelled { tree, spellings } = read;
    let element = compiled(alloc, stand_ins, &tree.as_ref())?;
    let places = match &element {
        NodeOrToken::Node(node) => count_places(alloc, &node.as_ref())?,
        NodeOrToken::Token(_) => 1,
    };
    if places != stand_ins.len() {
        return Err(PatternError::Glued);
    }
    if is_mixed(stand_ins) {
        return Err(PatternError::Mixed);
    }
    Ok(Some(Spelled {
        tree: element,
        spellings,
    }))
}

/// A text with metavariables, taken apart.
#[derive(Drop)]
pub(crate) struct Parts<'a> {
    pub pieces: Vec<Piece<'a>>,
    pub stand_ins: Vec<StandIn>,
}

/// Takes apart the text of an opened document.
pub(crate) fn parts_of<'a>(
    alloc: Global,
    document: &'a Document,
) -> Result<Parts<'a>, PatternError> {
    let root = document.root().cursor().green().as_ref();
    let leaves = leaves_of(alloc, &root)?;
    let Some(pieces) = pieces_of(alloc, leaves)? else {
        return Err(PatternError::MetavariableName);
    };
    let pieces = trimmed(alloc, pieces)?;
    let Some(prefix) = free_prefix(alloc, document.text())? else {
        return Err(PatternError::TooLong);
    };
    let stand_ins = stand_ins(alloc, prefix.as_str(), pieces.as_slice())?;
    Ok(Parts { pieces, stand_ins })
}

/// Reads a pattern: as `fragment`, or as the first of an expression, a type, a pattern of values, a
/// statement and an item that it reads as.
pub fn parse_pattern(
    alloc: Global,
    dialect: Dialect,
    text: &str,
    fragment: Option<Fragment>,
) -> Result<Pattern, PatternError> {
    let document = opened(alloc, dialect, text)?;
    let Parts { pieces, stand_ins } = parts_of(alloc, &document)?;
    for one in FRAGMENTS {
        if let Some(wanted) = fragment {
            if wanted != one {
                continue;
            }
        }
        let read = pattern_as(alloc, dialect, one, pieces.as_slice(), stand_ins.as_slice())?;
        let Some(read) = read else {
            continue;
        };
        let Spelled { tree, spellings: _ } = read;
        match tree {
            NodeOrToken::Token(_) => return Err(PatternError::OnlyMetavariable),
            NodeOrToken::Node(tree) => {
                if has_two_sequences(&tree.as_ref()) {
                    return Err(PatternError::TwoSequences);
                }
                return Ok(Pattern::of(one, tree));
            }
        }
    }
    Err(PatternError::PatternUnread)
}

/// Returns the fragments after `fragment` that a text reads as, too.
pub fn other_fragments(
    alloc: Global,
    dialect: Dialect,
    text: &str,
    fragment: Fragment,
) -> Result<Vec<Fragment>, PatternError> {
    let document = opened(alloc, dialect, text)?;
    let Parts { pieces, stand_ins } = parts_of(alloc, &document)?;
    let mut others = Vec::new(alloc);
    let mut is_later = false;
    for one in FRAGMENTS {
        if is_later {
            match pattern_as(alloc, dialect, one, pieces.as_slice(), stand_ins.as_slice()) {
                Ok(Some(_)) => others.push(one)?,
                Ok(None) => {}
                Err(PatternError::NoMemory) => return Err(PatternError::NoMemory),
                Err(_) => {}
            }
        }
        if one == fragment {
            is_later = true;
        }
    }
    Ok(others)
}
