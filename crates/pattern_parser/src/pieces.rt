//! Metavariables among the leaves of a text.

use parser_input::SyntaxKind;
use rowan_green::GreenTokenRef;
use std::alloc::{AllocError, Global};

/// A piece of a pattern's text.
#[derive(Drop)]
pub enum Piece<'a> {
    /// A leaf that is no part of a metavariable.
    Plain(GreenTokenRef<'a>),
    /// `$` and a name.
    One(GreenTokenRef<'a>),
    /// `$$$` and a name.
    Many(GreenTokenRef<'a>),
    /// `$$$` alone.
    Rest,
}

/// Returns `true` if a leaf is of the kind.
fn is_of(leaf: &GreenTokenRef<'_>, kind: SyntaxKind) -> bool {
    leaf.kind().0 == kind.to_raw()
}

/// Returns `true` if a leaf is the name of a metavariable: an identifier that is not raw, or `_`.
fn is_name(leaf: &GreenTokenRef<'_>) -> bool {
    if is_of(leaf, SyntaxKind::UNDERSCORE) {
        return true;
    }
    is_of(leaf, SyntaxKind::IDENT) && !matches!(leaf.text().as_bytes(), [b'r', b'#', ..])
}

/// Returns `true` if a leaf begins with an ASCII letter or digit.
fn is_word(leaf: &GreenTokenRef<'_>) -> bool {
    match leaf.text().as_bytes() {
        [first, ..] => first.is_ascii_alphanumeric(),
        [] => false,
    }
}

/// Appends a leaf with the `dollars` before it: one or three of them before a name make a metavariable.
/// Returns `false` if they begin no metavariable.
fn push_leaf<'a>(
    dollars: u8,
    leaf: GreenTokenRef<'a>,
    pieces: &mut Vec<Piece<'a>>,
) -> Result<bool, AllocError> {
    if dollars == 0 {
        pieces.push(Piece::Plain(leaf))?;
        return Ok(true);
    }
    if is_name(&leaf) {
        if dollars == 1 {
            pieces.push(Piece::One(leaf))?;
            return Ok(true);
        }
        if dollars == 3 {
            pieces.push(Piece::Many(leaf))?;
            return Ok(true);
        }
        return Ok(false);
    }
    if dollars == 3 && !is_word(&leaf) {
        pieces.push(Piece::Rest)?;
        pieces.push(Piece::Plain(leaf))?;
        return Ok(true);
    }
    Ok(false)
}

/// Returns the pieces of a text by its leaves; `None` if a `$` begins no metavariable.
pub fn pieces_of<'a>(
    alloc: Global,
    leaves: Vec<GreenTokenRef<'a>>,
) -> Result<Option<Vec<Piece<'a>>>, AllocError> {
    let mut pieces = Vec::new(alloc);
    let mut dollars = 0u8;
    for leaf in leaves {
        if is_of(&leaf, SyntaxKind::DOLLAR) {
            if dollars == 3 {
                return Ok(None);
            }
            dollars = dollars.saturating_add(1);
        } else {
            if !push_leaf(dollars, leaf, &mut pieces)? {
                return Ok(None);
            }
            dollars = 0;
        }
    }
    if dollars == 3 {
        pieces.push(Piece::Rest)?;
        dollars = 0;
    }
    Ok(if dollars == 0 { Some(pieces) } else { None })
}

/// Returns the pieces of a text without the whitespace at both ends.
pub fn trimmed<'a>(alloc: Global, pieces: Vec<Piece<'a>>) -> Result<Vec<Piece<'a>>, AllocError> {
    let mut kept = Vec::new(alloc);
    let last = pieces.len().saturating_sub(1);
    for (index, piece) in pieces.into_iter().enumerate() {
        let is_end = index == 0 || index == last;
        match piece {
            Piece::Plain(leaf) if is_end && leaf.kind().0 == SyntaxKind::WHITESPACE.to_raw() => {}
            piece => kept.push(piece)?,
        }
    }
    Ok(kept)
}
