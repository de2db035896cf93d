//! The text of a template with its holes filled.

use crate::fillings::Filling;
use crate::rule::Rule;
use parser_input::SyntaxKind;
use pattern_parser::TemplatePiece;
use std::alloc::{AllocError, Global};
use tree_patterns::bones::is_trivia;
use tree_patterns::kinds::is_among;

/// Lists without commas.
const PLAIN_LISTS: [SyntaxKind; 4] = [
    SyntaxKind::STMT_LIST,
    SyntaxKind::MATCH_ARM_LIST,
    SyntaxKind::ITEM_LIST,
    SyntaxKind::ASSOC_ITEM_LIST,
];

/// Returns `true` if a piece of a template is a leaf of a kind.
fn is_leaf(piece: &TemplatePiece, kind: SyntaxKind) -> bool {
    match piece {
        TemplatePiece::Leaf(raw, _) => *raw == kind.to_raw(),
        TemplatePiece::Hole(_) => false,
    }
}

/// Returns `true` if a piece of a template is whitespace or a comment.
fn is_blank(piece: &TemplatePiece) -> bool {
    match piece {
        TemplatePiece::Leaf(raw, _) => is_trivia(*raw),
        TemplatePiece::Hole(_) => false,
    }
}

/// Returns the number of the first piece from `at` on that is no whitespace and no comment.
fn next_token(pieces: &[TemplatePiece], at: usize) -> Option<usize> {
    for (number, piece) in pieces.iter().enumerate() {
        if number >= at && !is_blank(piece) {
            return Some(number);
        }
    }
    None
}

/// Returns the number of the last piece before `at` that is no whitespace and no comment.
fn last_token(pieces: &[TemplatePiece], at: usize) -> Option<usize> {
    let mut found = None;
    for (number, piece) in pieces.iter().enumerate() {
        if number < at && !is_blank(piece) {
            found = Some(number);
        }
    }
    found
}

/// Marks the pieces of a range that are no comments as dropped.
fn drop_range(pieces: &[TemplatePiece], dropped: &mut Vec<bool>, start: usize, end: usize) {
    for (number, piece) in pieces.iter().enumerate() {
        let is_in = number >= start && number < end;
        if is_in && number < dropped.len() && !is_leaf(piece, SyntaxKind::COMMENT) {
            dropped[number] = true;
        }
    }
}

/// Marks the piece as dropped if it is whitespace.
fn drop_blank(pieces: &[TemplatePiece], dropped: &mut Vec<bool>, at: usize) {
    let is_blank = at < pieces.len() && is_leaf(&pieces[at], SyntaxKind::WHITESPACE);
    if is_blank && at < dropped.len() {
        dropped[at] = true;
    }
}

/// Marks what goes with an empty sequence: one comma beside it, with the whitespace between.
fn drop_comma(pieces: &[TemplatePiece], dropped: &mut Vec<bool>, at: usize) {
    if let Some(next) = next_token(pieces, at.saturating_add(1)) {
        if next < pieces.len() && is_leaf(&pieces[next], SyntaxKind::COMMA) {
            drop_range(
                pieces,
                dropped,
                at.saturating_add(1),
                next.saturating_add(1),
            );
            drop_blank(pieces, dropped, next.saturating_add(1));
            return;
        }
    }
    if let Some(last) = last_token(pieces, at) {
        if last < pieces.len() && is_leaf(&pieces[last], SyntaxKind::COMMA) {
            drop_range(pieces, dropped, last, at);
        }
    }
}

/// Returns which pieces of the template go: beside a sequence that brings its whole list the whitespace,
/// beside an empty one a comma.
fn dropped_pieces(
    rule: &Rule,
    alloc: Global,
    fillings: &[Filling],
) -> Result<Vec<bool>, AllocError> {
    let pieces = rule.template.pieces.as_slice();
    let mut dropped = Vec::new(alloc);
    for _ in pieces {
        dropped.push(false)?;
    }
    for (at, piece) in pieces.iter().enumerate() {
        let TemplatePiece::Hole(hole) = piece else {
            continue;
        };
        let hole = *hole;
        let holes = rule.template.holes.as_slice();
        if hole >= holes.len() || hole >= fillings.len() || !holes[hole].is_sequence {
            continue;
        }
        if hole < rule.wholes.len() && rule.wholes[hole] && fillings[hole].count > 0 {
            drop_blank(pieces, &mut dropped, at.saturating_sub(1));
            drop_blank(pieces, &mut dropped, at.saturating_add(1));
        } else if fillings[hole].count == 0 && hole < rule.lists.len() {
            if is_among(&PLAIN_LISTS, rule.lists[hole]) {
                drop_blank(pieces, &mut dropped, at.saturating_sub(1));
            } else {
                drop_comma(pieces, &mut dropped, at);
            }
        }
    }
    Ok(dropped)
}

/// Adds whitespace of a template: behind its last line feed comes the indent of the match.
fn push_blank(out: &mut String, blank: &str, indent: &str) -> Result<(), AllocError> {
    let Some((lines, rest)) = blank.rsplit_once('\n') else {
        return out.push_str(blank);
    };
    out.push_str(lines)?;
    out.push_str("\n")?;
    out.push_str(indent)?;
    out.push_str(rest)
}

/// Returns the text of the template with fillings in its holes.
pub fn filled(
    alloc: Global,
    rule: &Rule,
    fillings: &[Filling],
    indent: &str,
) -> Result<String, AllocError> {
    let dropped = dropped_pieces(rule, alloc, fillings)?;
    let mut out = String::new(alloc);
    for (piece, goes) in rule.template.pieces.iter().zip(dropped.iter()) {
        if *goes {
            continue;
        }
        match piece {
            TemplatePiece::Leaf(kind, text) if *kind == SyntaxKind::WHITESPACE.to_raw() => {
                push_blank(&mut out, text.as_str(), indent)?;
            }
            TemplatePiece::Leaf(_, text) => out.push_str(text.as_str())?,
            TemplatePiece::Hole(hole) => {
                if *hole < fillings.len() {
                    out.push_str(fillings[*hole].text.as_str())?;
                }
            }
        }
    }
    Ok(out)
}
