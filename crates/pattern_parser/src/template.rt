//! Texts that are read as templates, which replace matches.

use crate::error::PatternError;
use crate::parse::{Parts, Spelled, parts_of, pattern_as};
use crate::pieces::Piece;
use crate::reading::{Dialect, opened};
use crate::spelling::{Spelling, StandIn, push_spelled};
use rowan_green::{GreenElement, NodeOrToken};
use std::alloc::{AllocError, Global};
use tree_patterns::leaves::leaves_of;
use tree_patterns::place::Place;
use tree_patterns::{Fragment, Pattern};

/// A piece of a template's text.
#[derive(Drop)]
pub enum TemplatePiece {
    /// A token, whitespace or a comment: its raw kind and its text.
    Leaf(u16, String),
    /// The hole of a number.
    Hole(usize),
}

/// A metavariable of a template.
#[derive(Drop)]
pub struct Hole {
    pub name: String,
    /// Its stand-in in a text: an identifier, or an element of its list spelled with one.
    pub word: String,
    pub is_sequence: bool,
    pub place: Place,
}

/// What a template is: a tree with places, or one place.
#[derive(Drop)]
pub enum TemplateTree {
    /// A tree whose places have no names: each may stand for something else.
    Pattern(Pattern),
    Place(Place),
}

/// A template. Its holes are in the order of its text, as the places of its tree are.
#[derive(Drop)]
pub struct Template {
    pub fragment: Fragment,
    pub tree: TemplateTree,
    pub pieces: Vec<TemplatePiece>,
    pub holes: Vec<Hole>,
}

/// Returns the pieces of a template's text.
fn template_pieces(alloc: Global, pieces: &[Piece<'_>]) -> Result<Vec<TemplatePiece>, AllocError> {
    let mut copied = Vec::new(alloc);
    let mut count = 0usize;
    for piece in pieces {
        if let Piece::Plain(leaf) = piece {
            let text = String::from_str(alloc, leaf.text())?;
            copied.push(TemplatePiece::Leaf(leaf.kind().0, text))?;
        } else {
            copied.push(TemplatePiece::Hole(count))?;
            count = count.saturating_add(1);
        }
    }
    Ok(copied)
}

/// Returns stand-ins of the same words, without names.
fn nameless(alloc: Global, stand_ins: &[StandIn]) -> Result<Vec<StandIn>, AllocError> {
    let mut all = Vec::new(alloc);
    for stand_in in stand_ins {
        all.push(StandIn {
            word: stand_in.word.clone()?,
            name: String::from_str(alloc, "_")?,
            is_sequence: stand_in.is_sequence,
        })?;
    }
    Ok(all)
}

/// Returns the places of a template's tree, in order.
fn places_of(alloc: Global, tree: &GreenElement) -> Result<Vec<Place>, AllocError> {
    let mut places = Vec::new(alloc);
    match tree {
        NodeOrToken::Token(leaf) => {
            if let Some(place) = Place::from_raw(leaf.kind().0) {
                places.push(place)?;
            }
        }
        NodeOrToken::Node(node) => {
            for leaf in leaves_of(alloc, &node.as_ref())? {
                if let Some(place) = Place::from_raw(leaf.kind().0) {
                    places.push(place)?;
                }
            }
        }
    }
    Ok(places)
}

/// Returns the holes of a template, by its stand-ins, how they are spelled, and its places.
fn holes_of(
    alloc: Global,
    stand_ins: &[StandIn],
    spellings: &[Spelling],
    places: &[Place],
) -> Result<Vec<Hole>, AllocError> {
    let mut holes = Vec::new(alloc);
    let spelled = stand_ins.iter().zip(spellings.iter());
    for ((stand_in, spelling), place) in spelled.zip(places.iter()) {
        let mut word = String::new(alloc);
        push_spelled(&mut word, stand_in.word.as_str(), *spelling)?;
        holes.push(Hole {
            name: stand_in.name.clone()?,
            word,
            is_sequence: stand_in.is_sequence,
            place: *place,
        })?;
    }
    Ok(holes)
}

/// Reads a template as a fragment.
///
/// # Errors
///
/// As of [`parse_pattern`](crate::parse_pattern); but a template may be one metavariable, and a list of
/// it may have two sequences.
pub fn parse_template(
    alloc: Global,
    dialect: Dialect,
    text: &str,
    fragment: Fragment,
) -> Result<Template, PatternError> {
    let document = opened(alloc, dialect, text)?;
    let Parts { pieces, stand_ins } = parts_of(alloc, &document)?;
    let anonymous = nameless(alloc, stand_ins.as_slice())?;
    let read = pattern_as(
        alloc,
        dialect,
        fragment,
        pieces.as_slice(),
        anonymous.as_slice(),
    )?;
    let Some(read) = read else {
        return Err(PatternError::PatternUnread);
    };
    let Spelled { tree, spellings } = read;
    let places = places_of(alloc, &tree)?;
    let spelled = spellings.as_slice();
    let holes = holes_of(alloc, stand_ins.as_slice(), spelled, places.as_slice())?;
    let pieces = template_pieces(alloc, pieces.as_slice())?;
    let tree = match tree {
        NodeOrToken::Node(node) => TemplateTree::Pattern(Pattern::of(fragment, node)),
        NodeOrToken::Token(leaf) => match Place::from_raw(leaf.kind().0) {
            Some(place) => TemplateTree::Place(place),
            None => return Err(PatternError::Place),
        },
    };
    Ok(Template {
        fragment,
        tree,
        pieces,
        holes,
    })
}
