//! Rules: a pattern, and a template of what it binds.

use crate::error::RuleError;
use crate::spots::{Spot, spots_of};
use parser_input::SyntaxKind;
use pattern_parser::{
    Dialect, Hole, PatternError, Template, TemplatePiece, TemplateTree, parse_pattern,
    parse_template,
};
use rowan_green::GreenTokenRef;
use std::alloc::{AllocError, Global};
use tree_patterns::kinds::is_among;
use tree_patterns::{Fragment, Pattern, Place};

/// A rule: each match of a pattern is replaced by a template.
#[derive(Drop)]
pub struct Rule {
    pub pattern: Pattern,
    pub template: Template,
    /// What each place of the pattern may stand for.
    pub places: Vec<Place>,
    /// The first place of the pattern with the name of each hole.
    pub sources: Vec<usize>,
    /// Whether the sequence in each hole has its list for itself, wherever its name is.
    pub wholes: Vec<bool>,
    /// The raw kind of the node around each hole; 0 around the only one of a template that is one place.
    pub lists: Vec<u16>,
    /// Whether each hole is between delimiters, commas or semicolons.
    pub fenced: Vec<bool>,
}

const EXPRESSION_LISTS: [SyntaxKind; 3] = [
    SyntaxKind::ARG_LIST,
    SyntaxKind::TUPLE_EXPR,
    SyntaxKind::ARRAY_EXPR,
];

const PATTERN_LISTS: [SyntaxKind; 3] = [
    SyntaxKind::TUPLE_PAT,
    SyntaxKind::TUPLE_STRUCT_PAT,
    SyntaxKind::SLICE_PAT,
];

const ITEM_LISTS: [SyntaxKind; 2] = [SyntaxKind::ITEM_LIST, SyntaxKind::ASSOC_ITEM_LIST];

/// Returns `true` if two lists have elements of one sort.
fn have_one_sort(one: u16, other: u16) -> bool {
    one == other
        || is_among(&EXPRESSION_LISTS, one) && is_among(&EXPRESSION_LISTS, other)
        || is_among(&PATTERN_LISTS, one) && is_among(&PATTERN_LISTS, other)
        || is_among(&ITEM_LISTS, one) && is_among(&ITEM_LISTS, other)
}

/// Returns `true` if a node in a place of the pattern can be put into one of the template: the template's
/// place is a node of that sort, or has one with the same tokens.
fn may_go(from: Place, to: Place) -> bool {
    match from {
        Place::Expression | Place::Type | Place::Pattern => from == to,
        Place::Path => matches!(to, Place::Expression | Place::Type | Place::Path),
        Place::Segment => {
            matches!(
                to,
                Place::Expression | Place::Type | Place::Path | Place::Segment
            )
        }
        Place::NameRef | Place::Name => !matches!(to, Place::Sequence | Place::ArraySequence),
        Place::Token | Place::Sequence | Place::ArraySequence => false,
    }
}

/// Checks whether what a place of the pattern stands for can be put into a hole.
fn check_hole(
    hole: &Hole,
    from: Place,
    spot: Option<Spot>,
    to: Option<Spot>,
) -> Result<(), RuleError> {
    if from.is_sequence() != hole.is_sequence {
        return Err(RuleError::Mixed);
    }
    let in_tokens = match to {
        Some(to) => to.parent == SyntaxKind::TOKEN_TREE.to_raw(),
        None => false,
    };
    if hole.is_sequence {
        let (Some(spot), Some(to)) = (spot, to) else {
            return Err(RuleError::FragmentMismatch);
        };
        if in_tokens {
            return if to.is_fenced() {
                Ok(())
            } else {
                Err(RuleError::LooseTokens)
            };
        }
        return if have_one_sort(spot.parent, to.parent) {
            Ok(())
        } else {
            Err(RuleError::FragmentMismatch)
        };
    }
    if in_tokens || may_go(from, hole.place) {
        Ok(())
    } else {
        Err(RuleError::FragmentMismatch)
    }
}

/// Returns the number of the first place with a name.
fn first_place(places: &[GreenTokenRef<'_>], name: &str) -> Option<usize> {
    if name == "_" {
        return None;
    }
    for (number, place) in places.iter().enumerate() {
        if place.text() == name {
            return Some(number);
        }
    }
    None
}

/// Returns the spots of a template's holes; none if it is one place.
fn template_spots(alloc: Global, template: &Template) -> Result<Vec<Spot>, AllocError> {
    match &template.tree {
        TemplateTree::Pattern(pattern) => spots_of(alloc, &pattern.tree().as_ref()),
        TemplateTree::Place(_) => Ok(Vec::new(alloc)),
    }
}

/// Returns `true` if a template has a comment.
fn has_comment(template: &Template) -> bool {
    template.pieces.iter().any(|piece| match piece {
        TemplatePiece::Leaf(kind, _) => *kind == SyntaxKind::COMMENT.to_raw(),
        TemplatePiece::Hole(_) => false,
    })
}

/// Returns the element of a list at an index, if there is one.
fn at<T: Copy>(items: &[T], number: usize) -> Option<T> {
    if number < items.len() {
        Some(items[number])
    } else {
        None
    }
}

/// What is known of the places of a pattern and of the holes of a template.
#[derive(Clone, Copy)]
struct Spots<'a, 'b> {
    places: &'b [GreenTokenRef<'a>],
    pattern: &'b [Spot],
    template: &'b [Spot],
    holes: &'b [Hole],
}

/// Returns `true` if a name has its list for itself at each place and in each hole.
fn is_whole(spots: &Spots<'_, '_>, name: &str) -> bool {
    for (place, spot) in spots.places.iter().zip(spots.pattern.iter()) {
        if place.text() == name && !spot.is_alone() {
            return false;
        }
    }
    for (hole, spot) in spots.holes.iter().zip(spots.template.iter()) {
        if hole.name.as_str() == name && !spot.is_alone() {
            return false;
        }
    }
    true
}

impl Rule {
    /// Reads a pattern and a template, as `fragment` or as the first of an expression, a type, a pattern of
    /// values, a statement and an item that the pattern reads as.
    ///
    /// # Errors
    ///
    /// - [`RuleError::Pattern`] if the first text is no pattern, [`RuleError::Template`] if the second is
    ///   no template of that fragment.
    /// - [`RuleError::Unbound`], [`RuleError::Mixed`], [`RuleError::FragmentMismatch`] and
    ///   [`RuleError::LooseTokens`] of the first hole of the template of which that holds.
    /// - [`RuleError::NoMemory`] if an allocation fails.
    pub fn parse(
        alloc: Global,
        dialect: Dialect,
        pattern: &str,
        template: &str,
        fragment: Option<Fragment>,
    ) -> Result<Rule, RuleError> {
        let pattern = match parse_pattern(alloc, dialect, pattern, fragment) {
            Ok(pattern) => pattern,
            Err(PatternError::NoMemory) => return Err(RuleError::NoMemory),
            Err(error) => return Err(RuleError::Pattern(error)),
        };
        let template = match parse_template(alloc, dialect, template, pattern.fragment()) {
            Ok(template) => template,
            Err(PatternError::NoMemory) => return Err(RuleError::NoMemory),
            Err(error) => return Err(RuleError::Template(error)),
        };
        Rule::of(alloc, pattern, template)
    }

    /// Returns the rule of a pattern and a template.
    fn of(alloc: Global, pattern: Pattern, template: Template) -> Result<Rule, RuleError> {
        let mut kinds = Vec::new(alloc);
        let mut sources = Vec::new(alloc);
        let mut wholes = Vec::new(alloc);
        let mut lists = Vec::new(alloc);
        let mut fenced = Vec::new(alloc);
        {
            let places = pattern.places(alloc)?;
            let pattern_spots = spots_of(alloc, &pattern.tree().as_ref())?;
            let template_spots = template_spots(alloc, &template)?;
            for place in places.as_slice() {
                kinds.push(Place::from_raw(place.kind().0).unwrap_or(Place::Token))?;
            }
            let spots = Spots {
                places: places.as_slice(),
                pattern: pattern_spots.as_slice(),
                template: template_spots.as_slice(),
                holes: template.holes.as_slice(),
            };
            let has_comment = has_comment(&template);
            for (number, hole) in template.holes.iter().enumerate() {
                let name = hole.name.as_str();
                let Some(source) = first_place(places.as_slice(), name) else {
                    return Err(RuleError::Unbound);
                };
                let Some(from) = at(kinds.as_slice(), source) else {
                    return Err(RuleError::Unbound);
                };
                let spot = at(spots.pattern, source);
                check_hole(hole, from, spot, at(spots.template, number))?;
                sources.push(source)?;
                wholes.push(hole.is_sequence && !has_comment && is_whole(&spots, name))?;
                let to = at(spots.template, number);
                lists.push(to.map_or(0, |spot| spot.parent))?;
                fenced.push(to.is_none_or(|spot| spot.is_fenced()))?;
            }
        }
        Ok(Rule {
            pattern,
            template,
            places: kinds,
            sources,
            wholes,
            lists,
            fenced,
        })
    }
}
