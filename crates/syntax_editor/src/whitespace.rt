//! Whitespace around inserted elements.
ghost use Rattle.std.specs.Prelude.{◌≡◌, ◌==◌, max, IfOk};
ghost use Rattle.parser_input.specs.Kind.{raw_of};
ghost use Rattle.syntax_editor.specs.Between.{is_tight, between};
ghost use Rattle.syntax_editor.specs.Indent.{level_of};

use crate::indent_level::IndentLevel;
use crate::target::raw_kind;
use parser_input::SyntaxKind;
use std::alloc::{AllocError, Global};
use std::fmt;
use syntax_tree::SyntaxElement;

/// The whitespace between two neighbours.
#[derive(Clone, Copy, Debug, PartialEq, Eq)]
pub enum Space {
    /// No whitespace.
    Nothing,
    /// One space.
    Blank,
    /// A line feed, and the spaces of an indentation with this number of steps.
    Line(u8),
}

/// Returns `true` if a raw kind is `kind`.
pub(crate) fn is(raw: u16, kind: SyntaxKind) -> bool
    ensures { result ≡ (raw == raw_of kind) }
{
    raw == kind.to_raw()
}

/// Returns `true` if there is no whitespace between elements of two raw kinds.
fn is_tight(left: u16, right: u16) -> bool
    ensures { result ≡ is_tight left right }
{
    is(left, SyntaxKind::WHITESPACE)
        || is(right, SyntaxKind::WHITESPACE)
        || is(right, SyntaxKind::SEMICOLON)
        || is(right, SyntaxKind::COMMA)
        || is(left, SyntaxKind::L_ANGLE)
        || is(right, SyntaxKind::R_ANGLE)
        || (is(left, SyntaxKind::AMP) && is(right, SyntaxKind::LIFETIME))
        || is(right, SyntaxKind::GENERIC_ARG_LIST)
}

/// Returns the greater of the levels of two elements.
fn greater_level(
    alloc: Global,
    left: &SyntaxElement,
    right: &SyntaxElement,
) -> Result<u8, AllocError>
    ensures { IfOk result (λ level. level ≡ max (level_of left.now) (level_of right.now)) }
{
    let first = IndentLevel::from_element(alloc, left)?.0;
    let second = IndentLevel::from_element(alloc, right)?.0;
    if first < second {
        Ok(second)
    } else {
        Ok(first)
    }
}

impl Space {
    /// Returns the whitespace between two elements.
    pub fn between(
        alloc: Global,
        left: &SyntaxElement,
        right: &SyntaxElement,
    ) -> Result<Space, AllocError>
        ensures { IfOk result (λ space. space ≡ between left.now right.now) }
    {
        let kind = raw_kind(left);
        let next = raw_kind(right);
        if is_tight(kind, next) {
            return Ok(Space::Nothing);
        }
        if is(next, SyntaxKind::USE) {
            if is(kind, SyntaxKind::USE) {
                return Ok(Space::Line(greater_level(alloc, left, right)?));
            }
            return Ok(Space::Line(IndentLevel::from_element(alloc, left)?.0));
        }
        if is(kind, SyntaxKind::ATTR) {
            if is(next, SyntaxKind::ATTR) {
                return Ok(Space::Line(greater_level(alloc, left, right)?));
            }
            return Ok(Space::Line(IndentLevel::from_element(alloc, right)?.0));
        }
        Ok(Space::Blank)
    }
}

impl fmt::Display for Space {
    ghost use Rattle.std.specs.Prelude.{Some};
    ghost use Rattle.syntax_editor.specs.Spaced.{text_of};

    ghost output = { λ space. Some (text_of space) };

    fn fmt<W: fmt::Write>(&self, f: &mut fmt::Formatter<W>) -> fmt::Result {
        match self {
            Space::Nothing => Ok(()),
            Space::Blank => f.write_str(" "),
            Space::Line(steps) => {
                f.write_str("\n")?;
                IndentLevel(*steps).fmt(f)
            }
        }
    }
}
