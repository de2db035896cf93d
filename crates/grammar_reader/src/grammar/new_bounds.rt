//! Bounds that only the whole language has: in parentheses, with words before their path, and
//! captures.

ghost use Rattle.std.specs.Prelude.{◌≤◌};
ghost use Rattle.parser_input.specs.Kinds.{TYPE_BOUND};
ghost use Rattle.rust_grammar.specs.Notation.{◌▸◌, ⁅◌⁆, ◌!, ◌⟨◌⟩};
ghost use Rattle.rust_grammar.specs.Paths as rows;
ghost use Rattle.rust_grammar.specs.Rule.{One, When};
ghost use Rattle.rust_grammar.specs.Shared as shared;
ghost use Rattle.rust_grammar.specs.Words.{'l_paren', 'r_paren', 'use'};
ghost use Rattle.rust_productions.specs.Looks.{tokens, Takes, Asks};
ghost use Rattle.rust_productions.specs.Reads.{Reads};
ghost use Rattle.rust_productions.specs.declared.condition.Condition.{Condition};

use crate::grammar::generic_params::for_binder;
use crate::grammar::lists::{ListKind, list};
use crate::grammar::parts::{Part, expect_part};
use parser_input::syntax_kind::SyntaxKind;
use rust_productions::grammar::generic_params::{at_binder, at_captures, opt_const_words};
use rust_productions::grammar::names::lifetime;
use rust_productions::parser::Parser;

/// Parses a bound, perhaps in parentheses.
// (?Sized)
#[cycle(grammar)]
pub(crate) fn new_bound(p: &mut Parser<'_>)
    ensures reads { (c : Condition) → Reads c (TYPE_BOUND ⟨ rows.maybe_in_parens ⟩) p.old p.new }
    ensures asks { Asks 12 p.old p.new }
{
    let node = p.start();
    maybe_in_parens(p);
    node.complete(p, SyntaxKind::TYPE_BOUND);
}

/// Parses what a bound holds, perhaps in parentheses.
// (?Sized)
#[cycle(grammar)]
fn maybe_in_parens(p: &mut Parser<'_>)
    ensures reads { (c : Condition) → Reads c rows.maybe_in_parens p.old p.new }
    ensures asks { Asks 12 p.old p.new }
{
    if p.at(SyntaxKind::L_PAREN) {
        in_parens(p);
        return;
    }
    bound_inside(p);
}

/// Parses what a bound holds, in parentheses.
// (?Sized)
#[cycle(grammar)]
fn in_parens(p: &mut Parser<'_>)
    requires some { 1 ≤ tokens p.old }
    ensures reads { (c : Condition) → Reads c
        (One 'l_paren' ▸ rows.bound_inside ▸ One 'r_paren' !) p.old p.new }
    ensures takes { Takes 4080 p.old p.new }
{
    p.take(SyntaxKind::L_PAREN);
    bound_inside(p);
    p.expect(SyntaxKind::R_PAREN);
}

/// Parses what a bound holds: a lifetime, captures, or a path type with words before it.
// for<'a> ~const A<'a>
#[cycle(grammar)]
fn bound_inside(p: &mut Parser<'_>)
    ensures reads { (c : Condition) → Reads c rows.bound_inside p.old p.new }
    ensures asks { Asks 11 p.old p.new }
{
    if p.at(SyntaxKind::LIFETIME_IDENT) {
        lifetime(p);
        return;
    }
    if at_captures(p) {
        use_captures(p);
        return;
    }
    words_and_path(p);
}

/// Parses `use` and the captured parameters after it.
// use<'a, T>
#[cycle(grammar)]
fn use_captures(p: &mut Parser<'_>)
    requires some { 2 ≤ tokens p.old }
    ensures reads { (c : Condition) → Reads c (One 'use' ▸ rows.captures) p.old p.new }
    ensures takes { Takes 4090 p.old p.new }
{
    p.take(SyntaxKind::USE_KW);
    list(p, ListKind::Captures);
}

/// Parses a path type with optional words before it; emits an error if there is no path.
// for<'a> ~const A<'a>
#[cycle(grammar)]
fn words_and_path(p: &mut Parser<'_>)
    ensures reads { (c : Condition) → Reads c rows.words_and_path p.old p.new }
    ensures asks { Asks 8 p.old p.new }
{
    opt_binder(p);
    opt_const_words(p);
    p.eat(SyntaxKind::ASYNC_KW);
    p.eat(SyntaxKind::QUESTION);
    expect_part(p, Part::PathType);
}

/// Parses an optional binder.
// for<'a>
#[cycle(grammar)]
fn opt_binder(p: &mut Parser<'_>)
    ensures reads { (c : Condition)
        → Reads c ⁅ When shared.binder_begins shared.for_binder ⁆ p.old p.new }
    ensures asks { Asks 2 p.old p.new }
{
    if at_binder(p) {
        for_binder(p);
    }
}
