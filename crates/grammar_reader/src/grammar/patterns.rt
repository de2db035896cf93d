//! Patterns.

ghost use Rattle.std.specs.Prelude.{◌≤◌, true, false};
ghost use Rattle.parser_input.specs.Kinds.{IDENT_PAT};
ghost use Rattle.parser_events.specs.Stack.{IsInnermost};
ghost use Rattle.rust_grammar.specs.Calls.{Name};
ghost use Rattle.rust_grammar.specs.Notation.{◌▸◌, ⁅◌⁆, ◌!, ◌⟨◌⟩, ◌before◌};
ghost use Rattle.rust_grammar.specs.Rule as rules;
ghost use Rattle.rust_grammar.specs.Rule.{One};
ghost use Rattle.rust_grammar.specs.Whole.{rule};
ghost use Rattle.rust_grammar.specs.Words.{'mut', 'ref'};
ghost use Rattle.rust_grammar.specs.Patterns as rows;
ghost use Rattle.rust_productions.specs.Looks.{tokens, Takes, Asks, TakesIn, AsksIn};
ghost use Rattle.rust_productions.specs.Reads.{looks, Gives, Reads, Saw};
ghost use Rattle.rust_productions.specs.Starts.{Starts};
ghost use Rattle.rust_productions.specs.declared.condition.Condition.{Condition};

use crate::grammar::lists::{Element, ListKind, list, rest_of_list, tuple_tail};
use crate::grammar::parts::{Part, expect_part};
use crate::grammar::paths::{Mode, path_with_args, qualified_path};
use crate::grammar::pattern_ranges::{opt_range, range_or_atom};
use parser_input::syntax_kind::SyntaxKind;
use rust_productions::grammar::const_args::missing_expr_path;
use rust_productions::grammar::names::{at_literal, expect_name, name};
use rust_productions::grammar::patterns::{
    at_ident_pat, at_paren_before_dots, at_single_pattern, literal_pat, negative, rest_pat,
};
use rust_productions::grammar::token_trees::expect_token_tree;
use rust_productions::grammar::types::word_type;
use rust_productions::marker::Marker;
use rust_productions::parser::Parser;

/// Parses a pattern without top-level alternatives.
// &mut (a, ..)
#[cycle(grammar)]
pub(crate) fn single_pattern(p: &mut Parser<'_>)
    requires begins { (c : Condition) → Saw c (looks rules.single_pattern) p.old true }
    requires some { 1 ≤ tokens p.old }
    ensures gives { (c : Condition) → Gives rules.single_pattern c p.old p.new }
    ensures takes { Takes 2910 p.old p.new }
{
    let frame = p.start();
    let frame = range_or_atom(p, frame);
    frame.abandon(p);
}

/// Parses a pattern without alternatives and without a range, within `frame`, which the caller
/// abandons.
// (a, ..)
#[cycle(grammar)]
pub(crate) fn inside(p: &mut Parser<'_>, frame: Marker) -> Marker
    requires begins { Starts (looks rules.pattern_atom) p.old }
    requires innermost { IsInnermost frame p.old.nodes }
    ensures reads { (c : Condition) → Reads c (rule rules.pattern_atom) p.old p.new }
    ensures takes { TakesIn result 2950 p.old p.new }
{
    match p.current() {
        SyntaxKind::MINUS => {
            negative(p);
            frame
        }
        SyntaxKind::UNDERSCORE => {
            word_type(p, SyntaxKind::UNDERSCORE, SyntaxKind::WILDCARD_PAT);
            frame
        }
        SyntaxKind::AMP => {
            ref_pat(p);
            frame
        }
        SyntaxKind::L_BRACK => {
            list(p, ListKind::SlicePattern);
            frame
        }
        SyntaxKind::REF_KW => {
            ident_after_ref(p);
            frame
        }
        SyntaxKind::MUT_KW => {
            ident_after_mut(p);
            frame
        }
        SyntaxKind::L_ANGLE => qualified_pat(p, frame),
        SyntaxKind::L_PAREN => {
            if at_paren_before_dots(p) {
                list(p, ListKind::TuplePattern);
                return frame;
            }
            paren_pat(p, frame)
        }
        _ => {
            if at_ident_pat(p) {
                ident_pat(p);
                return frame;
            }
            if p.at_pair(SyntaxKind::DOT, SyntaxKind::DOT) {
                rest_pat(p);
                return frame;
            }
            if at_literal(p) {
                literal_pat(p);
                return frame;
            }
            path_pat(p, frame)
        }
    }
}

/// Parses a reference pattern.
// &mut a
#[cycle(grammar)]
fn ref_pat(p: &mut Parser<'_>)
    requires some { 1 ≤ tokens p.old }
    ensures reads { (c : Condition) → Reads c rows.ref_pat p.old p.new }
    ensures takes { Takes 4080 p.old p.new }
{
    let node = p.start();
    p.take(SyntaxKind::AMP);
    p.eat(SyntaxKind::MUT_KW);
    expect_part(p, Part::SinglePattern);
    node.complete(p, SyntaxKind::REF_PAT);
}

/// Parses the optional subpattern of an identifier pattern.
// @ Some(_)
#[cycle(grammar)]
fn opt_at(p: &mut Parser<'_>)
    ensures reads { (c : Condition) → Reads c ⁅ rows.at_pattern ⁆ p.old p.new }
    ensures asks { Asks 1 p.old p.new }
{
    if p.at(SyntaxKind::AT) {
        p.take(SyntaxKind::AT);
        expect_part(p, Part::SinglePattern);
    }
}

/// Parses an identifier pattern without `ref` and `mut`.
// a @ Some(_)
#[cycle(grammar)]
fn ident_pat(p: &mut Parser<'_>)
    requires some { 1 ≤ tokens p.old }
    ensures reads { (c : Condition)
        → Reads c (IDENT_PAT ⟨ Name ▸ ⁅ rows.at_pattern ⁆ ⟩) p.old p.new }
    ensures takes { Takes 4090 p.old p.new }
{
    let node = p.start();
    name(p);
    opt_at(p);
    node.complete(p, SyntaxKind::IDENT_PAT);
}

/// Parses an identifier pattern with `mut`.
// mut a
#[cycle(grammar)]
fn ident_after_mut(p: &mut Parser<'_>)
    requires some { 1 ≤ tokens p.old }
    ensures reads { (c : Condition) → Reads c
        (IDENT_PAT ⟨ One 'mut' ▸ Name ! ▸ ⁅ rows.at_pattern ⁆ ⟩) p.old p.new }
    ensures takes { Takes 4090 p.old p.new }
{
    let node = p.start();
    p.take(SyntaxKind::MUT_KW);
    expect_name(p);
    opt_at(p);
    node.complete(p, SyntaxKind::IDENT_PAT);
}

/// Parses an identifier pattern with `ref`.
// ref mut a
#[cycle(grammar)]
fn ident_after_ref(p: &mut Parser<'_>)
    requires some { 1 ≤ tokens p.old }
    ensures reads { (c : Condition) → Reads c (IDENT_PAT ⟨ One 'ref' ▸ ⁅ One 'mut' ⁆ ▸ Name !
        ▸ ⁅ rows.at_pattern ⁆ ⟩) p.old p.new }
    ensures takes { Takes 4090 p.old p.new }
{
    let node = p.start();
    p.take(SyntaxKind::REF_KW);
    p.eat(SyntaxKind::MUT_KW);
    expect_name(p);
    opt_at(p);
    node.complete(p, SyntaxKind::IDENT_PAT);
}

/// Parses a tuple pattern or a grouped pattern.
// (a, b)
#[cycle(grammar)]
fn paren_pat(p: &mut Parser<'_>, frame: Marker) -> Marker
    requires some { 1 ≤ tokens p.old }
    requires innermost { IsInnermost frame p.old.nodes }
    ensures reads { (c : Condition) → Reads c rows.tuple_or_paren p.old p.new }
    ensures takes { TakesIn result 3000 p.old p.new }
{
    p.take(SyntaxKind::L_PAREN);
    after_paren(p, frame)
}

/// Parses a tuple pattern or a grouped pattern after its `(`.
// a, b)
#[cycle(grammar)]
fn after_paren(p: &mut Parser<'_>, frame: Marker) -> Marker
    requires innermost { IsInnermost frame p.old.nodes }
    ensures reads { (c : Condition) → Reads c rows.after_l_paren p.old p.new }
    ensures asks { AsksIn result 20 p.old p.new }
{
    if p.at(SyntaxKind::R_PAREN) {
        p.take(SyntaxKind::R_PAREN);
        return frame.wrap(p, SyntaxKind::TUPLE_PAT);
    }
    expect_part(p, Part::Pattern);
    tuple_tail(
        p,
        frame,
        SyntaxKind::TUPLE_PAT,
        Element::Pattern,
        SyntaxKind::PAREN_PAT,
    )
}

/// Parses a path pattern, a tuple struct pattern or a record pattern.
// Some(a)
#[cycle(grammar)]
fn path_pat(p: &mut Parser<'_>, frame: Marker) -> Marker
    requires begins { Starts (looks rules.path) p.old }
    requires innermost { IsInnermost frame p.old.nodes }
    ensures reads { (c : Condition) → Reads c rows.path_pat p.old p.new }
    ensures takes { TakesIn result 3990 p.old p.new }
{
    path_with_args(p, Mode::Expr);
    after_path(p, frame)
}

/// Parses a pattern whose path starts with a qualifier.
// <T as A>::B
#[cycle(grammar)]
fn qualified_pat(p: &mut Parser<'_>, frame: Marker) -> Marker
    requires some { 1 ≤ tokens p.old }
    requires innermost { IsInnermost frame p.old.nodes }
    ensures reads { (c : Condition) → Reads c rows.qualified_pat p.old p.new }
    ensures takes { TakesIn result 3900 p.old p.new }
{
    let frame = qualified_path(p, frame, Mode::Expr);
    after_path(p, frame)
}

/// Parses the optional fields after the path of a pattern, or the rest of a macro call.
// (a)
#[cycle(grammar)]
fn after_path(p: &mut Parser<'_>, frame: Marker) -> Marker
    requires innermost { IsInnermost frame p.old.nodes }
    ensures reads { (c : Condition) → Reads c rows.after_path p.old p.new }
    ensures asks { AsksIn result 3 p.old p.new }
{
    if p.at(SyntaxKind::L_PAREN) {
        p.take(SyntaxKind::L_PAREN);
        rest_of_list(
            p,
            SyntaxKind::TUPLE_STRUCT_PAT,
            Element::Pattern,
            SyntaxKind::R_PAREN,
        );
        return frame.wrap(p, SyntaxKind::TUPLE_STRUCT_PAT);
    }
    if p.at(SyntaxKind::L_CURLY) {
        list(p, ListKind::PatternFields);
        return frame.wrap(p, SyntaxKind::RECORD_PAT);
    }
    if p.at_new(SyntaxKind::BANG) {
        p.take(SyntaxKind::BANG);
        expect_token_tree(p);
        return frame.wrap(p, SyntaxKind::MACRO_CALL);
    }
    frame.wrap(p, SyntaxKind::PATH_PAT)
}

/// Parses a pattern without alternatives, or an error within the nodes of its path if none starts
/// here.
// Some(a)
#[cycle(grammar)]
pub(crate) fn single_or_missing(p: &mut Parser<'_>)
    ensures gives { (c : Condition) → Gives rules.single_pattern c p.old p.new }
    ensures asks { Asks 20 p.old p.new }
{
    if at_single_pattern(p) {
        single_pattern(p);
        return;
    }
    missing_single(p);
}

/// Parses a pattern where none starts: emits an error within the nodes of its path.
#[cycle(grammar)]
fn missing_single(p: &mut Parser<'_>)
    requires none { (c : Condition) → Saw c (looks rules.single_pattern) p.old false }
    ensures gives { (c : Condition) → Gives rules.single_pattern c p.old p.new }
    ensures asks { Asks 12 p.old p.new }
{
    let frame = p.start();
    missing_expr_path(p);
    let frame = after_path(p, frame);
    let frame = opt_range(p, frame);
    frame.abandon(p);
}
