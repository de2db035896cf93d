//! Generic parameters, bounds and where clauses.

ghost use Rattle.std.specs.Prelude.{◌≤◌, true, false};
ghost use Rattle.parser_input.specs.Kinds.{TYPE_BOUND, WHERE_PRED};
ghost use Rattle.rust_grammar.specs.Calls.{AnyType, Bound};
ghost use Rattle.rust_grammar.specs.Notation.{◌▸◌, ⁅◌⁆, ◌*, ◌!, ◌⟨◌⟩, wide};
ghost use Rattle.rust_grammar.specs.Rule as rules;
ghost use Rattle.rust_grammar.specs.Rule.{One};
ghost use Rattle.rust_grammar.specs.Words.{'?'};
ghost use Rattle.rust_grammar.specs.Paths as rows;
ghost use Rattle.rust_grammar.specs.Shared as shared;
ghost use Rattle.rust_productions.specs.Looks.{tokens, Takes, Asks};
ghost use Rattle.rust_productions.specs.Reads.{looks, Gives, Reads, Saw};
ghost use Rattle.rust_productions.specs.Starts.{Starts};
ghost use Rattle.rust_productions.specs.declared.condition.Condition.{Condition};

use crate::grammar::new_bounds::new_bound;
use crate::grammar::new_params::new_param;
use crate::grammar::parts::{Part, expect_part, opt_part};
use crate::grammar::types::{any_type, opt_type_after, path_type};
use parser_input::syntax_kind::SyntaxKind;
use rust_productions::grammar::generic_params::{
    at_bound, at_new_bound, at_new_param, at_new_pred, at_where_pred,
};
use rust_productions::grammar::names::{lifetime, name};
use rust_productions::parser::Parser;

/// Parses a bound.
// ?Sized
#[cycle(grammar)]
fn bound(p: &mut Parser<'_>)
    requires begins { (c : Condition) → Saw c (looks rules.bound) p.old true }
    requires some { 1 ≤ tokens p.old }
    ensures gives { (c : Condition) → Gives rules.bound c p.old p.new }
    ensures asks { Asks 15 p.old p.new }
{
    if at_new_bound(p) {
        new_bound(p);
        return;
    }
    plain_bound(p);
}

/// Parses a bound that the profile has too.
// ?Sized
#[cycle(grammar)]
fn plain_bound(p: &mut Parser<'_>)
    requires begins { Starts (looks rules.bound) p.old }
    requires plain { (c : Condition) → Saw c (wide rows.new_bound_begins) p.old false }
    ensures reads { (c : Condition) → Reads c (TYPE_BOUND ⟨ rows.lifetime_or_path ⟩) p.old p.new }
    ensures takes { Takes 3990 p.old p.new }
{
    let node = p.start();
    lifetime_or_path(p);
    node.complete(p, SyntaxKind::TYPE_BOUND);
}

/// Parses a lifetime, or a path type with an optional `?`.
// ?Sized
#[cycle(grammar)]
fn lifetime_or_path(p: &mut Parser<'_>)
    requires begins { Starts (looks rules.bound) p.old }
    requires plain { (c : Condition) → Saw c (wide rows.new_bound_begins) p.old false }
    ensures reads { (c : Condition) → Reads c rows.lifetime_or_path p.old p.new }
    ensures takes { Takes 3990 p.old p.new }
{
    match p.current() {
        SyntaxKind::LIFETIME_IDENT => lifetime(p),
        SyntaxKind::QUESTION => path_after_question(p),
        _ => path_type(p),
    }
}

/// Parses a `?` and the path type after it.
// ?Sized
#[cycle(grammar)]
fn path_after_question(p: &mut Parser<'_>)
    requires some { 1 ≤ tokens p.old }
    ensures reads { (c : Condition) → Reads c (One '?' ▸ shared.path_type !) p.old p.new }
    ensures takes { Takes 4090 p.old p.new }
{
    p.take(SyntaxKind::QUESTION);
    expect_part(p, Part::PathType);
}

/// Parses bounds.
// A + 'a
#[cycle(grammar)]
pub(crate) fn bounds(p: &mut Parser<'_>)
    ensures gives { (c : Condition) → Gives rules.bounds c p.old p.new }
    ensures asks { Asks 24 p.old p.new }
{
    let list = p.start();
    opt_bounds(p);
    list.complete(p, SyntaxKind::TYPE_BOUND_LIST);
}

/// Parses optional bounds.
// A + 'a
#[cycle(grammar)]
fn opt_bounds(p: &mut Parser<'_>)
    ensures reads { (c : Condition) → Reads c ⁅ rows.bound_list ⁆ p.old p.new }
    ensures asks { Asks 24 p.old p.new }
{
    if at_bound(p) {
        bound(p);
        further_bounds(p);
    }
}

/// Parses further bounds, each with its `+`.
// + B + 'a
#[cycle(grammar)]
pub(crate) fn further_bounds(p: &mut Parser<'_>)
    ensures reads { (c : Condition) → Reads c (rows.further_bound *) p.old p.new }
    ensures asks { Asks 1 p.old p.new }
{
    'turns: while p.at(SyntaxKind::PLUS) {
        further_bound(p);
    }
}

/// Parses a `+` and an optional bound.
// + B
#[cycle(grammar)]
fn further_bound(p: &mut Parser<'_>)
    requires some { 1 ≤ tokens p.old }
    ensures reads { (c : Condition) → Reads c rows.further_bound p.old p.new }
    ensures takes { Takes 4070 p.old p.new }
{
    p.take(SyntaxKind::PLUS);
    opt_bound(p);
}

/// Parses an optional bound.
// B
#[cycle(grammar)]
pub(crate) fn opt_bound(p: &mut Parser<'_>)
    ensures reads { (c : Condition) → Reads c ⁅ Bound ⁆ p.old p.new }
    ensures asks { Asks 24 p.old p.new }
{
    if at_bound(p) {
        bound(p);
    }
}

/// Parses optional bounds with their colon.
// : A + B
#[cycle(grammar)]
pub(crate) fn bounds_after_colon(p: &mut Parser<'_>)
    ensures reads { (c : Condition) → Reads c ⁅ rows.bounds_after_colon ⁆ p.old p.new }
    ensures asks { Asks 1 p.old p.new }
{
    if p.at(SyntaxKind::COLON) {
        p.take(SyntaxKind::COLON);
        bounds(p);
    }
}

/// Parses a binder.
// for<'a>
#[cycle(grammar)]
pub(crate) fn for_binder(p: &mut Parser<'_>)
    requires some { 1 ≤ tokens p.old }
    ensures reads { (c : Condition) → Reads c shared.for_binder p.old p.new }
    ensures takes { Takes 4090 p.old p.new }
{
    p.take(SyntaxKind::FOR_KW);
    expect_part(p, Part::GenericParams);
}

/// Parses a lifetime and its optional bounds.
// 'a: 'b
#[cycle(grammar)]
pub(crate) fn lifetime_and_bounds(p: &mut Parser<'_>)
    requires some { 1 ≤ tokens p.old }
    ensures reads { (c : Condition) → Reads c rows.lifetime_and_bounds p.old p.new }
    ensures takes { Takes 4090 p.old p.new }
{
    lifetime(p);
    bounds_after_colon(p);
}

/// Parses a lifetime parameter.
// 'a: 'b
#[cycle(grammar)]
fn lifetime_param(p: &mut Parser<'_>)
    requires some { 1 ≤ tokens p.old }
    ensures reads { (c : Condition) → Reads c rows.lifetime_param p.old p.new }
    ensures takes { Takes 4090 p.old p.new }
{
    let node = p.start();
    lifetime_and_bounds(p);
    node.complete(p, SyntaxKind::LIFETIME_PARAM);
}

/// Parses a type parameter.
// T: A = u8
#[cycle(grammar)]
fn type_param(p: &mut Parser<'_>)
    requires some { 1 ≤ tokens p.old }
    ensures reads { (c : Condition) → Reads c rows.type_param p.old p.new }
    ensures takes { Takes 4090 p.old p.new }
{
    let node = p.start();
    name(p);
    bounds_after_colon(p);
    opt_type_after(p, SyntaxKind::EQ);
    node.complete(p, SyntaxKind::TYPE_PARAM);
}

/// Parses a generic parameter.
// T: A = u8
#[inline(never)]
#[cycle(grammar)]
pub(crate) fn generic_param(p: &mut Parser<'_>)
    requires some { 1 ≤ tokens p.old }
    ensures gives { (c : Condition) → Gives rules.generic_param c p.old p.new }
    ensures takes { Takes 4000 p.old p.new }
{
    if at_new_param(p) {
        new_param(p);
        return;
    }
    if p.at(SyntaxKind::LIFETIME_IDENT) {
        lifetime_param(p);
        return;
    }
    type_param(p);
}

/// Parses the lifetime or the type of a where predicate.
// T
#[cycle(grammar)]
fn lifetime_or_type(p: &mut Parser<'_>)
    requires begins { Starts (looks rules.where_pred) p.old }
    requires plain { (c : Condition) → Saw c (wide shared.binder_begins) p.old false }
    ensures reads { (c : Condition) → Reads c rows.lifetime_or_type p.old p.new }
    ensures takes { Takes 2800 p.old p.new }
{
    if p.at(SyntaxKind::LIFETIME_IDENT) {
        lifetime(p);
        return;
    }
    any_type(p);
}

/// Parses the bounds of a where predicate with their colon; emits an error if there is no colon.
// : A + B
#[cycle(grammar)]
fn pred_bounds(p: &mut Parser<'_>)
    ensures reads { (c : Condition) → Reads c rows.pred_bounds p.old p.new }
    ensures asks { Asks 25 p.old p.new }
{
    p.expect(SyntaxKind::COLON);
    bounds(p);
}

/// Parses a where predicate.
// T: A
#[inline(never)]
#[cycle(grammar)]
pub(crate) fn where_pred(p: &mut Parser<'_>)
    requires begins { Starts (looks rules.where_pred) p.old }
    ensures gives { (c : Condition) → Gives rules.where_pred c p.old p.new }
    ensures takes { Takes 2700 p.old p.new }
{
    if at_new_pred(p) {
        binder_pred(p);
        return;
    }
    plain_pred(p);
}

/// Parses a where predicate with a binder.
// for<'a> T: A<'a>
#[cycle(grammar)]
fn binder_pred(p: &mut Parser<'_>)
    requires some { 1 ≤ tokens p.old }
    ensures reads { (c : Condition) → Reads c
        (WHERE_PRED ⟨ shared.for_binder ▸ AnyType ! ▸ rows.pred_bounds ⟩) p.old p.new }
    ensures takes { Takes 4000 p.old p.new }
{
    let node = p.start();
    for_binder(p);
    expect_part(p, Part::Type);
    pred_bounds(p);
    node.complete(p, SyntaxKind::WHERE_PRED);
}

/// Parses a where predicate without a binder.
// T: A
#[cycle(grammar)]
fn plain_pred(p: &mut Parser<'_>)
    requires begins { Starts (looks rules.where_pred) p.old }
    requires plain { (c : Condition) → Saw c (wide shared.binder_begins) p.old false }
    ensures reads { (c : Condition) → Reads c
        (WHERE_PRED ⟨ rows.lifetime_or_type ▸ rows.pred_bounds ⟩) p.old p.new }
    ensures takes { Takes 2710 p.old p.new }
{
    let node = p.start();
    lifetime_or_type(p);
    pred_bounds(p);
    node.complete(p, SyntaxKind::WHERE_PRED);
}

/// Parses a where clause.
// where T: A, U: B
#[inline(never)]
#[cycle(grammar)]
pub(crate) fn where_clause(p: &mut Parser<'_>)
    requires some { 1 ≤ tokens p.old }
    ensures gives { (c : Condition) → Gives rules.where_clause c p.old p.new }
    ensures takes { Takes 4070 p.old p.new }
{
    let node = p.start();
    p.take(SyntaxKind::WHERE_KW);
    opt_preds(p);
    node.complete(p, SyntaxKind::WHERE_CLAUSE);
}

/// Parses optional where predicates.
// T: A, U: B
#[cycle(grammar)]
fn opt_preds(p: &mut Parser<'_>)
    ensures reads { (c : Condition) → Reads c ⁅ rows.pred_list ⁆ p.old p.new }
    ensures asks { Asks 20 p.old p.new }
{
    if at_where_pred(p) {
        where_pred(p);
        further_preds(p);
    }
}

/// Parses further where predicates, each with its comma.
// , U: B
#[cycle(grammar)]
fn further_preds(p: &mut Parser<'_>)
    ensures reads { (c : Condition) → Reads c (rows.further_pred *) p.old p.new }
    ensures asks { Asks 1 p.old p.new }
{
    'turns: while p.at(SyntaxKind::COMMA) {
        further_pred(p);
    }
}

/// Parses a comma and an optional where predicate.
// , U: B
#[cycle(grammar)]
fn further_pred(p: &mut Parser<'_>)
    requires some { 1 ≤ tokens p.old }
    ensures reads { (c : Condition) → Reads c rows.further_pred p.old p.new }
    ensures takes { Takes 4070 p.old p.new }
{
    p.take(SyntaxKind::COMMA);
    opt_part(p, Part::WherePred);
}
