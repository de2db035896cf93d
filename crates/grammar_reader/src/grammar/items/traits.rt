//! Traits and implementations.

ghost use Rattle.std.specs.Prelude.{◌≤◌};
ghost use Rattle.parser_events.specs.Stack.{IsInnermost};
ghost use Rattle.rust_grammar.specs.Notation.{◌! };
ghost use Rattle.rust_grammar.specs.Items as rows;
ghost use Rattle.rust_productions.specs.Looks.{tokens, Takes, Asks};
ghost use Rattle.rust_productions.specs.Reads.{Completes, Reads};
ghost use Rattle.rust_productions.specs.Starts.{Starts};
ghost use Rattle.rust_productions.specs.declared.condition.Condition.{Condition};

use crate::grammar::generic_params::{bounds, bounds_after_colon};
use crate::grammar::lists::{ListKind, list};
use crate::grammar::parts::{Part, expect_part, opt_part};
use crate::grammar::types::opt_type_after;
use parser_input::syntax_kind::SyntaxKind;
use rust_productions::condition::Condition;
use rust_productions::grammar::items::{
    at_impl_params, opt_const_before_trait, opt_negation, unsafe_word,
};
use rust_productions::grammar::names::expect_name;
use rust_productions::marker::Marker;
use rust_productions::parser::Parser;

/// Parses an implementation, and completes its node.
// impl<T> A for B<T> { fn f() {} }
#[cycle(grammar)]
pub(crate) fn impl_item(p: &mut Parser<'_>, item: Marker, condition: Condition)
    requires begins { Starts rows.impl_begins p.old }
    requires innermost { IsInnermost item p.old.nodes }
    ensures completes { Completes condition rows.impl_item p.old p.new }
    ensures takes { Takes 4060 p.old p.new }
{
    unsafe_word(p, SyntaxKind::IMPL_KW);
    after_impl(p);
    item.complete(p, SyntaxKind::IMPL);
}

/// Parses an implementation without words before its `impl`, and completes its node.
// impl<T> A for B<T> { fn f() {} }
#[cycle(grammar)]
pub(crate) fn plain_impl(p: &mut Parser<'_>, item: Marker)
    requires some { 1 ≤ tokens p.old }
    requires innermost { IsInnermost item p.old.nodes }
    ensures completes { (c : Condition) → Completes c rows.plain_impl p.old p.new }
    ensures takes { Takes 4060 p.old p.new }
{
    p.take(SyntaxKind::IMPL_KW);
    after_impl(p);
    item.complete(p, SyntaxKind::IMPL);
}

/// Parses an implementation after its `impl`.
// <T> A for B<T> { fn f() {} }
#[cycle(grammar)]
fn after_impl(p: &mut Parser<'_>)
    ensures reads { (c : Condition) → Reads c rows.after_impl p.old p.new }
    ensures asks { Asks 26 p.old p.new }
{
    opt_impl_params(p);
    opt_const_before_trait(p);
    opt_negation(p);
    expect_part(p, Part::Type);
    opt_type_after(p, SyntaxKind::FOR_KW);
    opt_part(p, Part::WhereClause);
    expect_part(p, Part::AssocItems);
}

/// Parses the optional parameters of an implementation.
// <T>
#[cycle(grammar)]
fn opt_impl_params(p: &mut Parser<'_>)
    ensures reads { (c : Condition) → Reads c rows.impl_params p.old p.new }
    ensures asks { Asks 4 p.old p.new }
{
    if at_impl_params(p) {
        list(p, ListKind::GenericParams);
    }
}

/// Parses a trait, and completes its node.
// trait A<T>: B { fn f(); }
#[cycle(grammar)]
pub(crate) fn trait_item(p: &mut Parser<'_>, item: Marker, condition: Condition)
    requires begins { Starts rows.trait_begins p.old }
    requires innermost { IsInnermost item p.old.nodes }
    ensures completes { Completes condition rows.trait_item p.old p.new }
    ensures takes { Takes 4080 p.old p.new }
{
    unsafe_word(p, SyntaxKind::TRAIT_KW);
    after_trait(p);
    item.complete(p, SyntaxKind::TRAIT);
}

/// Parses a trait without words before its `trait`, and completes its node.
// trait A<T>: B { fn f(); }
#[cycle(grammar)]
pub(crate) fn plain_trait(p: &mut Parser<'_>, item: Marker)
    requires some { 1 ≤ tokens p.old }
    requires innermost { IsInnermost item p.old.nodes }
    ensures completes { (c : Condition) → Completes c rows.plain_trait p.old p.new }
    ensures takes { Takes 4080 p.old p.new }
{
    p.take(SyntaxKind::TRAIT_KW);
    after_trait(p);
    item.complete(p, SyntaxKind::TRAIT);
}

/// Parses a trait after its `trait`.
// A<T>: B { fn f(); }
#[cycle(grammar)]
fn after_trait(p: &mut Parser<'_>)
    ensures reads { (c : Condition) → Reads c rows.after_trait p.old p.new }
    ensures asks { Asks 6 p.old p.new }
{
    expect_name(p);
    opt_part(p, Part::GenericParams);
    trait_body(p);
}

/// Parses the bounds of a trait alias, or the bounds and the items of a trait.
// : B { fn f(); }
#[cycle(grammar)]
fn trait_body(p: &mut Parser<'_>)
    ensures reads { (c : Condition) → Reads c rows.trait_body p.old p.new }
    ensures asks { Asks 4 p.old p.new }
{
    if p.at_new(SyntaxKind::EQ) {
        alias_bounds(p);
        return;
    }
    trait_items(p);
}

/// Parses the bounds of a trait alias, from the `=` on.
// = A + B;
#[cycle(grammar)]
fn alias_bounds(p: &mut Parser<'_>)
    requires some { 1 ≤ tokens p.old }
    ensures reads { (c : Condition) → Reads c rows.alias_bounds p.old p.new }
    ensures takes { Takes 4000 p.old p.new }
{
    p.take(SyntaxKind::EQ);
    bounds(p);
    opt_part(p, Part::WhereClause);
    p.expect(SyntaxKind::SEMICOLON);
}

/// Parses the optional bounds of a trait, and its items.
// : B { fn f(); }
#[cycle(grammar)]
fn trait_items(p: &mut Parser<'_>)
    ensures reads { (c : Condition) → Reads c rows.trait_items p.old p.new }
    ensures asks { Asks 3 p.old p.new }
{
    bounds_after_colon(p);
    opt_part(p, Part::WhereClause);
    expect_part(p, Part::AssocItems);
}
