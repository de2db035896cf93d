//! Constants, statics and names of types.

ghost use Rattle.std.specs.Prelude.{◌≤◌};
ghost use Rattle.parser_events.specs.Stack.{IsInnermost};
ghost use Rattle.rust_grammar.specs.Notation.{⁅◌⁆};
ghost use Rattle.rust_grammar.specs.Items as rows;
ghost use Rattle.rust_grammar.specs.Shared.{initializer};
ghost use Rattle.rust_productions.specs.Looks.{tokens, Takes, Asks};
ghost use Rattle.rust_productions.specs.Reads.{Completes, Reads};
ghost use Rattle.rust_productions.specs.declared.condition.Condition.{Condition};

use crate::grammar::expressions::{Level, expect_expression};
use crate::grammar::generic_params::bounds_after_colon;
use crate::grammar::parts::{Part, expect_part, opt_part};
use crate::grammar::types::opt_type_after;
use parser_input::syntax_kind::SyntaxKind;
use rust_productions::condition::Condition;
use rust_productions::grammar::names::expect_name;
use rust_productions::grammar::use_trees::underscore_or_name;
use rust_productions::marker::Marker;
use rust_productions::parser::Parser;

/// Parses a constant, and completes its node.
// const A: u8 = 1;
#[cycle(grammar)]
pub(crate) fn const_item(p: &mut Parser<'_>, item: Marker, condition: Condition)
    requires some { 1 ≤ tokens p.old }
    requires innermost { IsInnermost item p.old.nodes }
    ensures completes { Completes condition rows.const_item p.old p.new }
    ensures takes { Takes 4070 p.old p.new }
{
    p.take(SyntaxKind::CONST_KW);
    underscore_or_name(p);
    opt_part(p, Part::NewGenericParams);
    const_typed(p, condition);
    item.complete(p, SyntaxKind::CONST);
}

/// Parses the type and the optional value of a constant, its where clause and its `;`.
// : u8 = 1;
#[cycle(grammar)]
fn const_typed(p: &mut Parser<'_>, in_condition: Condition)
    ensures reads { Reads in_condition rows.const_typed p.old p.new }
    ensures asks { Asks 20 p.old p.new }
{
    p.expect(SyntaxKind::COLON);
    expect_part(p, Part::Type);
    opt_value(p, in_condition);
    opt_part(p, Part::NewWhereClause);
    p.expect(SyntaxKind::SEMICOLON);
}

/// Parses a static, and completes its node.
// static mut A: u8 = 1;
#[cycle(grammar)]
pub(crate) fn static_item(p: &mut Parser<'_>, item: Marker, condition: Condition)
    requires some { 1 ≤ tokens p.old }
    requires innermost { IsInnermost item p.old.nodes }
    ensures completes { Completes condition rows.static_item p.old p.new }
    ensures takes { Takes 4070 p.old p.new }
{
    p.take(SyntaxKind::STATIC_KW);
    p.eat(SyntaxKind::MUT_KW);
    expect_name(p);
    typed_value(p, condition);
    item.complete(p, SyntaxKind::STATIC);
}

/// Parses the type and the optional value of a static, and its `;`.
// : u8 = 1;
#[cycle(grammar)]
fn typed_value(p: &mut Parser<'_>, condition: Condition)
    ensures reads { Reads condition rows.typed_value p.old p.new }
    ensures asks { Asks 20 p.old p.new }
{
    p.expect(SyntaxKind::COLON);
    expect_part(p, Part::Type);
    opt_value(p, condition);
    p.expect(SyntaxKind::SEMICOLON);
}

/// Parses an optional value with its `=`.
// = 1
#[cycle(grammar)]
pub(crate) fn opt_value(p: &mut Parser<'_>, condition: Condition)
    ensures reads { Reads condition ⁅ initializer ⁆ p.old p.new }
    ensures asks { Asks 1 p.old p.new }
{
    if p.at(SyntaxKind::EQ) {
        p.take(SyntaxKind::EQ);
        expect_expression(p, Level::Expression, condition);
    }
}

/// Parses a type alias, and completes its node.
// type A<T> = B<T>;
#[cycle(grammar)]
pub(crate) fn type_alias(p: &mut Parser<'_>, item: Marker, condition: Condition)
    requires some { 1 ≤ tokens p.old }
    requires innermost { IsInnermost item p.old.nodes }
    ensures completes { Completes condition rows.type_alias p.old p.new }
    ensures takes { Takes 4080 p.old p.new }
{
    p.take(SyntaxKind::TYPE_KW);
    expect_name(p);
    opt_part(p, Part::GenericParams);
    bounds_after_colon(p);
    opt_part(p, Part::WhereClause);
    alias_value(p);
    item.complete(p, SyntaxKind::TYPE_ALIAS);
}

/// Parses the optional type of a type alias, its where clause and its `;`.
// = B<T>;
#[cycle(grammar)]
fn alias_value(p: &mut Parser<'_>)
    ensures reads { (c : Condition) → Reads c rows.alias_value p.old p.new }
    ensures asks { Asks 3 p.old p.new }
{
    opt_type_after(p, SyntaxKind::EQ);
    opt_part(p, Part::NewWhereClause);
    p.expect(SyntaxKind::SEMICOLON);
}
