//! Structs and enums.

ghost use Rattle.std.specs.Prelude.{◌≤◌};
ghost use Rattle.parser_events.specs.Stack.{IsInnermost};
ghost use Rattle.rust_grammar.specs.Notation.{◌! };
ghost use Rattle.rust_grammar.specs.Items as rows;
ghost use Rattle.rust_productions.specs.Looks.{tokens, Takes, Asks};
ghost use Rattle.rust_productions.specs.Reads.{Completes, Reads};
ghost use Rattle.rust_productions.specs.declared.condition.Condition.{Condition};

use crate::grammar::lists::{ListKind, list};
use crate::grammar::parts::{Part, expect_part, opt_part};
use parser_input::syntax_kind::SyntaxKind;
use rust_productions::condition::Condition;
use rust_productions::grammar::names::expect_name;
use rust_productions::marker::Marker;
use rust_productions::parser::Parser;

/// Parses a struct, and completes its node.
// struct S<T> { a: T }
#[cycle(grammar)]
pub(crate) fn struct_item(p: &mut Parser<'_>, item: Marker, condition: Condition)
    requires some { 1 ≤ tokens p.old }
    requires innermost { IsInnermost item p.old.nodes }
    ensures completes { Completes condition rows.struct_item p.old p.new }
    ensures takes { Takes 4080 p.old p.new }
{
    p.take(SyntaxKind::STRUCT_KW);
    expect_name(p);
    opt_part(p, Part::GenericParams);
    fields(p, condition);
    item.complete(p, SyntaxKind::STRUCT);
}

/// Parses the fields of a struct, or its `;`.
// (u8, u8);
#[cycle(grammar)]
fn fields(p: &mut Parser<'_>, condition: Condition)
    ensures reads { Reads condition rows.struct_fields p.old p.new }
    ensures asks { Asks 4 p.old p.new }
{
    if p.at(SyntaxKind::L_PAREN) {
        list(p, ListKind::TupleFields);
        opt_part(p, Part::WhereClause);
        p.expect(SyntaxKind::SEMICOLON);
        return;
    }
    opt_part(p, Part::WhereClause);
    named_fields(p);
}

/// Parses the named fields of a struct, or its `;`.
// { a: u8 }
#[cycle(grammar)]
fn named_fields(p: &mut Parser<'_>)
    ensures reads { (c : Condition) → Reads c rows.named_fields p.old p.new }
    ensures asks { Asks 2 p.old p.new }
{
    if p.at(SyntaxKind::L_CURLY) {
        list(p, ListKind::RecordFields);
        return;
    }
    p.expect(SyntaxKind::SEMICOLON);
}

/// Parses an enum, and completes its node.
// enum E { A, B(u8) }
#[cycle(grammar)]
pub(crate) fn enum_item(p: &mut Parser<'_>, item: Marker, condition: Condition)
    requires some { 1 ≤ tokens p.old }
    requires innermost { IsInnermost item p.old.nodes }
    ensures completes { Completes condition rows.enum_item p.old p.new }
    ensures takes { Takes 4080 p.old p.new }
{
    p.take(SyntaxKind::ENUM_KW);
    expect_name(p);
    opt_part(p, Part::GenericParams);
    opt_part(p, Part::WhereClause);
    expect_part(p, Part::Variants);
    item.complete(p, SyntaxKind::ENUM);
}
