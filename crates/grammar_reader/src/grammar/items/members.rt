//! The members of structs and enums: variants, and fields with and without names.

ghost use Rattle.std.specs.Prelude.{◌≤◌, true};
ghost use Rattle.parser_input.specs.Kinds.{CONST_ARG};
ghost use Rattle.rust_grammar.specs.Calls.{Attribute, Expression, Name, Visibility};
ghost use Rattle.rust_grammar.specs.Items as rows;
ghost use Rattle.rust_grammar.specs.Notation.{◌▸◌, ⁅◌⁆, ◌*, ◌!, ◌⟨◌⟩};
ghost use Rattle.rust_grammar.specs.Rule.{begins};
ghost use Rattle.rust_productions.specs.Looks.{tokens, Takes, Asks, Peeks};
ghost use Rattle.rust_productions.specs.Reads.{looks, Reads, Saw};
ghost use Rattle.rust_productions.specs.declared.condition.Condition.{Condition};
ghost use Rattle.rust_productions.specs.declared.condition.Condition.TheVariants.{Off};

use crate::grammar::expressions::{Level, expect_expression};
use crate::grammar::items::attributes_and_visibility;
use crate::grammar::lists::{ListKind, list};
use crate::grammar::parts::{Part, expect_part};
use crate::grammar::types::any_type;
use parser_input::syntax_kind::SyntaxKind;
use rust_productions::condition::Condition;
use rust_productions::grammar::items::unsafe_and_name;
use rust_productions::grammar::names::{expect_name, name};
use rust_productions::grammar::types::at_type;
use rust_productions::grammar::visibility::visibility;
use rust_productions::parser::Parser;

/// Returns `true` if a named field starts here: at an attribute, a visibility, a name, or in the
/// whole language at `unsafe`.
pub(crate) fn at_record_field(p: &mut Parser<'_>) -> bool
    ensures sees { (c : Condition) → Saw c (begins looks rows.field_front) p.old result }
    ensures peeks { Peeks 1 p.old p.new }
{
    match p.current() {
        SyntaxKind::PUB_KW | SyntaxKind::POUND | SyntaxKind::IDENT => true,
        SyntaxKind::UNSAFE_KW => {
            if p.at_whole() {
                return true;
            }
            false
        }
        _ => false,
    }
}

/// Returns `true` if a tuple field starts here: at an attribute, a visibility or a type.
pub(crate) fn at_tuple_field(p: &mut Parser<'_>) -> bool
    ensures sees { (c : Condition) → Saw c (begins looks rows.typed) p.old result }
    ensures peeks { Peeks 17 p.old p.new }
{
    match p.current() {
        SyntaxKind::POUND | SyntaxKind::PUB_KW => true,
        _ => at_type(p),
    }
}

/// Parses a variant of an enum.
// A { a: u8 }
#[inline(never)]
#[cycle(grammar)]
pub(crate) fn variant(p: &mut Parser<'_>)
    requires begins { Saw Off (begins looks rows.variant) p.old true }
    requires some { 1 ≤ tokens p.old }
    ensures reads { Reads Off rows.variant p.old p.new }
    ensures takes { Takes 4000 p.old p.new }
{
    let variant = p.start();
    named(p);
    opt_fields(p);
    opt_discriminant(p);
    variant.complete(p, SyntaxKind::VARIANT);
}

/// Parses a named field.
// pub a: u8
#[inline(never)]
#[cycle(grammar)]
pub(crate) fn record_field(p: &mut Parser<'_>)
    requires begins { Saw Off (begins looks rows.record_field) p.old true }
    requires some { 1 ≤ tokens p.old }
    ensures reads { Reads Off rows.record_field p.old p.new }
    ensures takes { Takes 4000 p.old p.new }
{
    let field = p.start();
    field_front(p);
    p.expect(SyntaxKind::COLON);
    expect_part(p, Part::Type);
    opt_discriminant(p);
    field.complete(p, SyntaxKind::RECORD_FIELD);
}

/// Parses a tuple field.
// pub u8
#[inline(never)]
#[cycle(grammar)]
pub(crate) fn tuple_field(p: &mut Parser<'_>)
    requires begins { Saw Off (begins looks rows.tuple_field) p.old true }
    requires some { 1 ≤ tokens p.old }
    ensures reads { Reads Off rows.tuple_field p.old p.new }
    ensures takes { Takes 2900 p.old p.new }
{
    let field = p.start();
    typed(p);
    field.complete(p, SyntaxKind::TUPLE_FIELD);
}

/// Parses the attributes, the visibility and the name of a named field.
// #[a] pub unsafe b
#[cycle(grammar)]
fn field_front(p: &mut Parser<'_>)
    requires begins { Saw Off (begins looks rows.field_front) p.old true }
    requires some { 1 ≤ tokens p.old }
    ensures reads { Reads Off rows.field_front p.old p.new }
    ensures takes { Takes 4060 p.old p.new }
{
    match p.current() {
        SyntaxKind::POUND => {
            attributes_and_visibility(p);
            unsafe_and_name(p);
        }
        SyntaxKind::PUB_KW => {
            visibility(p);
            unsafe_and_name(p);
        }
        SyntaxKind::UNSAFE_KW => {
            p.take(SyntaxKind::UNSAFE_KW);
            expect_name(p);
        }
        _ => {
            name(p);
        }
    }
}

/// Parses the optional value of a variant, or the optional default of a field.
// = 1
#[cycle(grammar)]
fn opt_discriminant(p: &mut Parser<'_>)
    ensures reads { Reads Off rows.discriminant p.old p.new }
    ensures asks { Asks 1 p.old p.new }
{
    if p.at_new(SyntaxKind::EQ) {
        p.take(SyntaxKind::EQ);
        const_value(p);
    }
}

/// Parses an expression as a constant; emits an error if there is none.
// 1
#[cycle(grammar)]
fn const_value(p: &mut Parser<'_>)
    ensures reads { Reads Off (CONST_ARG ⟨ Expression ! ⟩) p.old p.new }
    ensures asks { Asks 770 p.old p.new }
{
    let node = p.start();
    expect_expression(p, Level::Expression, Condition::Off);
    node.complete(p, SyntaxKind::CONST_ARG);
}

/// Parses the attributes, the visibility and the name of a variant.
// #[a] pub b
#[cycle(grammar)]
fn named(p: &mut Parser<'_>)
    requires begins { Saw Off (begins looks (Attribute * ▸ ⁅ Visibility ⁆ ▸ Name !)) p.old true }
    requires some { 1 ≤ tokens p.old }
    ensures reads { Reads Off (Attribute * ▸ ⁅ Visibility ⁆ ▸ Name !) p.old p.new }
    ensures takes { Takes 4060 p.old p.new }
{
    match p.current() {
        SyntaxKind::POUND => {
            attributes_and_visibility(p);
            expect_name(p);
        }
        SyntaxKind::PUB_KW => {
            visibility(p);
            expect_name(p);
        }
        _ => name(p),
    }
}

/// Parses the attributes, the visibility and the type of a tuple field.
// #[a] pub u8
#[cycle(grammar)]
fn typed(p: &mut Parser<'_>)
    requires begins { Saw Off (begins looks rows.typed) p.old true }
    requires some { 1 ≤ tokens p.old }
    ensures reads { Reads Off rows.typed p.old p.new }
    ensures takes { Takes 2900 p.old p.new }
{
    match p.current() {
        SyntaxKind::POUND => {
            attributes_and_visibility(p);
            expect_part(p, Part::Type);
        }
        SyntaxKind::PUB_KW => {
            visibility(p);
            expect_part(p, Part::Type);
        }
        _ => any_type(p),
    }
}

/// Parses the optional fields of a variant.
// (u8)
#[cycle(grammar)]
fn opt_fields(p: &mut Parser<'_>)
    ensures reads { (c : Condition) → Reads c ⁅ rows.variant_fields ⁆ p.old p.new }
    ensures asks { Asks 1 p.old p.new }
{
    match p.current() {
        SyntaxKind::L_CURLY => list(p, ListKind::RecordFields),
        SyntaxKind::L_PAREN => list(p, ListKind::TupleFields),
        _ => {}
    }
}
