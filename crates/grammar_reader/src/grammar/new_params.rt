//! Generic parameters that only the whole language has: const parameters, and those with
//! attributes.

ghost use Rattle.std.specs.Prelude.{◌≤◌};
ghost use Rattle.parser_input.specs.Kinds.{CONST_PARAM};
ghost use Rattle.parser_events.specs.Stack.{IsInnermost};
ghost use Rattle.rust_grammar.specs.Calls.{Name};
ghost use Rattle.rust_grammar.specs.Notation.{◌▸◌, ⁅◌⁆, ◌!, ◌⟨◌⟩};
ghost use Rattle.rust_grammar.specs.Paths as rows;
ghost use Rattle.rust_grammar.specs.Shared as shared;
ghost use Rattle.rust_productions.specs.Looks.{tokens, Takes, Asks};
ghost use Rattle.rust_productions.specs.Reads.{FromStart, Completes, Reads};
ghost use Rattle.rust_productions.specs.declared.condition.Condition.{Condition};

use crate::grammar::attributes::attribute;
use crate::grammar::const_args::expect_const_arg;
use crate::grammar::generic_params::{bounds_after_colon, lifetime_and_bounds};
use crate::grammar::items::attributes;
use crate::grammar::parts::{Part, expect_part};
use crate::grammar::types::opt_type_after;
use parser_input::syntax_kind::SyntaxKind;
use rust_productions::grammar::names::expect_name;
use rust_productions::marker::Marker;
use rust_productions::parser::Parser;

/// Parses a const parameter, or a parameter with attributes.
// const N: usize = 3
#[cycle(grammar)]
pub(crate) fn new_param(p: &mut Parser<'_>)
    requires some { 1 ≤ tokens p.old }
    ensures from_start { (c : Condition) → FromStart c rows.new_param p.old p.new }
    ensures takes { Takes 4010 p.old p.new }
{
    if p.at(SyntaxKind::CONST_KW) {
        const_param(p);
        return;
    }
    attributed_param(p);
}

/// Parses a const parameter.
// const N: usize = 3
#[cycle(grammar)]
fn const_param(p: &mut Parser<'_>)
    requires some { 1 ≤ tokens p.old }
    ensures reads { (c : Condition) → Reads c (CONST_PARAM ⟨ rows.const_param ⟩) p.old p.new }
    ensures takes { Takes 4030 p.old p.new }
{
    let node = p.start();
    inside_const_param(p);
    node.complete(p, SyntaxKind::CONST_PARAM);
}

/// Parses the parts of a const parameter, within its node.
// const N: usize = 3
#[cycle(grammar)]
fn inside_const_param(p: &mut Parser<'_>)
    requires some { 1 ≤ tokens p.old }
    ensures reads { (c : Condition) → Reads c rows.const_param p.old p.new }
    ensures takes { Takes 4030 p.old p.new }
{
    p.take(SyntaxKind::CONST_KW);
    expect_name(p);
    p.expect(SyntaxKind::COLON);
    expect_part(p, Part::Type);
    const_default(p);
}

/// Parses the optional default of a const parameter.
// = 3
#[cycle(grammar)]
fn const_default(p: &mut Parser<'_>)
    ensures reads { (c : Condition) → Reads c rows.const_default p.old p.new }
    ensures asks { Asks 1 p.old p.new }
{
    if p.at(SyntaxKind::EQ) {
        p.take(SyntaxKind::EQ);
        expect_const_arg(p);
    }
}

/// Parses a parameter with attributes.
// #[a] T: A
#[cycle(grammar)]
fn attributed_param(p: &mut Parser<'_>)
    requires some { 1 ≤ tokens p.old }
    ensures from_start { (c : Condition)
        → FromStart c (shared.attributed rows.attributed_param) p.old p.new }
    ensures takes { Takes 4020 p.old p.new }
{
    let node = p.start();
    attribute(p);
    attributes(p);
    after_attributes(p, node);
}

/// Parses a parameter after its attributes, and completes its node.
// T: A
#[cycle(grammar)]
fn after_attributes(p: &mut Parser<'_>, node: Marker)
    requires innermost { IsInnermost node p.old.nodes }
    ensures completes { (c : Condition) → Completes c rows.attributed_param p.old p.new }
    ensures asks { Asks 4 p.old p.new }
{
    match p.current() {
        SyntaxKind::LIFETIME_IDENT => {
            lifetime_and_bounds(p);
            node.complete(p, SyntaxKind::LIFETIME_PARAM);
        }
        SyntaxKind::CONST_KW => {
            inside_const_param(p);
            node.complete(p, SyntaxKind::CONST_PARAM);
        }
        _ => {
            inside_type_param(p);
            node.complete(p, SyntaxKind::TYPE_PARAM);
        }
    }
}

/// Parses the parts of a type parameter, within its node; emits an error if there is no name.
// T: A = u8
#[cycle(grammar)]
fn inside_type_param(p: &mut Parser<'_>)
    ensures reads { (c : Condition) → Reads c
        (Name ! ▸ ⁅ rows.bounds_after_colon ⁆ ▸ rows.type_default) p.old p.new }
    ensures asks { Asks 3 p.old p.new }
{
    expect_name(p);
    bounds_after_colon(p);
    opt_type_after(p, SyntaxKind::EQ);
}
