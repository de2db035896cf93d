//! Fields of record expressions and of record patterns.

ghost use Rattle.std.specs.Prelude.{◌≤◌, true};
ghost use Rattle.parser_input.specs.Kinds.{RECORD_EXPR_FIELD, RECORD_PAT_FIELD};
ghost use Rattle.parser_events.specs.Stack.{IsInnermost};
ghost use Rattle.rust_grammar.specs.Calls.{Expression, Pattern};
ghost use Rattle.rust_grammar.specs.Notation.{◌▸◌, ⁅◌⁆, ◌!, ◌⟨◌⟩};
ghost use Rattle.rust_grammar.specs.Rule as rules;
ghost use Rattle.rust_grammar.specs.Rule.{One, begins};
ghost use Rattle.rust_grammar.specs.Shared.{attributed, field_name};
ghost use Rattle.rust_grammar.specs.Words.{':'};
ghost use Rattle.rust_grammar.specs.Expressions as expression_rows;
ghost use Rattle.rust_grammar.specs.Patterns as pattern_rows;
ghost use Rattle.rust_productions.specs.Looks.{tokens, Takes, Asks};
ghost use Rattle.rust_productions.specs.Reads.{looks, FromStart, Completes, Gives, Reads, Saw};
ghost use Rattle.rust_productions.specs.declared.condition.Condition.{Condition};

use crate::grammar::attributes::attribute;
use crate::grammar::const_args::const_path;
use crate::grammar::expressions::{Level, expect_expression, expression};
use crate::grammar::items::attributes;
use crate::grammar::parts::{Part, expect_part};
use crate::grammar::paths::{Mode, path_with_args};
use parser_input::syntax_kind::SyntaxKind;
use rust_productions::condition::Condition;
use rust_productions::grammar::expressions::at_expression;
use rust_productions::grammar::fields::{any_binding, name_of_field, shorthand};
use rust_productions::grammar::patterns::{at_attributed_named_field, at_named_field, rest_pat};
use rust_productions::marker::Marker;
use rust_productions::parser::Parser;

/// Parses a field of a record expression.
// a: 1
#[inline(never)]
#[cycle(grammar)]
pub(crate) fn field_value(p: &mut Parser<'_>, condition: Condition)
    requires begins { Saw condition (looks rules.field_value) p.old true }
    requires some { 1 ≤ tokens p.old }
    ensures gives { Gives rules.field_value condition p.old p.new }
    ensures takes { Takes 3300 p.old p.new }
{
    if p.at_new(SyntaxKind::POUND) {
        attributed_value(p, condition);
        return;
    }
    if at_named_field(p) {
        named_value(p, condition);
        return;
    }
    if p.at_pair(SyntaxKind::DOT, SyntaxKind::DOT) {
        other_fields(p, condition);
        return;
    }
    path_value(p);
}

/// Parses a field of a record expression that has attributes.
// #[a] b: 1
#[cycle(grammar)]
fn attributed_value(p: &mut Parser<'_>, condition: Condition)
    requires some { 1 ≤ tokens p.old }
    ensures from_start { FromStart condition
        (attributed expression_rows.attributed_value) p.old p.new }
    ensures takes { Takes 4000 p.old p.new }
{
    let node = p.start();
    attribute(p);
    attributes(p);
    value_after_attributes(p, node, condition);
}

/// Parses a field of a record expression after its attributes, and closes its node.
// b: 1
#[cycle(grammar)]
fn value_after_attributes(p: &mut Parser<'_>, node: Marker, condition: Condition)
    requires innermost { IsInnermost node p.old.nodes }
    ensures completes { Completes condition expression_rows.attributed_value p.old p.new }
    ensures asks { Asks 40 p.old p.new }
{
    if at_attributed_named_field(p) {
        name_of_field(p);
        p.take(SyntaxKind::COLON);
        expect_expression(p, Level::Expression, condition);
        node.complete(p, SyntaxKind::RECORD_EXPR_FIELD);
        return;
    }
    if p.at_pair(SyntaxKind::DOT, SyntaxKind::DOT) {
        other_fields(p, condition);
        node.abandon(p);
        return;
    }
    const_path(p);
    node.complete(p, SyntaxKind::RECORD_EXPR_FIELD);
}

/// Parses a field of a record expression with its value.
// a: 1
#[inline(never)]
#[cycle(grammar)]
fn named_value(p: &mut Parser<'_>, condition: Condition)
    requires some { 2 ≤ tokens p.old }
    ensures reads { Reads condition
        (RECORD_EXPR_FIELD ⟨ field_name ▸ One ':' ▸ Expression ! ⟩) p.old p.new }
    ensures takes { Takes 7000 p.old p.new }
{
    let node = p.start();
    name_of_field(p);
    p.take(SyntaxKind::COLON);
    expect_expression(p, Level::Expression, condition);
    node.complete(p, SyntaxKind::RECORD_EXPR_FIELD);
}

/// Parses the `..` of a record expression and its optional base.
// ..b
#[cycle(grammar)]
fn other_fields(p: &mut Parser<'_>, condition: Condition)
    requires some { 2 ≤ tokens p.old }
    ensures reads { Reads condition expression_rows.struct_base p.old p.new }
    ensures takes { Takes 7000 p.old p.new }
{
    p.take_pair(SyntaxKind::DOT2);
    opt_expression(p, condition);
}

/// Parses an optional expression.
// b
#[cycle(grammar)]
fn opt_expression(p: &mut Parser<'_>, condition: Condition)
    ensures reads { Reads condition ⁅ Expression ⁆ p.old p.new }
    ensures asks { Asks 19 p.old p.new }
{
    if at_expression(p, condition) {
        expression(p, condition);
    }
}

/// Parses a shorthand field of a record expression.
// a
#[cycle(grammar)]
fn path_value(p: &mut Parser<'_>)
    requires begins { (c : Condition) → Saw c (looks rules.path) p.old true }
    requires some { 1 ≤ tokens p.old }
    ensures reads { (c : Condition) → Reads c expression_rows.shorthand p.old p.new }
    ensures takes { Takes 4000 p.old p.new }
{
    let node = p.start();
    let value = p.start();
    path_with_args(p, Mode::Expr);
    value.complete(p, SyntaxKind::PATH_EXPR);
    node.complete(p, SyntaxKind::RECORD_EXPR_FIELD);
}

/// Parses a field of a record pattern.
// a: Some(b)
#[inline(never)]
#[cycle(grammar)]
pub(crate) fn pattern_field(p: &mut Parser<'_>)
    requires begins { (c : Condition) → Saw c (looks rules.pattern_field) p.old true }
    requires some { 1 ≤ tokens p.old }
    ensures gives { (c : Condition) → Gives rules.pattern_field c p.old p.new }
    ensures takes { Takes 4060 p.old p.new }
{
    if p.at_new(SyntaxKind::POUND) {
        attributed_pattern_field(p);
        return;
    }
    if p.at_pair(SyntaxKind::DOT, SyntaxKind::DOT) {
        rest_pat(p);
        return;
    }
    if at_named_field(p) {
        named_pattern(p);
        return;
    }
    shorthand(p);
}

/// Parses a field of a record pattern that has attributes.
// #[a] b: Some(c)
#[cycle(grammar)]
fn attributed_pattern_field(p: &mut Parser<'_>)
    requires some { 1 ≤ tokens p.old }
    ensures from_start { (c : Condition)
        → FromStart c (attributed pattern_rows.attributed_field) p.old p.new }
    ensures takes { Takes 4070 p.old p.new }
{
    let node = p.start();
    attribute(p);
    attributes(p);
    after_attributes(p, node);
}

/// Parses a field of a record pattern after its attributes, and completes its node.
// b: Some(c)
#[cycle(grammar)]
fn after_attributes(p: &mut Parser<'_>, node: Marker)
    requires innermost { IsInnermost node p.old.nodes }
    ensures completes { (c : Condition) → Completes c pattern_rows.attributed_field p.old p.new }
    ensures asks { Asks 7 p.old p.new }
{
    if p.at_pair(SyntaxKind::DOT, SyntaxKind::DOT) {
        p.take_pair(SyntaxKind::DOT2);
        node.complete(p, SyntaxKind::REST_PAT);
        return;
    }
    if at_attributed_named_field(p) {
        name_of_field(p);
        p.take(SyntaxKind::COLON);
        expect_part(p, Part::Pattern);
        node.complete(p, SyntaxKind::RECORD_PAT_FIELD);
        return;
    }
    any_binding(p);
    node.complete(p, SyntaxKind::RECORD_PAT_FIELD);
}

/// Parses a field of a record pattern with its pattern.
// a: Some(b)
#[cycle(grammar)]
fn named_pattern(p: &mut Parser<'_>)
    requires some { 2 ≤ tokens p.old }
    ensures reads { (c : Condition) → Reads c
        (RECORD_PAT_FIELD ⟨ field_name ▸ One ':' ▸ Pattern ! ⟩) p.old p.new }
    ensures takes { Takes 8000 p.old p.new }
{
    let node = p.start();
    name_of_field(p);
    p.take(SyntaxKind::COLON);
    expect_part(p, Part::Pattern);
    node.complete(p, SyntaxKind::RECORD_PAT_FIELD);
}
