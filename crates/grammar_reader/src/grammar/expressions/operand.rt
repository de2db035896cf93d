//! Operands with their prefix and postfix operators.

ghost use Rattle.std.specs.Prelude.{◌≤◌, IsTrue, true};
ghost use Rattle.parser_input.specs.Kind.{raw_of};
ghost use Rattle.parser_input.specs.Kinds.{FLOAT_NUMBER, PREFIX_EXPR};
ghost use Rattle.parser_events.specs.Stack.{IsInnermost};
ghost use Rattle.rust_grammar.specs.Calls.{Prefixed};
ghost use Rattle.rust_grammar.specs.Notation.{◌▸◌, ◌*, ◌!, ◌⟨◌⟩, lead, more, wide};
ghost use Rattle.rust_grammar.specs.Rule as rules;
ghost use Rattle.rust_grammar.specs.Rule.{Kind, One, Split};
ghost use Rattle.rust_grammar.specs.Words.{one};
ghost use Rattle.rust_grammar.specs.Whole.{rule};
ghost use Rattle.rust_grammar.specs.Expressions as rows;
ghost use Rattle.rust_grammar.specs.Shared.{attributed};
ghost use Rattle.rust_productions.specs.Looks.{tokens, Asks, Takes, Peeks, TakesIn, TakesOneIn, AsksIn};
ghost use Rattle.rust_productions.specs.Reads.{looks, FromStart, Completes, Gives, Reads, Saw};
ghost use Rattle.rust_productions.specs.Starts.{Starts, StartsIn};
ghost use Rattle.rust_productions.specs.declared.condition.Condition.{Condition};
ghost use Rattle.grammar_reader.specs.Next.{IsFloat};

use crate::grammar::attributes::attribute;
use crate::grammar::expressions::atom::inside;
use crate::grammar::expressions::{Level, expect_expression, open_range};
use crate::grammar::items::attributes;
use crate::grammar::lists::{ListKind, list};
use crate::grammar::parts::{Part, expect_part, opt_part};
use parser_events::message::Message;
use parser_input::syntax_kind::SyntaxKind;
use rust_productions::condition::Condition;
use rust_productions::grammar::expressions::at_operand;
use rust_productions::grammar::operands::{at_method, at_new_operand, at_raw, opt_mut_or_const};
use rust_productions::grammar::operators::at_joint;
use rust_productions::grammar::types::word_type;
use rust_productions::marker::Marker;
use rust_productions::parser::Parser;

/// Parses an operand with its prefix operators.
// -!a
#[cycle(grammar)]
pub(crate) fn prefixed(p: &mut Parser<'_>, condition: Condition)
    requires begins { Saw condition (looks rules.prefixed) p.old true }
    requires some { 1 ≤ tokens p.old }
    ensures gives { Gives rules.prefixed condition p.old p.new }
    ensures takes { Takes 2870 p.old p.new }
{
    match p.current() {
        SyntaxKind::MINUS => prefix_expr(p, SyntaxKind::MINUS, condition),
        SyntaxKind::BANG => prefix_expr(p, SyntaxKind::BANG, condition),
        SyntaxKind::STAR => prefix_expr(p, SyntaxKind::STAR, condition),
        _ => {
            if at_new_operand(p) {
                new_operand(p, condition);
                return;
            }
            if p.at(SyntaxKind::AMP) {
                ref_expr(p, condition);
                return;
            }
            operand(p, condition);
        }
    }
}

/// Parses a prefix operator and its operand.
// -a
#[cycle(grammar)]
fn prefix_expr(p: &mut Parser<'_>, operator: SyntaxKind, condition: Condition)
    requires some { 1 ≤ tokens p.old }
    ensures reads { Reads condition
        (PREFIX_EXPR ⟨ One (one (raw_of operator)) ▸ Prefixed ! ⟩) p.old p.new }
    ensures takes { Takes 3300 p.old p.new }
{
    let node = p.start();
    p.take(operator);
    expect_expression(p, Level::Prefixed, condition);
    node.complete(p, SyntaxKind::PREFIX_EXPR);
}

/// Parses a borrow expression.
// &mut a
#[cycle(grammar)]
fn ref_expr(p: &mut Parser<'_>, condition: Condition)
    requires some { 1 ≤ tokens p.old }
    ensures reads { Reads condition rows.ref_expr p.old p.new }
    ensures takes { Takes 3300 p.old p.new }
{
    let node = p.start();
    p.take(SyntaxKind::AMP);
    p.eat(SyntaxKind::MUT_KW);
    expect_expression(p, Level::Prefixed, condition);
    node.complete(p, SyntaxKind::REF_EXPR);
}

/// Parses an operand that only the whole language has: a raw reference, one after attributes, or a
/// range without a start.
// &raw mut a
#[cycle(grammar)]
fn new_operand(p: &mut Parser<'_>, condition: Condition)
    requires begins { Starts (wide rows.new_operand_begins) p.old }
    ensures from_start { FromStart condition rows.new_operand p.old p.new }
    ensures takes { Takes 3200 p.old p.new }
{
    if at_raw(p) {
        raw_ref_expr(p, condition);
        return;
    }
    if p.at(SyntaxKind::POUND) {
        attributed_operand(p, condition);
        return;
    }
    open_range(p, condition);
}

/// Parses an operand with the attributes before it.
// #[a] b.c
#[cycle(grammar)]
fn attributed_operand(p: &mut Parser<'_>, condition: Condition)
    requires some { 1 ≤ tokens p.old }
    ensures from_start { FromStart condition
        (attributed rows.operand_after_attributes) p.old p.new }
    ensures takes { Takes 4000 p.old p.new }
{
    let frame = p.start();
    attribute(p);
    attributes(p);
    operand_after_attributes(p, frame, condition);
}

/// Parses an operand after its attributes, which become its first children; emits an error if there
/// is none.
// b.c
#[cycle(grammar)]
fn operand_after_attributes(p: &mut Parser<'_>, frame: Marker, condition: Condition)
    requires innermost { IsInnermost frame p.old.nodes }
    ensures completes { Completes condition rows.operand_after_attributes p.old p.new }
    ensures asks { Asks 16 p.old p.new }
{
    if at_operand(p, condition) {
        extended_operand(p, condition);
        frame.abandon(p);
        return;
    }
    p.error(Message::ExpectedExpression);
    frame.complete(p, SyntaxKind::ERROR);
}

/// Parses an operand. What the innermost node has so far becomes its first children.
// a.b
#[cycle(grammar)]
pub(crate) fn extended_operand(p: &mut Parser<'_>, condition: Condition)
    requires begins { StartsIn condition (looks rules.prefixed) p.old }
    ensures reads { Reads condition (lead Prefixed) p.old p.new }
    ensures takes { Takes 2870 p.old p.new }
{
    let inner = p.start();
    prefixed(p, condition);
    inner.extend_left(p);
}

/// Parses a raw reference.
// &raw mut a
#[cycle(grammar)]
fn raw_ref_expr(p: &mut Parser<'_>, condition: Condition)
    requires some { 2 ≤ tokens p.old }
    ensures reads { Reads condition rows.raw_ref_expr p.old p.new }
    ensures takes { Takes 4000 p.old p.new }
{
    let node = p.start();
    p.take(SyntaxKind::AMP);
    p.take_contextual(SyntaxKind::RAW_KW);
    opt_mut_or_const(p);
    expect_expression(p, Level::Prefixed, condition);
    node.complete(p, SyntaxKind::REF_EXPR);
}

/// Parses an expression without operators, with its postfix operators.
// a.b(c)?
#[cycle(grammar)]
fn operand(p: &mut Parser<'_>, condition: Condition)
    requires begins { Saw condition (looks rules.atom) p.old true }
    requires some { 1 ≤ tokens p.old }
    ensures from_start { FromStart condition rows.postfixed p.old p.new }
    ensures takes { Takes 2880 p.old p.new }
{
    let frame = p.start();
    framed_operand(p, frame, condition);
}

/// Parses an expression without operators, with its postfix operators, within `frame`, which it
/// abandons.
// a.b(c)?
#[inline(never)]
#[cycle(grammar)]
fn framed_operand(p: &mut Parser<'_>, frame: Marker, condition: Condition)
    requires begins { StartsIn condition (looks rules.atom) p.old }
    requires innermost { IsInnermost frame p.old.nodes }
    ensures completes { Completes condition (rule rules.atom ▸ (more rules.postfix) *) p.old p.new }
    ensures takes { Takes 2880 p.old p.new }
{
    let frame = inside(p, frame, condition);
    let frame = postfixes(p, frame);
    frame.abandon(p);
}

/// Returns `true` if a postfix operator is next: a call, an index, a `?` or a dot.
fn at_postfix(p: &mut Parser<'_>) -> bool
    ensures sees { (c : Condition) → Saw c (looks rules.postfix) p.old result }
    ensures some { IsTrue result → 1 ≤ tokens p.old }
    ensures peeks { Peeks 3 p.old p.new }
{
    match p.current() {
        SyntaxKind::L_PAREN => true,
        SyntaxKind::L_BRACK => true,
        SyntaxKind::QUESTION => true,
        SyntaxKind::DOT => {
            if p.at_pair(SyntaxKind::DOT, SyntaxKind::DOT) {
                return false;
            }
            true
        }
        _ => false,
    }
}

/// Parses postfix operators.
// .b(c)?[d]
#[cycle(grammar)]
pub(crate) fn postfixes(p: &mut Parser<'_>, frame: Marker) -> Marker
    requires innermost { IsInnermost frame p.old.nodes }
    ensures reads { (c : Condition) → Reads c ((more rules.postfix) *) p.old p.new }
    ensures asks { AsksIn result 3 p.old p.new }
{
    let mut frame = frame;
    'turns: while at_postfix(p) {
        frame = postfix(p, frame);
    }
    frame
}

/// Parses one postfix operator.
// [d]
#[inline(never)]
#[cycle(grammar)]
pub(crate) fn postfix(p: &mut Parser<'_>, frame: Marker) -> Marker
    requires some { 1 ≤ tokens p.old }
    requires innermost { IsInnermost frame p.old.nodes }
    ensures reads { (c : Condition) → Reads c (more rules.postfix) p.old p.new }
    ensures takes { TakesIn result 3290 p.old p.new }
{
    match p.current() {
        SyntaxKind::L_PAREN => {
            list(p, ListKind::Arguments);
            frame.wrap(p, SyntaxKind::CALL_EXPR)
        }
        SyntaxKind::L_BRACK => {
            index(p);
            frame.wrap(p, SyntaxKind::INDEX_EXPR)
        }
        SyntaxKind::QUESTION => {
            p.take(SyntaxKind::QUESTION);
            frame.wrap(p, SyntaxKind::TRY_EXPR)
        }
        _ => {
            p.take(SyntaxKind::DOT);
            after_dot(p, frame)
        }
    }
}

/// Parses the brackets of an index expression.
// [d]
#[cycle(grammar)]
fn index(p: &mut Parser<'_>)
    requires some { 1 ≤ tokens p.old }
    ensures reads { (c : Condition) → Reads c rows.index p.old p.new }
    ensures takes { Takes 3300 p.old p.new }
{
    p.take(SyntaxKind::L_BRACK);
    expect_expression(p, Level::Expression, Condition::Off);
    p.expect(SyntaxKind::R_BRACK);
}

/// Parses a field access or a method call after its dot.
// b(c)
#[cycle(grammar)]
fn after_dot(p: &mut Parser<'_>, frame: Marker) -> Marker
    requires innermost { IsInnermost frame p.old.nodes }
    ensures reads { (c : Condition) → Reads c (more rules.after_dot) p.old p.new }
    ensures asks { AsksIn result 6 p.old p.new }
{
    if at_method(p) {
        method_call(p);
        return frame.wrap(p, SyntaxKind::METHOD_CALL_EXPR);
    }
    if p.at_new(SyntaxKind::AWAIT_KW) {
        p.take(SyntaxKind::AWAIT_KW);
        return frame.wrap(p, SyntaxKind::AWAIT_EXPR);
    }
    match p.current() {
        SyntaxKind::IDENT => {
            word_type(p, SyntaxKind::IDENT, SyntaxKind::NAME_REF);
            frame.wrap(p, SyntaxKind::FIELD_EXPR)
        }
        SyntaxKind::INT_NUMBER => {
            word_type(p, SyntaxKind::INT_NUMBER, SyntaxKind::NAME_REF);
            frame.wrap(p, SyntaxKind::FIELD_EXPR)
        }
        SyntaxKind::FLOAT_NUMBER => float(p, frame),
        _ => {
            p.error(Message::ExpectedField);
            frame.wrap(p, SyntaxKind::FIELD_EXPR)
        }
    }
}

/// Parses a method call after its dot.
// b::<u8>(c)
#[cycle(grammar)]
fn method_call(p: &mut Parser<'_>)
    requires some { 1 ≤ tokens p.old }
    ensures reads { (c : Condition) → Reads c rows.method_call p.old p.new }
    ensures takes { Takes 4080 p.old p.new }
{
    word_type(p, SyntaxKind::IDENT, SyntaxKind::NAME_REF);
    opt_part(p, Part::GenericArgs);
    expect_part(p, Part::Arguments);
}

/// Parses a float after a dot: one or two field numbers. After a float that ends in a dot, parses
/// what follows that dot.
// 0.1
#[cycle(grammar)]
fn float(p: &mut Parser<'_>, frame: Marker) -> Marker
    requires begins { Starts (Kind 0 FLOAT_NUMBER) p.old }
    requires innermost { IsInnermost frame p.old.nodes }
    ensures reads { (c : Condition) → Reads c rows.float_field p.old p.new }
    ensures takes { TakesIn result 4090 p.old p.new }
{
    let joint = at_joint(p);
    let frame = split(p, frame, joint);
    if joint {
        return frame;
    }
    after_dot(p, frame)
}

/// Completes the node as a field access by the next float, and opens a node around it.
// 0.1
fn split(p: &mut Parser<'_>, frame: Marker, joint: bool) -> Marker
    requires float { IsFloat joint p.old }
    requires innermost { IsInnermost frame p.old.nodes }
    ensures reads { (c : Condition) → Reads c Split p.old p.new }
    ensures takes { TakesOneIn result p.old p.new }
{
    let frame = p.split_float(frame, !joint);
    if !joint {
        return frame;
    }
    let closed = frame.close(p, SyntaxKind::FIELD_EXPR);
    p.precede(closed)
}
