//! Expressions: operations, ranges, operands after `|>`, and assignments.

ghost use Rattle.std.specs.Prelude.{◌≤◌, Some, None, true};
ghost use Rattle.parser_events.specs.Forest.{ExpectedExpression};
ghost use Rattle.parser_events.specs.Stack.{IsInnermost};
ghost use Rattle.rust_grammar.specs.Calls.{Expression, Operation};
ghost use Rattle.parser_input.specs.Kinds.{RANGE_EXPR};
ghost use Rattle.rust_grammar.specs.Notation.{◌!, ◌⟨◌⟩, more};
ghost use Rattle.rust_grammar.specs.Rule as rules;
ghost use Rattle.rust_grammar.specs.Rule.{Call, Want, begins};
ghost use Rattle.rust_grammar.specs.Expressions as rows;
ghost use Rattle.grammar_reader.specs.Told.{level_of};
ghost use Rattle.rust_productions.specs.Looks.{tokens, Takes, Asks, AsksIn};
ghost use Rattle.rust_productions.specs.Operators.{IsMark, IsNext, spelling_of};
ghost use Rattle.rust_productions.specs.Reads.{looks, Gives, Reads, Saw};
ghost use Rattle.rust_productions.specs.Starts.{Starts, StartsIn};
ghost use Rattle.rust_productions.specs.Moves.{Keeps};
ghost use Rattle.rust_productions.specs.declared.condition.Condition.{Condition};
ghost use Rattle.grammar_reader.specs.Next.{EndsRange};

use crate::grammar::expressions::layers::{climb, expect_layer, layers};
use crate::grammar::expressions::operand::prefixed;
use parser_events::message::Message;
use parser_input::syntax_kind::SyntaxKind;
use rust_productions::condition::Condition;
use rust_productions::grammar::expressions::{at_expression, at_operation, at_range_operand};
use rust_productions::grammar::operators::{
    Operator, RangeMark, current_op, present_mark, range_mark, take_mark, take_operator,
};
use rust_productions::marker::Marker;
use rust_productions::parser::Parser;

pub(crate) mod atom;
pub(crate) mod blocks;
pub(crate) mod closures;
pub(crate) mod control;
pub(crate) mod layers;
pub(crate) mod match_arm;
pub(crate) mod operand;

/// The operators that an expression may have outside of brackets.
#[derive(Clone, Copy)]
pub(crate) enum Level {
    Comparison,
    Disjunction,
    Expression,
    Operation,
    Prefixed,
}

/// Parses an expression with operators up to `level`; emits an error if there is none.
// a + b
#[cycle(grammar)]
pub(crate) fn expect_expression(p: &mut Parser<'_>, level: Level, condition: Condition)
    ensures reads { Reads condition (Want (Call (level_of level)) ExpectedExpression) p.old p.new }
    ensures asks { Asks 20 p.old p.new }
{
    match level {
        Level::Comparison => expect_layer(p, 8, condition),
        Level::Disjunction => expect_layer(p, 10, condition),
        Level::Expression => expect_any(p, condition),
        Level::Operation => expect_operation(p, condition),
        Level::Prefixed => expect_layer(p, 0, condition),
    }
}

/// Parses an expression; emits an error if there is none.
// a + b
#[cycle(grammar)]
fn expect_any(p: &mut Parser<'_>, condition: Condition)
    ensures reads { Reads condition (Expression !) p.old p.new }
    ensures asks { Asks 19 p.old p.new }
{
    if at_expression(p, condition) {
        expression(p, condition);
        return;
    }
    p.error(Message::ExpectedExpression);
}

/// Parses an operation; emits an error if there is none.
// a = b
#[cycle(grammar)]
fn expect_operation(p: &mut Parser<'_>, condition: Condition)
    ensures reads { Reads condition (Operation !) p.old p.new }
    ensures asks { Asks 19 p.old p.new }
{
    if at_operation(p, condition) {
        operation(p, condition);
        return;
    }
    p.error(Message::ExpectedExpression);
}

/// Parses an operation in condition mode; emits an error if there is none.
// a == b
#[cycle(grammar)]
pub(crate) fn expect_condition(p: &mut Parser<'_>)
    ensures reads { (c : Condition) → Reads c (rows.condition !) p.old p.new }
    ensures asks { Asks 20 p.old p.new }
{
    expect_expression(p, Level::Operation, Condition::On);
}

/// Parses an expression.
// a + b * c
#[cycle(grammar)]
pub fn expression(p: &mut Parser<'_>, condition: Condition)
    requires begins { Saw condition (looks rules.expression) p.old true }
    requires some { 1 ≤ tokens p.old }
    ensures gives { Gives rules.expression condition p.old p.new }
    ensures takes { Takes 2840 p.old p.new }
{
    operation(p, condition);
}

/// Parses an operation: an operand with all operators after it, a range, or an assignment.
// a = b..c
#[cycle(grammar)]
pub(crate) fn operation(p: &mut Parser<'_>, condition: Condition)
    requires begins { Saw condition (looks rules.operation) p.old true }
    requires some { 1 ≤ tokens p.old }
    ensures gives { Gives rules.operation condition p.old p.new }
    ensures takes { Takes 2840 p.old p.new }
{
    match range_mark(p) {
        Some(mark) => range(p, mark, condition),
        None => operands(p, condition),
    }
}

/// Parses an operation that starts with an operand.
// a + b
#[inline(never)]
#[cycle(grammar)]
fn operands(p: &mut Parser<'_>, condition: Condition)
    requires unmarked { IsMark None p.old }
    requires begins { StartsIn condition (looks rules.prefixed) p.old }
    ensures gives { Gives rules.operation condition p.old p.new }
    ensures takes { Takes 2843 p.old p.new }
{
    let frame = p.start();
    prefixed(p, condition);
    let frame = climb(p, frame, 10, condition);
    let frame = operation_tail(p, frame, condition);
    frame.abandon(p);
}

/// Parses an operation that starts with a range operator.
// ..a
#[cycle(grammar)]
fn range(p: &mut Parser<'_>, mark: RangeMark, condition: Condition)
    requires marked { IsMark (Some mark) p.old }
    ensures gives { Gives rules.operation condition p.old p.new }
    ensures takes { Takes 4060 p.old p.new }
{
    let frame = p.start();
    let range = p.start();
    let more = range_end(p, mark, condition);
    range.complete(p, SyntaxKind::RANGE_EXPR);
    if !more {
        frame.abandon(p);
        return;
    }
    let frame = operation_tail(p, frame, condition);
    frame.abandon(p);
}

/// Parses a range without a start, as an operand.
// ..a
#[cycle(grammar)]
pub(crate) fn open_range(p: &mut Parser<'_>, condition: Condition)
    requires begins { Starts rows.mark_begins p.old }
    ensures reads { Reads condition (RANGE_EXPR ⟨ rows.open_range ⟩) p.old p.new }
    ensures takes { Takes 4060 p.old p.new }
{
    let range = p.start();
    let mark = present_mark(p);
    range_end(p, mark, condition);
    range.complete(p, SyntaxKind::RANGE_EXPR);
}

/// Parses a range operator and its optional end. Returns `true` if there is an end.
// ..=a
#[cycle(grammar)]
fn range_end(p: &mut Parser<'_>, mark: RangeMark, condition: Condition) -> bool
    requires marked { IsMark (Some mark) p.old }
    ensures ends { EndsRange condition (spelling_of mark) result p.old p.new }
    ensures keeps { Keeps p.old p.new }
    ensures takes { Takes 4070 p.old p.new }
{
    take_mark(p, mark);
    if at_range_operand(p, condition) {
        layers(p, 10, condition);
        return true;
    }
    false
}

/// Parses the operators of all layers after an operand, and what follows those.
// * a + b
#[cycle(grammar)]
pub(crate) fn after_operand(p: &mut Parser<'_>, frame: Marker, condition: Condition) -> Marker
    requires innermost { IsInnermost frame p.old.nodes }
    ensures reads { Reads condition rows.after_operand p.old p.new }
    ensures asks { AsksIn result 11 p.old p.new }
{
    let frame = climb(p, frame, 10, condition);
    operation_tail(p, frame, condition)
}

/// Parses what follows an operand and its operators: ranges, operands after `|>`, an assignment.
// ..b = c
#[inline(never)]
#[cycle(grammar)]
pub(crate) fn operation_tail(p: &mut Parser<'_>, frame: Marker, condition: Condition) -> Marker
    requires innermost { IsInnermost frame p.old.nodes }
    ensures reads { Reads condition (more rules.operation_tail) p.old p.new }
    ensures asks { AsksIn result 7 p.old p.new }
{
    let mut frame = frame;
    let mut mark = range_mark(p);
    'ranges: while let Some(found) = mark {
        let more = range_end(p, found, condition);
        frame = frame.wrap(p, SyntaxKind::RANGE_EXPR);
        if !more {
            return frame;
        }
        mark = range_mark(p);
    }
    pipe_tail(p, frame, condition)
}

/// Parses the operands after `|>`, and an assignment after those.
// a |> f() |> g() = b
#[inline(never)]
#[cycle(grammar)]
fn pipe_tail(p: &mut Parser<'_>, frame: Marker, condition: Condition) -> Marker
    requires innermost { IsInnermost frame p.old.nodes }
    ensures reads { Reads condition (more rules.pipe_tail) p.old p.new }
    ensures asks { AsksIn result 4 p.old p.new }
{
    let mut frame = frame;
    let mut operator = current_op(p);
    'pipes: while operator.height == 11 {
        take_operator(p, operator);
        expect_expression(p, Level::Disjunction, condition);
        frame = frame.wrap(p, SyntaxKind::BIN_EXPR);
        operator = current_op(p);
    }
    opt_assignment(p, frame, operator, condition)
}

/// Parses an optional assignment operator and its right operand. `operator` is the next operator.
// = b
#[cycle(grammar)]
fn opt_assignment(
    p: &mut Parser<'_>,
    frame: Marker,
    operator: Operator,
    condition: Condition,
) -> Marker
    requires next { IsNext operator p.old }
    requires innermost { IsInnermost frame p.old.nodes }
    ensures reads { Reads condition rows.opt_assignment p.old p.new }
    ensures asks { AsksIn result 0 p.old p.new }
{
    if operator.height != 12 {
        return frame;
    }
    take_operator(p, operator);
    expect_operation(p, condition);
    frame.wrap(p, SyntaxKind::BIN_EXPR)
}
