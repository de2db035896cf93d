//! Expressions without an operator.

ghost use Rattle.std.specs.Prelude.{◌≤◌, false};
ghost use Rattle.parser_input.specs.Kinds.{LET_KW, RETURN_EXPR};
ghost use Rattle.parser_events.specs.Stack.{IsInnermost};
ghost use Rattle.rust_grammar.specs.Notation.{◌▸◌, ◌⟨◌⟩, wide};
ghost use Rattle.rust_grammar.specs.Rule as rules;
ghost use Rattle.rust_grammar.specs.Rule.{Kind, One};
ghost use Rattle.rust_grammar.specs.Whole.{rule};
ghost use Rattle.rust_grammar.specs.Words.{'return'};
ghost use Rattle.rust_grammar.specs.Expressions as rows;
ghost use Rattle.rust_productions.specs.Looks.{tokens, Takes, Asks, TakesIn, AsksIn};
ghost use Rattle.rust_productions.specs.Reads.{looks, Reads, Saw};
ghost use Rattle.rust_productions.specs.Starts.{Starts, StartsIn};
ghost use Rattle.rust_productions.specs.declared.condition.Condition.{Condition};

use crate::grammar::expressions::closures::{closure_expr, closure_with_words, move_closure};
use crate::grammar::expressions::control::block_like;
use crate::grammar::expressions::{Level, expect_expression, expression, operation};
use crate::grammar::lists::{Element, ListKind, list, rest_of_list, tuple_tail};
use crate::grammar::parts::{Part, expect_part};
use crate::grammar::paths::{Mode, path_with_args, qualified_path};
use parser_input::syntax_kind::SyntaxKind;
use rust_productions::condition::Condition;
use rust_productions::grammar::expression_words::{at_new_atom, macro_call, opt_jump_label};
use rust_productions::grammar::expressions::{
    at_block_like, at_body, at_expression, at_operation, continue_expr,
};
use rust_productions::grammar::names::{at_literal, literal};
use rust_productions::grammar::types::word_type;
use rust_productions::marker::Marker;
use rust_productions::parser::Parser;

/// Parses an expression without operators, within `frame`, which the caller abandons.
// (a)
#[inline(never)]
#[cycle(grammar)]
pub(crate) fn inside(p: &mut Parser<'_>, frame: Marker, condition: Condition) -> Marker
    requires begins { StartsIn condition (looks rules.atom) p.old }
    requires innermost { IsInnermost frame p.old.nodes }
    ensures reads { Reads condition (rule rules.atom) p.old p.new }
    ensures takes { TakesIn result 2890 p.old p.new }
{
    match p.current() {
        SyntaxKind::L_PAREN => paren_expr(p, frame),
        SyntaxKind::L_BRACK => {
            array_expr(p);
            frame
        }
        SyntaxKind::RETURN_KW => {
            return_expr(p, condition);
            frame
        }
        SyntaxKind::BREAK_KW => {
            break_expr(p, condition);
            frame
        }
        SyntaxKind::CONTINUE_KW => {
            continue_expr(p);
            frame
        }
        SyntaxKind::PIPE => {
            closure_expr(p, condition);
            frame
        }
        SyntaxKind::MOVE_KW => {
            move_closure(p, condition);
            frame
        }
        SyntaxKind::LET_KW => {
            let_expr(p);
            frame
        }
        _ => {
            if at_literal(p) {
                literal(p);
                return frame;
            }
            if at_block_like(p) {
                block_like(p);
                return frame;
            }
            if at_new_atom(p) {
                return new_atom(p, frame, condition);
            }
            path_expr(p, frame, condition)
        }
    }
}

/// Parses a path expression, a macro call or a record expression.
// S { a: 1 }
#[inline(never)]
#[cycle(grammar)]
fn path_expr(p: &mut Parser<'_>, frame: Marker, condition: Condition) -> Marker
    requires begins { Starts (looks rules.path) p.old }
    requires innermost { IsInnermost frame p.old.nodes }
    ensures reads { Reads condition rows.path_expr p.old p.new }
    ensures takes { TakesIn result 3990 p.old p.new }
{
    path_with_args(p, Mode::Expr);
    after_path(p, frame, condition)
}

/// Parses what may follow the path of an expression: the rest of a macro call, or record fields.
// { a: 1 }
#[cycle(grammar)]
pub(crate) fn after_path(p: &mut Parser<'_>, frame: Marker, condition: Condition) -> Marker
    requires innermost { IsInnermost frame p.old.nodes }
    ensures reads { Reads condition rows.after_path p.old p.new }
    ensures asks { AsksIn result 4 p.old p.new }
{
    if p.at_pair(SyntaxKind::BANG, SyntaxKind::EQ) {
        return frame.wrap(p, SyntaxKind::PATH_EXPR);
    }
    if p.at(SyntaxKind::BANG) {
        macro_call(p);
        let frame = frame.wrap(p, SyntaxKind::MACRO_CALL);
        return frame.wrap(p, SyntaxKind::MACRO_EXPR);
    }
    match condition {
        Condition::On => frame.wrap(p, SyntaxKind::PATH_EXPR),
        Condition::Off => {
            if p.at(SyntaxKind::L_CURLY) {
                list(p, ListKind::FieldValues);
                return frame.wrap(p, SyntaxKind::RECORD_EXPR);
            }
            frame.wrap(p, SyntaxKind::PATH_EXPR)
        }
    }
}

/// Parses a tuple expression or a parenthesized expression.
// (a, b)
#[cycle(grammar)]
fn paren_expr(p: &mut Parser<'_>, frame: Marker) -> Marker
    requires some { 1 ≤ tokens p.old }
    requires innermost { IsInnermost frame p.old.nodes }
    ensures reads { (c : Condition) → Reads c rows.tuple_or_paren p.old p.new }
    ensures takes { TakesIn result 3300 p.old p.new }
{
    p.take(SyntaxKind::L_PAREN);
    after_paren(p, frame)
}

/// Parses a tuple expression or a parenthesized expression after its `(`.
// a, b)
#[cycle(grammar)]
fn after_paren(p: &mut Parser<'_>, frame: Marker) -> Marker
    requires innermost { IsInnermost frame p.old.nodes }
    ensures reads { (c : Condition) → Reads c rows.after_l_paren p.old p.new }
    ensures asks { AsksIn result 780 p.old p.new }
{
    if p.at(SyntaxKind::R_PAREN) {
        p.take(SyntaxKind::R_PAREN);
        return frame.wrap(p, SyntaxKind::TUPLE_EXPR);
    }
    expect_expression(p, Level::Expression, Condition::Off);
    tuple_tail(
        p,
        frame,
        SyntaxKind::TUPLE_EXPR,
        Element::Expression,
        SyntaxKind::PAREN_EXPR,
    )
}

/// Parses an array expression.
// [a, b]
#[cycle(grammar)]
fn array_expr(p: &mut Parser<'_>)
    requires some { 1 ≤ tokens p.old }
    ensures reads { (c : Condition) → Reads c rows.array_expr p.old p.new }
    ensures takes { Takes 3200 p.old p.new }
{
    let node = p.start();
    p.take(SyntaxKind::L_BRACK);
    array_elements(p);
    node.complete(p, SyntaxKind::ARRAY_EXPR);
}

/// Parses an array expression after its `[`.
// a, b]
#[cycle(grammar)]
fn array_elements(p: &mut Parser<'_>)
    ensures reads { (c : Condition) → Reads c rows.array_elements p.old p.new }
    ensures asks { Asks 780 p.old p.new }
{
    if at_expression(p, Condition::Off) {
        expression(p, Condition::Off);
        after_element(p);
        return;
    }
    p.expect(SyntaxKind::R_BRACK);
}

/// Parses an array expression after its first element.
// ; 4]
#[cycle(grammar)]
fn after_element(p: &mut Parser<'_>)
    ensures reads { (c : Condition) → Reads c rows.after_element p.old p.new }
    ensures asks { Asks 3 p.old p.new }
{
    if p.at(SyntaxKind::SEMICOLON) {
        p.take(SyntaxKind::SEMICOLON);
        expect_expression(p, Level::Expression, Condition::Off);
        p.expect(SyntaxKind::R_BRACK);
        return;
    }
    if p.at(SyntaxKind::COMMA) {
        p.take(SyntaxKind::COMMA);
        rest_of_list(
            p,
            SyntaxKind::ARRAY_EXPR,
            Element::Expression,
            SyntaxKind::R_BRACK,
        );
        return;
    }
    p.expect(SyntaxKind::R_BRACK);
}

/// Parses a `return` expression.
// return a
#[cycle(grammar)]
fn return_expr(p: &mut Parser<'_>, condition: Condition)
    requires some { 1 ≤ tokens p.old }
    ensures reads { Reads condition (RETURN_EXPR ⟨ One 'return' ▸ rows.value ⟩) p.old p.new }
    ensures takes { Takes 3300 p.old p.new }
{
    let node = p.start();
    p.take(SyntaxKind::RETURN_KW);
    opt_value(p, condition);
    node.complete(p, SyntaxKind::RETURN_EXPR);
}

/// Parses a `break` expression.
// break 'a b
#[cycle(grammar)]
fn break_expr(p: &mut Parser<'_>, condition: Condition)
    requires some { 1 ≤ tokens p.old }
    ensures reads { Reads condition rows.break_expr p.old p.new }
    ensures takes { Takes 3300 p.old p.new }
{
    let node = p.start();
    p.take(SyntaxKind::BREAK_KW);
    opt_jump_label(p);
    opt_value(p, condition);
    node.complete(p, SyntaxKind::BREAK_EXPR);
}

/// Parses the optional value of a `return` or `break` expression.
// a
#[cycle(grammar)]
fn opt_value(p: &mut Parser<'_>, condition: Condition)
    ensures reads { Reads condition rows.value p.old p.new }
    ensures asks { Asks 780 p.old p.new }
{
    if at_body(p, condition) {
        return;
    }
    if at_operation(p, condition) {
        operation(p, condition);
    }
}

/// Parses a `let` as an expression.
// let Some(a) = b
#[cycle(grammar)]
fn let_expr(p: &mut Parser<'_>)
    requires some { 1 ≤ tokens p.old }
    ensures reads { (c : Condition) → Reads c rows.let_anywhere p.old p.new }
    ensures takes { Takes 3300 p.old p.new }
{
    let node = p.start();
    p.take(SyntaxKind::LET_KW);
    expect_part(p, Part::Pattern);
    p.expect(SyntaxKind::EQ);
    expect_expression(p, Level::Comparison, Condition::On);
    node.complete(p, SyntaxKind::LET_EXPR);
}

/// Parses an expression without operators that only the whole language has, within `frame`. `let`
/// is read elsewhere.
// <T as A>::b
#[inline(never)]
#[cycle(grammar)]
fn new_atom(p: &mut Parser<'_>, frame: Marker, condition: Condition) -> Marker
    requires begins { Starts (wide rows.new_atom_begins) p.old }
    requires other { (c : Condition) → Saw c (Kind 0 LET_KW) p.old false }
    requires innermost { IsInnermost frame p.old.nodes }
    ensures reads { Reads condition rows.new_atom p.old p.new }
    ensures takes { TakesIn result 2900 p.old p.new }
{
    match p.current() {
        SyntaxKind::L_ANGLE => {
            let frame = qualified_path(p, frame, Mode::Expr);
            after_path(p, frame, condition)
        }
        SyntaxKind::UNDERSCORE => {
            word_type(p, SyntaxKind::UNDERSCORE, SyntaxKind::UNDERSCORE_EXPR);
            frame
        }
        _ => {
            closure_with_words(p, condition);
            frame
        }
    }
}
