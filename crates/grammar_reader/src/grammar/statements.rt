//! Statements.

ghost use Rattle.std.specs.Prelude.{◌≤◌, ◌<◌, ◌+◌, true};
ghost use Rattle.parser_events.specs.Stack.{IsInnermost};
ghost use Rattle.rust_grammar.specs.Calls.{BlockLike};
ghost use Rattle.rust_grammar.specs.Notation.{◌▸◌, ⁅◌⁆, ◌before◌, lead, more, wide};
ghost use Rattle.rust_grammar.specs.Rule as rules;
ghost use Rattle.rust_grammar.specs.Shared.{attributed};
ghost use Rattle.rust_grammar.specs.Statements as rows;
ghost use Rattle.grammar_reader.specs.Told.{after_block_of, listing_of};
ghost use Rattle.rust_productions.specs.Looks.{tokens, spent, Takes, Asks, AsksIn};
ghost use Rattle.rust_productions.specs.Reads.{looks, FromStart, CompletesWhere, Gives, Reads, Saw};
ghost use Rattle.rust_productions.specs.Starts.{Starts, StartsIn};
ghost use Rattle.rust_productions.specs.declared.condition.Condition.{Condition};
ghost use Rattle.rust_productions.specs.declared.condition.Condition.TheVariants.{Off};

use crate::grammar::attributes::attribute;
use crate::grammar::expressions::atom::after_path;
use crate::grammar::expressions::closures::opt_type;
use crate::grammar::expressions::control::block_like;
use crate::grammar::expressions::operand::{extended_operand, postfix, postfixes};
use crate::grammar::expressions::{after_operand, expression};
use crate::grammar::items::consts::opt_value;
use crate::grammar::items::{attributes, body, item};
use crate::grammar::list_end::{ListEnd, at_end_of};
use crate::grammar::parts::{Part, expect_part};
use crate::grammar::paths::{Mode, path_with_args};
use parser_events::message::Message;
use parser_input::syntax_kind::SyntaxKind;
use rust_productions::condition::Condition;
use rust_productions::grammar::expressions::{at_block_like, at_expression, at_operand};
use rust_productions::grammar::match_arms::{at_braced_macro, at_long_path};
use rust_productions::grammar::statements::{
    at_inner_attribute, at_item_after_attributes, at_more, at_new_statement, at_profile_item,
    at_super_let,
};
use rust_productions::grammar::token_trees::token_tree;
use rust_productions::grammar::visibility::opt_visibility;
use rust_productions::marker::Marker;
use rust_productions::parser::Parser;

/// Parses a statement of a list.
// let a = 1;
#[cycle(grammar)]
pub(crate) fn statement(p: &mut Parser<'_>, end: ListEnd)
    requires some { 1 ≤ tokens p.old }
    ensures gives { Gives (listing_of end).one Off p.old p.new }
    ensures asks { Asks 900 p.old p.new }
    ensures pays { tokens p.new < tokens p.old → spent p.new + 1500 ≤ spent p.old }
{
    match p.current() {
        SyntaxKind::SEMICOLON => p.take(SyntaxKind::SEMICOLON),
        SyntaxKind::DEFER_KW => defer_stmt(p),
        SyntaxKind::LET_KW => let_stmt(p),
        _ => {
            if at_inner_attribute(p) {
                attribute(p);
                return;
            }
            if at_new_statement(p) {
                new_statement(p, end);
                return;
            }
            if at_profile_item(p) {
                item(p, Condition::Off);
                return;
            }
            expression_statement(p, end);
        }
    }
}

/// Parses a statement that only the whole language has, or an item there.
// a::b! { c } d();
#[inline(never)]
#[cycle(grammar)]
fn new_statement(p: &mut Parser<'_>, end: ListEnd)
    requires begins { Starts (wide rows.new_statement_begins) p.old }
    ensures from_start { FromStart Off (rows.new_statement (listing_of end)) p.old p.new }
    ensures takes { Takes 2880 p.old p.new }
{
    if p.at(SyntaxKind::POUND) {
        attributed_statement(p, end);
        return;
    }
    if at_long_path(p) {
        long_path_statement(p, end);
        return;
    }
    if at_super_let(p) {
        super_let(p);
        return;
    }
    item(p, Condition::Off);
}

/// Parses a statement with the attributes before it.
// #[a] b.c();
#[cycle(grammar)]
fn attributed_statement(p: &mut Parser<'_>, end: ListEnd)
    requires some { 1 ≤ tokens p.old }
    ensures from_start { FromStart Off
        (attributed (rows.after_attributes (listing_of end))) p.old p.new }
    ensures takes { Takes 3900 p.old p.new }
{
    let frame = p.start();
    attribute(p);
    attributes(p);
    after_attributes(p, frame, end);
}

/// Parses a statement after its attributes. They become the first children of a `let` or an item,
/// and of the outermost node of an expression's first operand.
// b.c();
#[cycle(grammar)]
fn after_attributes(p: &mut Parser<'_>, frame: Marker, end: ListEnd)
    requires innermost { IsInnermost frame p.old.nodes }
    ensures completes { CompletesWhere true Off
        (rows.after_attributes (listing_of end)) p.old p.new }
    ensures asks { Asks 90 p.old p.new }
{
    if p.at(SyntaxKind::LET_KW) {
        let_rest(p);
        frame.complete(p, SyntaxKind::LET_STMT);
        return;
    }
    if at_item_after_attributes(p) {
        opt_visibility(p);
        body(p, frame, true, Condition::Off);
        return;
    }
    if at_block_like(p) {
        extended_block(p);
        let rest = after_block(p, frame, end);
        rest.abandon(p);
        return;
    }
    if at_operand(p, Condition::Off) {
        extended_operand(p, Condition::Off);
        let frame = operators_and_end(p, frame, end);
        frame.abandon(p);
        return;
    }
    body(p, frame, true, Condition::Off);
}

/// Parses an expression that ends in a block. What the innermost node has so far becomes its first
/// children.
// if a { b }
#[cycle(grammar)]
fn extended_block(p: &mut Parser<'_>)
    requires begins { (c : Condition) → Saw c (looks rules.block_like) p.old true }
    requires some { 1 ≤ tokens p.old }
    ensures reads { (c : Condition) → Reads c (lead BlockLike) p.old p.new }
    ensures takes { Takes 2890 p.old p.new }
{
    let inner = p.start();
    block_like(p);
    inner.extend_left(p);
}

/// Parses the operators after the first operand of a statement, and the statement's end.
// + c;
#[cycle(grammar)]
fn operators_and_end(p: &mut Parser<'_>, frame: Marker, end: ListEnd) -> Marker
    requires innermost { IsInnermost frame p.old.nodes }
    ensures reads { Reads Off (rows.operators_and_end (listing_of end)) p.old p.new }
    ensures asks { AsksIn result 14 p.old p.new }
{
    let frame = after_operand(p, frame, Condition::Off);
    statement_end(p, frame, end)
}

/// Parses a statement that starts with a path of several segments.
// a::b! { c }
#[cycle(grammar)]
fn long_path_statement(p: &mut Parser<'_>, end: ListEnd)
    requires begins { (c : Condition) → Saw c (looks rules.path) p.old true }
    requires some { 1 ≤ tokens p.old }
    ensures from_start { FromStart Off (rows.long_path_statement (listing_of end)) p.old p.new }
    ensures takes { Takes 3900 p.old p.new }
{
    let frame = p.start();
    path_with_args(p, Mode::Expr);
    let frame = path_tail(p, frame, end);
    frame.abandon(p);
}

/// Parses what follows the path of a statement: a macro call in braces, or operators and a `;`.
// ! { c }
#[cycle(grammar)]
fn path_tail(p: &mut Parser<'_>, frame: Marker, end: ListEnd) -> Marker
    requires innermost { IsInnermost frame p.old.nodes }
    ensures reads { Reads Off (rows.path_tail (listing_of end)) p.old p.new }
    ensures asks { AsksIn result 24 p.old p.new }
{
    if at_braced_macro(p) {
        p.take(SyntaxKind::BANG);
        token_tree(p);
        let frame = frame.wrap(p, SyntaxKind::MACRO_CALL);
        let frame = frame.wrap(p, SyntaxKind::MACRO_EXPR);
        return after_block(p, frame, end);
    }
    let frame = after_path(p, frame, Condition::Off);
    let frame = postfixes(p, frame);
    operators_and_end(p, frame, end)
}

/// Parses a `let` statement after `super`.
// super let a = 1;
#[cycle(grammar)]
fn super_let(p: &mut Parser<'_>)
    requires some { 2 ≤ tokens p.old }
    ensures reads { Reads Off rows.super_let p.old p.new }
    ensures takes { Takes 8000 p.old p.new }
{
    let node = p.start();
    p.take(SyntaxKind::SUPER_KW);
    let_rest(p);
    node.complete(p, SyntaxKind::LET_STMT);
}

/// Parses a `defer` statement. The current token is `defer`.
// defer { close(file) }
#[cycle(grammar)]
fn defer_stmt(p: &mut Parser<'_>)
    requires some { 1 ≤ tokens p.old }
    ensures reads { (c : Condition) → Reads c rows.defer_stmt p.old p.new }
    ensures takes { Takes 4090 p.old p.new }
{
    let node = p.start();
    p.take(SyntaxKind::DEFER_KW);
    expect_part(p, Part::Block);
    node.complete(p, SyntaxKind::DEFER_STMT);
}

/// Parses a `let` statement.
// let Some(a): Option<u8> = b else { return };
#[cycle(grammar)]
fn let_stmt(p: &mut Parser<'_>)
    requires some { 1 ≤ tokens p.old }
    ensures reads { Reads Off rows.let_stmt p.old p.new }
    ensures takes { Takes 4000 p.old p.new }
{
    let node = p.start();
    let_rest(p);
    node.complete(p, SyntaxKind::LET_STMT);
}

/// Parses a `let` statement, within its node. The current token is `let`.
// let Some(a): Option<u8> = b else { return };
#[cycle(grammar)]
fn let_rest(p: &mut Parser<'_>)
    requires some { 1 ≤ tokens p.old }
    ensures reads { Reads Off rows.let_rest p.old p.new }
    ensures takes { Takes 4000 p.old p.new }
{
    p.take(SyntaxKind::LET_KW);
    expect_part(p, Part::Pattern);
    opt_type(p, Condition::Off);
    opt_value(p, Condition::Off);
    opt_else(p);
    p.expect(SyntaxKind::SEMICOLON);
}

/// Parses the optional `else` branch of a `let` statement.
// else { return }
#[cycle(grammar)]
fn opt_else(p: &mut Parser<'_>)
    ensures reads { (c : Condition) → Reads c ⁅ rows.let_else ⁆ p.old p.new }
    ensures asks { Asks 1 p.old p.new }
{
    if p.at(SyntaxKind::ELSE_KW) {
        let_else(p);
    }
}

/// Parses the `else` branch of a `let` statement.
// else { return }
#[cycle(grammar)]
fn let_else(p: &mut Parser<'_>)
    requires some { 1 ≤ tokens p.old }
    ensures reads { (c : Condition) → Reads c rows.let_else p.old p.new }
    ensures takes { Takes 4090 p.old p.new }
{
    let node = p.start();
    p.take(SyntaxKind::ELSE_KW);
    expect_part(p, Part::Block);
    node.complete(p, SyntaxKind::LET_ELSE);
}

/// Parses an expression statement or the last expression of a list, or skips a token into an
/// error.
// f();
#[cycle(grammar)]
fn expression_statement(p: &mut Parser<'_>, end: ListEnd)
    requires some { 1 ≤ tokens p.old }
    ensures from_start { FromStart Off (rows.expression_statement (listing_of end)) p.old p.new }
    ensures asks { Asks 800 p.old p.new }
    ensures pays { tokens p.new < tokens p.old → spent p.new + 1550 ≤ spent p.old }
{
    if at_block_like(p) {
        block_statement(p, end);
        return;
    }
    if at_expression(p, Condition::Off) {
        ended_expression(p, end);
        return;
    }
    p.skip(Message::ExpectedStatement);
}

/// Parses a statement that starts with an expression that ends in a block.
// if a { b }.c();
#[inline(never)]
#[cycle(grammar)]
fn block_statement(p: &mut Parser<'_>, end: ListEnd)
    requires begins { (c : Condition) → Saw c (looks rules.block_like) p.old true }
    requires some { 1 ≤ tokens p.old }
    ensures from_start { FromStart Off (BlockLike ▸ after_block_of end) p.old p.new }
    ensures takes { Takes 2880 p.old p.new }
{
    let frame = p.start();
    block_like(p);
    let frame = after_block(p, frame, end);
    frame.abandon(p);
}

/// Parses what follows an expression that ends in a block: postfix operators, or a `;`.
// .c();
#[cycle(grammar)]
fn after_block(p: &mut Parser<'_>, frame: Marker, end: ListEnd) -> Marker
    requires innermost { IsInnermost frame p.old.nodes }
    ensures reads { Reads Off (after_block_of end) p.old p.new }
    ensures asks { AsksIn result 6 p.old p.new }
{
    if at_more(p) {
        let frame = postfix(p, frame);
        let frame = postfixes(p, frame);
        let frame = opt_operators(p, frame);
        return statement_end(p, frame, end);
    }
    if p.at(SyntaxKind::SEMICOLON) {
        p.take(SyntaxKind::SEMICOLON);
        return frame.wrap(p, SyntaxKind::EXPR_STMT);
    }
    if at_end_of(p, end) {
        return frame;
    }
    frame.wrap(p, SyntaxKind::EXPR_STMT)
}

/// Parses the operators after an expression that ends in a block and continues, in the whole language.
// + d
#[cycle(grammar)]
fn opt_operators(p: &mut Parser<'_>, frame: Marker) -> Marker
    requires innermost { IsInnermost frame p.old.nodes }
    ensures reads { Reads Off rows.further_operators p.old p.new }
    ensures asks { AsksIn result 11 p.old p.new }
{
    if p.at_whole() {
        return after_operand(p, frame, Condition::Off);
    }
    frame
}

/// Parses an expression and the end of its statement.
// f();
#[inline(never)]
#[cycle(grammar)]
fn ended_expression(p: &mut Parser<'_>, end: ListEnd)
    requires begins { StartsIn Off (looks rules.expression) p.old }
    ensures from_start { FromStart Off (rows.ended_expression (listing_of end)) p.old p.new }
    ensures asks { Asks 604 p.old p.new }
    ensures pays { tokens p.new < tokens p.old → spent p.new + 1790 ≤ spent p.old }
{
    let frame = p.start();
    expression(p, Condition::Off);
    let frame = statement_end(p, frame, end);
    frame.abandon(p);
}

/// Parses the `;` of an expression statement, which the last expression of a list does not need.
// ;
fn statement_end(p: &mut Parser<'_>, frame: Marker, end: ListEnd) -> Marker
    requires { IsInnermost frame p.old.nodes }
    ensures reads { (c : Condition) → Reads c (more (listing_of end).end) p.old p.new }
    ensures asks { AsksIn result 3 p.old p.new }
    ensures pays { tokens p.new < tokens p.old → spent p.new + 4000 ≤ spent p.old }
{
    if p.at(SyntaxKind::SEMICOLON) {
        p.take(SyntaxKind::SEMICOLON);
        return frame.wrap(p, SyntaxKind::EXPR_STMT);
    }
    if at_end_of(p, end) {
        return frame;
    }
    p.error(Message::Expected(SyntaxKind::SEMICOLON));
    frame.wrap(p, SyntaxKind::EXPR_STMT)
}
