//! Expressions that end in a block.

ghost use Rattle.std.specs.Prelude.{◌≡◌, ◌≤◌, IsTrue, true, false};
ghost use Rattle.rust_grammar.specs.Notation.{⁅◌⁆, ◌*, ◌! };
ghost use Rattle.rust_grammar.specs.Rule as rules;
ghost use Rattle.rust_grammar.specs.Expressions as rows;
ghost use Rattle.rust_productions.specs.Looks.{tokens, Takes, Asks};
ghost use Rattle.rust_productions.specs.Reads.{looks, FromStart, Completes, Gives, Reads, Saw};
ghost use Rattle.rust_productions.specs.declared.condition.Condition.{Condition};
ghost use Rattle.rust_productions.specs.declared.condition.Condition.TheVariants.{Off};
ghost use Rattle.rust_grammar.specs.Notation.{wide};
ghost use Rattle.parser_events.specs.Stack.{IsInnermost};
ghost use Rattle.rust_productions.specs.Turns.{TakesTurn};
ghost use Rattle.rust_productions.specs.Starts.{Starts};
ghost use Rattle.rust_productions.specs.Moves.{Keeps};

use crate::grammar::attributes::attribute;
use crate::grammar::expressions::blocks::block;
use crate::grammar::expressions::expect_condition;
use crate::grammar::expressions::match_arm::match_arm;
use crate::grammar::parts::{Part, expect_part};
use parser_events::message::Message;
use parser_input::syntax_kind::SyntaxKind;
use rust_productions::condition::Condition;
use rust_productions::grammar::expression_words::{at_new_block, block_words, label, macro_block};
use rust_productions::grammar::lists::at_list_end;
use rust_productions::grammar::match_arms::{at_match_arm, at_match_attribute};
use rust_productions::marker::Marker;
use rust_productions::parser::Parser;

/// Parses an expression that ends in a block.
// if a { b }
#[cycle(grammar)]
pub(crate) fn block_like(p: &mut Parser<'_>)
    requires begins { (c : Condition) → Saw c (looks rules.block_like) p.old true }
    requires some { 1 ≤ tokens p.old }
    ensures gives { (c : Condition) → Gives rules.block_like c p.old p.new }
    ensures takes { Takes 2910 p.old p.new }
{
    match p.current() {
        SyntaxKind::L_CURLY => block(p),
        SyntaxKind::UNSAFE_KW => unsafe_block(p),
        SyntaxKind::IF_KW => if_expr(p),
        SyntaxKind::WHILE_KW => while_expr(p),
        SyntaxKind::LOOP_KW => loop_expr(p),
        SyntaxKind::FOR_KW => for_expr(p),
        SyntaxKind::MATCH_KW => match_expr(p),
        _ => {
            if at_new_block(p) {
                new_block(p);
                return;
            }
            macro_block(p);
        }
    }
}

/// Parses an `unsafe` block.
// unsafe { f() }
#[cycle(grammar)]
fn unsafe_block(p: &mut Parser<'_>)
    requires some { 1 ≤ tokens p.old }
    ensures reads { (c : Condition) → Reads c rows.unsafe_block p.old p.new }
    ensures takes { Takes 4090 p.old p.new }
{
    let node = p.start();
    p.take(SyntaxKind::UNSAFE_KW);
    expect_part(p, Part::StatementList);
    node.complete(p, SyntaxKind::BLOCK_EXPR);
}

/// Parses an `if` expression.
// if a { b } else { c }
#[cycle(grammar)]
pub(crate) fn if_expr(p: &mut Parser<'_>)
    requires some { 1 ≤ tokens p.old }
    ensures gives { (c : Condition) → Gives rules.if_expr c p.old p.new }
    ensures takes { Takes 3300 p.old p.new }
{
    let node = p.start();
    p.take(SyntaxKind::IF_KW);
    expect_condition(p);
    expect_part(p, Part::Block);
    opt_else(p);
    node.complete(p, SyntaxKind::IF_EXPR);
}

/// Parses the optional `else` branch of an `if` expression.
// else { c }
#[cycle(grammar)]
fn opt_else(p: &mut Parser<'_>)
    ensures reads { (c : Condition) → Reads c ⁅ rows.else_branch ⁆ p.old p.new }
    ensures asks { Asks 1 p.old p.new }
{
    if p.at(SyntaxKind::ELSE_KW) {
        p.take(SyntaxKind::ELSE_KW);
        after_else(p);
    }
}

/// Parses an `else` branch after its keyword: an `if` expression or a block.
// if b { c }
#[cycle(grammar)]
fn after_else(p: &mut Parser<'_>)
    ensures reads { (c : Condition) → Reads c rows.if_or_block p.old p.new }
    ensures asks { Asks 2 p.old p.new }
{
    if p.at(SyntaxKind::IF_KW) {
        if_expr(p);
        return;
    }
    expect_part(p, Part::Block);
}

/// Parses a `while` loop.
// while a { b }
#[cycle(grammar)]
fn while_expr(p: &mut Parser<'_>)
    requires some { 1 ≤ tokens p.old }
    ensures reads { (c : Condition) → Reads c rows.while_expr p.old p.new }
    ensures takes { Takes 3300 p.old p.new }
{
    let node = p.start();
    while_rest(p);
    node.complete(p, SyntaxKind::WHILE_EXPR);
}

/// Parses a `while` loop, within its node.
// while a { b }
#[cycle(grammar)]
fn while_rest(p: &mut Parser<'_>)
    requires some { 1 ≤ tokens p.old }
    ensures reads { (c : Condition) → Reads c rows.while_rest p.old p.new }
    ensures takes { Takes 3300 p.old p.new }
{
    p.take(SyntaxKind::WHILE_KW);
    expect_condition(p);
    expect_part(p, Part::Block);
}

/// Parses a `loop` expression.
// loop { a }
#[cycle(grammar)]
fn loop_expr(p: &mut Parser<'_>)
    requires some { 1 ≤ tokens p.old }
    ensures reads { (c : Condition) → Reads c rows.loop_expr p.old p.new }
    ensures takes { Takes 4090 p.old p.new }
{
    let node = p.start();
    loop_rest(p);
    node.complete(p, SyntaxKind::LOOP_EXPR);
}

/// Parses a `loop` expression, within its node.
// loop { a }
#[cycle(grammar)]
fn loop_rest(p: &mut Parser<'_>)
    requires some { 1 ≤ tokens p.old }
    ensures reads { (c : Condition) → Reads c rows.loop_rest p.old p.new }
    ensures takes { Takes 4090 p.old p.new }
{
    p.take(SyntaxKind::LOOP_KW);
    expect_part(p, Part::Block);
}

/// Parses a `for` loop.
// for a in b { c }
#[cycle(grammar)]
fn for_expr(p: &mut Parser<'_>)
    requires some { 1 ≤ tokens p.old }
    ensures reads { (c : Condition) → Reads c rows.for_expr p.old p.new }
    ensures takes { Takes 3300 p.old p.new }
{
    let node = p.start();
    for_rest(p);
    node.complete(p, SyntaxKind::FOR_EXPR);
}

/// Parses a `for` loop, within its node.
// for a in b { c }
#[cycle(grammar)]
fn for_rest(p: &mut Parser<'_>)
    requires some { 1 ≤ tokens p.old }
    ensures reads { (c : Condition) → Reads c rows.for_rest p.old p.new }
    ensures takes { Takes 3300 p.old p.new }
{
    p.take(SyntaxKind::FOR_KW);
    expect_part(p, Part::Pattern);
    p.expect(SyntaxKind::IN_KW);
    expect_condition(p);
    expect_part(p, Part::Block);
}

/// Parses an expression that ends in a block and that only the whole language has: a loop or a
/// block with a label, or a block with words.
// 'a: loop { b }
#[cycle(grammar)]
fn new_block(p: &mut Parser<'_>)
    requires begins { Starts (wide rows.new_block_begins) p.old }
    ensures from_start { (c : Condition) → FromStart c rows.new_block p.old p.new }
    ensures takes { Takes 3200 p.old p.new }
{
    if p.at(SyntaxKind::LIFETIME_IDENT) {
        labelled(p);
        return;
    }
    block_with_words(p);
}

/// Parses a loop or a block with its label.
// 'a: loop { b }
#[cycle(grammar)]
fn labelled(p: &mut Parser<'_>)
    requires some { 1 ≤ tokens p.old }
    ensures from_start { (c : Condition) → FromStart c rows.labelled p.old p.new }
    ensures takes { Takes 4080 p.old p.new }
{
    let node = p.start();
    label(p);
    after_label(p, node);
}

/// Parses a loop or a block after its label, and completes its node.
// loop { b }
#[cycle(grammar)]
fn after_label(p: &mut Parser<'_>, node: Marker)
    requires innermost { IsInnermost node p.old.nodes }
    ensures completes { (c : Condition) → Completes c rows.after_label p.old p.new }
    ensures asks { Asks 2 p.old p.new }
{
    match p.current() {
        SyntaxKind::WHILE_KW => {
            while_rest(p);
            node.complete(p, SyntaxKind::WHILE_EXPR);
        }
        SyntaxKind::LOOP_KW => {
            loop_rest(p);
            node.complete(p, SyntaxKind::LOOP_EXPR);
        }
        SyntaxKind::FOR_KW => {
            for_rest(p);
            node.complete(p, SyntaxKind::FOR_EXPR);
        }
        _ => {
            expect_part(p, Part::StatementList);
            node.complete(p, SyntaxKind::BLOCK_EXPR);
        }
    }
}

/// Parses a block with the words before it.
// async move { a }
#[cycle(grammar)]
fn block_with_words(p: &mut Parser<'_>)
    requires some { 1 ≤ tokens p.old }
    ensures reads { (c : Condition) → Reads c rows.block_with_words p.old p.new }
    ensures takes { Takes 4070 p.old p.new }
{
    let node = p.start();
    block_words(p);
    expect_part(p, Part::StatementList);
    node.complete(p, SyntaxKind::BLOCK_EXPR);
}

/// Parses a `match` expression.
// match a { _ => b }
#[cycle(grammar)]
fn match_expr(p: &mut Parser<'_>)
    requires some { 1 ≤ tokens p.old }
    ensures reads { (c : Condition) → Reads c rows.match_expr p.old p.new }
    ensures takes { Takes 3300 p.old p.new }
{
    let node = p.start();
    p.take(SyntaxKind::MATCH_KW);
    expect_condition(p);
    expect_part(p, Part::MatchArms);
    node.complete(p, SyntaxKind::MATCH_EXPR);
}

/// Parses match arms in braces.
// { a => b, _ => c }
#[inline(never)]
#[cycle(grammar)]
pub(crate) fn match_arms(p: &mut Parser<'_>)
    requires some { 1 ≤ tokens p.old }
    ensures gives { (c : Condition) → Gives rules.match_arms c p.old p.new }
    ensures takes { Takes 3000 p.old p.new }
{
    let list = p.start();
    p.take(SyntaxKind::L_CURLY);
    arms(p);
    p.expect(SyntaxKind::R_CURLY);
    list.complete(p, SyntaxKind::MATCH_ARM_LIST);
}

/// Parses match arms up to the closing brace.
// a => b, _ => c
#[cycle(grammar)]
fn arms(p: &mut Parser<'_>)
    ensures reads { Reads Off (rows.arm_turn *) p.old p.new }
    ensures asks { Asks 1080 p.old p.new }
{
    'turns: while arm_turn(p) {}
}

/// Parses a match arm or an attribute of the `match`, or skips a token into an error. Returns `true`
/// if the list may continue.
// a => b,
#[cycle(grammar)]
fn arm_turn(p: &mut Parser<'_>) -> bool
    ensures goes { IsTrue result → TakesTurn Off rows.arm_turn p.old p.new }
    ensures ends { result ≡ false → Reads Off (rows.arm_turn *) p.old p.new }
    ensures keeps { Keeps p.old p.new }
    ensures asks { Asks 1080 p.old p.new }
{
    if at_list_end(p, SyntaxKind::R_CURLY) {
        return false;
    }
    if at_match_attribute(p) {
        attribute(p);
        return true;
    }
    if at_match_arm(p) {
        match_arm(p, Condition::Off);
        return true;
    }
    p.skip(Message::ExpectedMatchArm);
    true
}
