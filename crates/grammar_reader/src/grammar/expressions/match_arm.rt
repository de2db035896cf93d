//! Arms of a `match`.

ghost use Rattle.std.specs.Prelude.{◌≤◌, true};
ghost use Rattle.parser_events.specs.Stack.{IsInnermost};
ghost use Rattle.rust_grammar.specs.Calls.{Pattern};
ghost use Rattle.rust_grammar.specs.Notation.{⁅◌⁆, ◌▸◌, ◌*, ◌!, more};
ghost use Rattle.rust_grammar.specs.Shared as shared;
ghost use Rattle.rust_grammar.specs.Whole.{rule};
ghost use Rattle.rust_productions.specs.Starts.{Starts};
ghost use Rattle.rust_grammar.specs.Rule as rules;
ghost use Rattle.rust_grammar.specs.Expressions as rows;
ghost use Rattle.rust_productions.specs.Looks.{tokens, Takes, Asks, AsksIn};
ghost use Rattle.rust_productions.specs.Reads.{looks, Gives, Reads, Saw};
ghost use Rattle.rust_productions.specs.declared.condition.Condition.{Condition};

use crate::grammar::attributes::{attribute, outer_attributes};
use crate::grammar::expressions::atom::after_path;
use crate::grammar::expressions::control::block_like;
use crate::grammar::expressions::operand::{postfix, postfixes};
use crate::grammar::expressions::{Level, after_operand, expect_condition, expect_expression};
use crate::grammar::or_patterns::{pattern, pattern_or_missing};
use crate::grammar::paths::{Mode, path_with_args};
use parser_input::syntax_kind::SyntaxKind;
use rust_productions::condition::Condition;
use rust_productions::grammar::expressions::at_block_like;
use rust_productions::grammar::lists::comma;
use rust_productions::grammar::match_arms::{at_braced_macro, at_long_path, expect_arrow};
use rust_productions::grammar::statements::at_more;
use rust_productions::grammar::token_trees::token_tree;
use rust_productions::marker::Marker;
use rust_productions::parser::Parser;

/// Parses a match arm.
// Some(a) if a > 1 => b,
#[cycle(grammar)]
pub(crate) fn match_arm(p: &mut Parser<'_>, condition: Condition)
    requires begins { (c : Condition) → Saw c (looks rules.match_arm) p.old true }
    requires some { 1 ≤ tokens p.old }
    ensures gives { Gives rules.match_arm condition p.old p.new }
    ensures takes { Takes 2100 p.old p.new }
{
    let node = p.start();
    attributed_pattern(p);
    opt_guard(p);
    expect_arrow(p);
    arm_value(p, condition);
    node.complete(p, SyntaxKind::MATCH_ARM);
}

/// Parses the pattern of a match arm, with its optional attributes.
// #[a] Some(b)
#[cycle(grammar)]
fn attributed_pattern(p: &mut Parser<'_>)
    requires begins { Starts (looks rules.match_arm) p.old }
    ensures reads { (c : Condition) → Reads c (shared.outer_attributes ▸ Pattern) p.old p.new }
    ensures takes { Takes 2895 p.old p.new }
{
    if p.at_new(SyntaxKind::POUND) {
        attribute(p);
        outer_attributes(p);
        pattern_or_missing(p);
        return;
    }
    pattern(p);
}

/// Parses the optional guard of a match arm.
// if a > 1
#[cycle(grammar)]
fn opt_guard(p: &mut Parser<'_>)
    ensures reads { (c : Condition) → Reads c ⁅ rows.match_guard ⁆ p.old p.new }
    ensures asks { Asks 1 p.old p.new }
{
    if p.at(SyntaxKind::IF_KW) {
        let guard = p.start();
        p.take(SyntaxKind::IF_KW);
        guard_value(p);
        guard.complete(p, SyntaxKind::MATCH_GUARD);
    }
}

/// Parses the value of a guard, which in the whole language is no condition.
// a > 1
#[cycle(grammar)]
fn guard_value(p: &mut Parser<'_>)
    ensures reads { (c : Condition) → Reads c rows.guard_value p.old p.new }
    ensures asks { Asks 30 p.old p.new }
{
    if p.at_whole() {
        expect_expression(p, Level::Operation, Condition::Off);
        return;
    }
    expect_condition(p);
}

/// Parses the value of a match arm and its comma.
// b,
#[cycle(grammar)]
fn arm_value(p: &mut Parser<'_>, condition: Condition)
    ensures reads { Reads condition rows.arm_value p.old p.new }
    ensures asks { Asks 780 p.old p.new }
{
    if p.at_whole() {
        arm_body(p, condition);
        return;
    }
    profile_value(p, condition);
}

/// Parses the value of a match arm in the profile, and its comma, which is optional after a block.
// b,
#[cycle(grammar)]
fn profile_value(p: &mut Parser<'_>, condition: Condition)
    ensures reads { Reads condition rows.profile_value p.old p.new }
    ensures asks { Asks 780 p.old p.new }
{
    if at_block_like(p) {
        block_like(p);
        p.eat(SyntaxKind::COMMA);
        return;
    }
    expect_expression(p, Level::Expression, condition);
    comma(p, SyntaxKind::R_CURLY);
}

/// Parses the value of a match arm in the whole language, and its comma.
// b,
#[cycle(grammar)]
fn arm_body(p: &mut Parser<'_>, condition: Condition)
    ensures gives { Gives rules.arm_body condition p.old p.new }
    ensures asks { Asks 770 p.old p.new }
{
    let frame = p.start();
    let frame = inside_arm(p, frame, condition);
    frame.abandon(p);
}

/// Parses the value of a match arm in the whole language, and its comma, within `frame`.
// b,
#[cycle(grammar)]
fn inside_arm(p: &mut Parser<'_>, frame: Marker, condition: Condition) -> Marker
    requires innermost { IsInnermost frame p.old.nodes }
    ensures reads { Reads condition (rule rules.arm_body) p.old p.new }
    ensures asks { AsksIn result 770 p.old p.new }
{
    if at_block_like(p) {
        block_like(p);
        return arm_tail(p, frame, condition);
    }
    if at_long_path(p) {
        path_with_args(p, Mode::Expr);
        return after_long_path(p, frame, condition);
    }
    expect_expression(p, Level::Expression, condition);
    comma(p, SyntaxKind::R_CURLY);
    frame
}

/// Parses what follows a path of several segments: a macro call in braces, or operators and a
/// comma.
// ! { a }
#[cycle(grammar)]
fn after_long_path(p: &mut Parser<'_>, frame: Marker, condition: Condition) -> Marker
    requires innermost { IsInnermost frame p.old.nodes }
    ensures reads { Reads condition rows.after_long_path p.old p.new }
    ensures asks { AsksIn result 40 p.old p.new }
{
    if at_braced_macro(p) {
        p.take(SyntaxKind::BANG);
        token_tree(p);
        let frame = frame.wrap(p, SyntaxKind::MACRO_CALL);
        let frame = frame.wrap(p, SyntaxKind::MACRO_EXPR);
        return arm_tail(p, frame, condition);
    }
    let frame = after_path(p, frame, condition);
    further_operators(p, frame, condition)
}

/// Parses what follows a value that ends in a block: operators and a comma, or an optional comma.
// .c(),
#[cycle(grammar)]
fn arm_tail(p: &mut Parser<'_>, frame: Marker, condition: Condition) -> Marker
    requires innermost { IsInnermost frame p.old.nodes }
    ensures reads { Reads condition rows.arm_tail p.old p.new }
    ensures asks { AsksIn result 30 p.old p.new }
{
    if at_more(p) {
        let frame = postfix(p, frame);
        return further_operators(p, frame, condition);
    }
    p.eat(SyntaxKind::COMMA);
    frame
}

/// Parses postfix operators, further operators with their operands, and a comma.
// .c() + d,
#[cycle(grammar)]
fn further_operators(p: &mut Parser<'_>, frame: Marker, condition: Condition) -> Marker
    requires innermost { IsInnermost frame p.old.nodes }
    ensures reads { Reads condition
        (more rules.postfix * ▸ rows.after_operand ▸ rows.arm_comma) p.old p.new }
    ensures asks { AsksIn result 20 p.old p.new }
{
    let frame = postfixes(p, frame);
    let frame = after_operand(p, frame, condition);
    comma(p, SyntaxKind::R_CURLY);
    frame
}
