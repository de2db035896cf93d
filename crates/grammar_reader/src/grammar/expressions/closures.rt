//! Closures.

ghost use Rattle.std.specs.Prelude.{◌≤◌, true};
ghost use Rattle.parser_input.specs.Kinds.{CLOSURE_EXPR};
ghost use Rattle.rust_grammar.specs.Expressions as rows;
ghost use Rattle.rust_grammar.specs.Notation.{◌▸◌, ⁅◌⁆, ◌!, ◌⟨◌⟩};
ghost use Rattle.rust_grammar.specs.Calls.{SinglePattern};
ghost use Rattle.rust_grammar.specs.Rule.{One, begins};
ghost use Rattle.rust_grammar.specs.Shared as shared;
ghost use Rattle.rust_productions.specs.Starts.{Starts};
ghost use Rattle.rust_grammar.specs.Words.{'move'};
ghost use Rattle.rust_grammar.specs.Shared.{type_annotation};
ghost use Rattle.rust_productions.specs.Looks.{tokens, Takes, Asks};
ghost use Rattle.rust_productions.specs.Reads.{looks, Reads, Saw};
ghost use Rattle.rust_productions.specs.declared.condition.Condition.{Condition};
ghost use Rattle.rust_productions.specs.declared.condition.Condition.TheVariants.{Off};

use crate::grammar::attributes::{attribute, outer_attributes};
use crate::grammar::expressions::{Level, expect_expression};
use crate::grammar::generic_params::for_binder;
use crate::grammar::lists::{ListKind, list};
use crate::grammar::parts::{Part, expect_part};
use crate::grammar::patterns::{single_or_missing, single_pattern};
use crate::grammar::types::ret_type;
use parser_input::syntax_kind::SyntaxKind;
use rust_productions::condition::Condition;
use rust_productions::grammar::expression_words::{
    opt_const_to_move, words_from_async, words_from_const, words_from_static,
};
use rust_productions::parser::Parser;

/// Parses a closure expression without `move`.
// |a| a + 1
#[cycle(grammar)]
pub(crate) fn closure_expr(p: &mut Parser<'_>, condition: Condition)
    requires some { 1 ≤ tokens p.old }
    ensures reads { Reads condition
        (CLOSURE_EXPR ⟨ rows.closure_params ▸ rows.closure_body ⟩) p.old p.new }
    ensures takes { Takes 3280 p.old p.new }
{
    let node = p.start();
    list(p, ListKind::ClosureParams);
    closure_body(p, condition);
    node.complete(p, SyntaxKind::CLOSURE_EXPR);
}

/// Parses a closure expression with `move`.
// move |a| a + 1
#[cycle(grammar)]
pub(crate) fn move_closure(p: &mut Parser<'_>, condition: Condition)
    requires some { 1 ≤ tokens p.old }
    ensures reads { Reads condition (CLOSURE_EXPR
        ⟨ One 'move' ▸ rows.closure_params ! ▸ rows.closure_body ⟩) p.old p.new }
    ensures takes { Takes 3280 p.old p.new }
{
    let node = p.start();
    p.take(SyntaxKind::MOVE_KW);
    expect_part(p, Part::ClosureParams);
    closure_body(p, condition);
    node.complete(p, SyntaxKind::CLOSURE_EXPR);
}

/// Parses a closure parameter.
// b: u8
#[inline(never)]
#[cycle(grammar)]
pub(crate) fn closure_param(p: &mut Parser<'_>)
    requires begins { (c : Condition) → Saw c (begins looks rows.closure_param) p.old true }
    requires some { 1 ≤ tokens p.old }
    ensures reads { Reads Off rows.closure_param p.old p.new }
    ensures takes { Takes 2900 p.old p.new }
{
    let node = p.start();
    attributed_single(p);
    opt_type(p, Condition::Off);
    node.complete(p, SyntaxKind::PARAM);
}

/// Parses the pattern of a closure parameter, with its optional attributes.
// #[a] b
#[cycle(grammar)]
fn attributed_single(p: &mut Parser<'_>)
    requires begins { Starts (begins looks rows.closure_param) p.old }
    ensures reads { (c : Condition)
        → Reads c (shared.outer_attributes ▸ SinglePattern) p.old p.new }
    ensures takes { Takes 2905 p.old p.new }
{
    if p.at_new(SyntaxKind::POUND) {
        attribute(p);
        outer_attributes(p);
        single_or_missing(p);
        return;
    }
    single_pattern(p);
}

/// Parses an optional type with its colon.
// : u8
#[cycle(grammar)]
pub(crate) fn opt_type(p: &mut Parser<'_>, condition: Condition)
    ensures reads { Reads condition ⁅ type_annotation ⁆ p.old p.new }
    ensures asks { Asks 1 p.old p.new }
{
    if p.at(SyntaxKind::COLON) {
        p.take(SyntaxKind::COLON);
        expect_part(p, Part::Type);
    }
}

/// Parses the body of a closure: a block after a return type, otherwise an expression.
// -> u8 { 1 }
#[cycle(grammar)]
fn closure_body(p: &mut Parser<'_>, condition: Condition)
    ensures reads { Reads condition rows.closure_body p.old p.new }
    ensures asks { Asks 780 p.old p.new }
{
    if p.at_pair(SyntaxKind::MINUS, SyntaxKind::R_ANGLE) {
        ret_type(p);
        expect_part(p, Part::Block);
        return;
    }
    expect_expression(p, Level::Operation, condition);
}

/// Parses a closure with words before its parameters.
// async move |a| a + 1
#[cycle(grammar)]
pub(crate) fn closure_with_words(p: &mut Parser<'_>, condition: Condition)
    requires some { 1 ≤ tokens p.old }
    ensures reads { Reads condition rows.closure_with_words p.old p.new }
    ensures takes { Takes 3200 p.old p.new }
{
    let node = p.start();
    closure_words(p);
    expect_part(p, Part::ClosureParams);
    closure_body(p, condition);
    node.complete(p, SyntaxKind::CLOSURE_EXPR);
}

/// Parses the words before the parameters of a closure.
// for<'a> async move
#[cycle(grammar)]
fn closure_words(p: &mut Parser<'_>)
    requires some { 1 ≤ tokens p.old }
    ensures reads { (c : Condition) → Reads c rows.closure_words p.old p.new }
    ensures takes { Takes 4080 p.old p.new }
{
    match p.current() {
        SyntaxKind::FOR_KW => {
            for_binder(p);
            opt_const_to_move(p);
        }
        SyntaxKind::CONST_KW => words_from_const(p),
        SyntaxKind::STATIC_KW => words_from_static(p),
        _ => words_from_async(p),
    }
}
