//! Expressions.

ghost use Rattle.parser_input.specs.Kinds as kinds;
ghost use Rattle.rust_grammar.specs.Expressions as rows;
ghost use Rattle.rust_grammar.specs.Expressions.{body_begins};
ghost use Rattle.rust_grammar.specs.Rule as rules;
ghost use Rattle.rust_grammar.specs.Rule.{begins};
ghost use Rattle.rust_productions.specs.Looks.{Peeks, Takes, tokens};
ghost use Rattle.rust_productions.specs.Reads.{Condition, Reads, Saw, looks};
ghost use Rattle.std.specs.Prelude.{◌≤◌, IsTrue, true};

use crate::condition::Condition;
use crate::grammar::expression_words::{at_new_atom, at_new_block, opt_jump_label};
use crate::grammar::names::at_literal;
use crate::grammar::operands::at_new_mark;
use crate::grammar::operators::{at_joint, range_mark};
use crate::grammar::paths::at_path;
use crate::parser::Parser;
use parser_input::syntax_kind::SyntaxKind;

/// Returns `true` if a macro call with braces is next whose path is one identifier.
pub(crate) fn at_macro_block(p: &mut Parser<'_>) -> bool
    ensures sees { (c : Condition) → Saw c rows.macro_block_begins p.old result }
    ensures some { IsTrue result → 1 ≤ tokens p.old }
    ensures peeks { Peeks 3 p.old p.new }
{
    if !p.at(SyntaxKind::IDENT) {
        return false;
    }
    if !p.at_second(SyntaxKind::BANG) {
        return false;
    }
    if !p.at_third(SyntaxKind::L_CURLY) {
        return false;
    }
    true
}

/// Returns `true` if a `let` in a condition is next.
fn at_let(p: &mut Parser<'_>, condition: Condition) -> bool
    ensures sees { Saw condition rows.let_begins p.old result }
    ensures some { IsTrue result → 1 ≤ tokens p.old }
    ensures peeks { Peeks 1 p.old p.new }
{
    match condition {
        Condition::On => p.at(SyntaxKind::LET_KW),
        Condition::Off => false,
    }
}

/// Returns `true` if an expression starts here that ends in a block.
#[inline(always)]
pub fn at_block_like(p: &mut Parser<'_>) -> bool
    ensures sees { (c : Condition) → Saw c (looks rules.block_like) p.old result }
    ensures some { IsTrue result → 1 ≤ tokens p.old }
    ensures peeks { Peeks 5 p.old p.new }
{
    match p.current() {
        SyntaxKind::L_CURLY
        | SyntaxKind::UNSAFE_KW
        | SyntaxKind::IF_KW
        | SyntaxKind::WHILE_KW
        | SyntaxKind::LOOP_KW
        | SyntaxKind::MATCH_KW => true,
        SyntaxKind::FOR_KW => {
            if !p.at_whole() {
                return true;
            }
            if p.at_second(SyntaxKind::L_ANGLE) {
                return false;
            }
            true
        }
        SyntaxKind::IDENT => {
            if at_macro_block(p) {
                return true;
            }
            false
        }
        _ => {
            if at_new_block(p) {
                return true;
            }
            false
        }
    }
}

/// Returns `true` if an expression without prefix operators starts here.
pub(crate) fn at_atom(p: &mut Parser<'_>, condition: Condition) -> bool
    ensures sees { Saw condition (looks rules.atom) p.old result }
    ensures some { IsTrue result → 1 ≤ tokens p.old }
    ensures peeks { Peeks 14 p.old p.new }
{
    if at_path(p) {
        return true;
    }
    if at_literal(p) {
        return true;
    }
    if at_block_like(p) {
        return true;
    }
    if at_new_atom(p) {
        return true;
    }
    if at_let(p, condition) {
        return true;
    }
    match p.current() {
        SyntaxKind::L_PAREN
        | SyntaxKind::L_BRACK
        | SyntaxKind::RETURN_KW
        | SyntaxKind::BREAK_KW
        | SyntaxKind::CONTINUE_KW
        | SyntaxKind::MOVE_KW
        | SyntaxKind::PIPE => true,
        _ => false,
    }
}

/// Returns `true` if an operand starts here.
pub fn at_operand(p: &mut Parser<'_>, condition: Condition) -> bool
    ensures sees { Saw condition (looks rules.prefixed) p.old result }
    ensures some { IsTrue result → 1 ≤ tokens p.old }
    ensures peeks { Peeks 16 p.old p.new }
{
    if at_atom(p, condition) {
        return true;
    }
    match p.current() {
        SyntaxKind::MINUS | SyntaxKind::BANG | SyntaxKind::STAR | SyntaxKind::AMP => true,
        SyntaxKind::DOT => {
            if !p.at_whole() {
                return false;
            }
            if !at_joint(p) {
                return false;
            }
            if p.at_second(SyntaxKind::DOT) {
                return true;
            }
            false
        }
        SyntaxKind::POUND => {
            if p.at_whole() {
                return true;
            }
            false
        }
        _ => false,
    }
}

/// Returns `true` if an operation starts here: at an operand or at a range operator.
pub fn at_operation(p: &mut Parser<'_>, condition: Condition) -> bool
    ensures sees { Saw condition (looks rules.operation) p.old result }
    ensures some { IsTrue result → 1 ≤ tokens p.old }
    ensures peeks { Peeks 19 p.old p.new }
{
    match range_mark(p) {
        Some(_) => true,
        None => at_operand(p, condition),
    }
}

/// Returns `true` if an expression starts here.
pub fn at_expression(p: &mut Parser<'_>, condition: Condition) -> bool
    ensures sees { Saw condition (looks rules.expression) p.old result }
    ensures some { IsTrue result → 1 ≤ tokens p.old }
    ensures peeks { Peeks 19 p.old p.new }
{
    at_operation(p, condition)
}

/// Returns `true` if a `{` is next that ends a condition.
pub fn at_body(p: &mut Parser<'_>, condition: Condition) -> bool
    ensures sees { Saw condition body_begins p.old result }
    ensures peeks { Peeks 1 p.old p.new }
{
    match condition {
        Condition::On => p.at(SyntaxKind::L_CURLY),
        Condition::Off => false,
    }
}

/// Returns `true` if the end of a range starts here. In a condition a `{` starts none, and in the
/// whole language a range operator starts none.
pub fn at_range_operand(p: &mut Parser<'_>, condition: Condition) -> bool
    ensures sees { Saw condition (begins looks rows.range_operand) p.old result }
    ensures operand { IsTrue result → Saw condition (looks rules.prefixed) p.old true }
    ensures some { IsTrue result → 1 ≤ tokens p.old }
    ensures peeks { Peeks 19 p.old p.new }
{
    if at_body(p, condition) {
        return false;
    }
    if at_new_mark(p) {
        return false;
    }
    at_operand(p, condition)
}

/// Parses a `continue` expression.
// continue 'a
pub fn continue_expr(p: &mut Parser<'_>)
    requires some { 1 ≤ tokens p.old }
    ensures reads { (c : Condition) → Reads c rows.continue_expr p.old p.new }
    ensures takes { Takes 4090 p.old p.new }
{
    let node = p.start();
    p.take(SyntaxKind::CONTINUE_KW);
    opt_jump_label(p);
    node.complete(p, SyntaxKind::CONTINUE_EXPR);
}
