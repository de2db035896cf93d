//! Const arguments, and defaults of const parameters.

ghost use Rattle.parser_input.specs.Kinds.{PATH_EXPR};
ghost use Rattle.rust_grammar.specs.Calls.{ExprPath};
ghost use Rattle.rust_grammar.specs.Notation.{◌!, ◌⟨◌⟩};
ghost use Rattle.rust_grammar.specs.Paths as rows;
ghost use Rattle.rust_grammar.specs.Rule as rules;
ghost use Rattle.rust_productions.specs.Looks.{Asks};
ghost use Rattle.rust_productions.specs.Reads.{Gives, Reads};
ghost use Rattle.rust_productions.specs.declared.condition.Condition.{Condition};

use crate::grammar::expressions::blocks::block;
use crate::grammar::paths::{Mode, path_with_args};
use parser_events::message::Message;
use parser_input::syntax_kind::SyntaxKind;
use rust_productions::grammar::const_args::{
    at_const_arg, at_negated, missing_expr_path, negated_literal,
};
use rust_productions::grammar::names::{at_literal, literal};
use rust_productions::grammar::paths::at_path;
use rust_productions::parser::Parser;

/// Parses a const argument; emits an error if there is none.
// -1
#[cycle(grammar)]
pub(crate) fn expect_const_arg(p: &mut Parser<'_>)
    ensures reads { (c : Condition) → Reads c (rows.const_arg !) p.old p.new }
    ensures asks { Asks 20 p.old p.new }
{
    if at_const_arg(p) {
        const_arg(p);
        return;
    }
    p.error(Message::Expected(SyntaxKind::CONST_ARG));
}

/// Parses a const argument: a block, a literal, a negated literal or a path. Reads a path that has
/// no segment if none of these starts here.
// -1
#[cycle(grammar)]
pub(crate) fn const_arg(p: &mut Parser<'_>)
    ensures reads { (c : Condition) → Reads c rows.const_arg p.old p.new }
    ensures asks { Asks 7 p.old p.new }
{
    let node = p.start();
    const_value(p);
    node.complete(p, SyntaxKind::CONST_ARG);
}

/// Parses the value of a const argument.
// -1
#[cycle(grammar)]
fn const_value(p: &mut Parser<'_>)
    ensures reads { (c : Condition) → Reads c rows.const_value p.old p.new }
    ensures asks { Asks 7 p.old p.new }
{
    if p.at(SyntaxKind::L_CURLY) {
        block(p);
        return;
    }
    if at_literal(p) {
        literal(p);
        return;
    }
    if at_negated(p) {
        negated_literal(p);
        return;
    }
    const_path(p);
}

/// Parses a path expression as a const argument.
// N
#[cycle(grammar)]
pub(crate) fn const_path(p: &mut Parser<'_>)
    ensures reads { (c : Condition) → Reads c (PATH_EXPR ⟨ ExprPath ⟩) p.old p.new }
    ensures asks { Asks 3 p.old p.new }
{
    let node = p.start();
    expr_path(p);
    node.complete(p, SyntaxKind::PATH_EXPR);
}

/// Parses a path with the arguments of an expression, or one that has no segment.
// a::N
#[cycle(grammar)]
fn expr_path(p: &mut Parser<'_>)
    ensures gives { (c : Condition) → Gives rules.expr_path c p.old p.new }
    ensures asks { Asks 3 p.old p.new }
{
    if at_path(p) {
        path_with_args(p, Mode::Expr);
        return;
    }
    missing_expr_path(p);
}
