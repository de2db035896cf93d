//! Const arguments.

ghost use Rattle.std.specs.Prelude.{◌≤◌, false, IsTrue};
ghost use Rattle.rust_productions.specs.Looks.{tokens, Takes, Peeks, Stays};
ghost use Rattle.rust_grammar.specs.Notation.{◌before_any◌};
ghost use Rattle.rust_grammar.specs.Paths as rows;
ghost use Rattle.rust_grammar.specs.Rule as rules;
ghost use Rattle.rust_grammar.specs.Rule.{begins};
ghost use Rattle.rust_grammar.specs.Shared.{literal_words};
ghost use Rattle.rust_grammar.specs.Words.{'-'};
ghost use Rattle.rust_productions.specs.Reads.{looks, Gives, Reads, Saw, Condition};

use crate::grammar::names::{at_literal, literal};
use crate::grammar::paths::at_path;
use crate::parser::Parser;
use parser_events::message::Message;
use parser_input::syntax_kind::SyntaxKind;

/// Returns `true` if `-` is next, and a literal after it.
pub fn at_negated(p: &mut Parser<'_>) -> bool
    ensures sees { (c : Condition) → Saw c ('-' before_any literal_words) p.old result }
    ensures some { IsTrue result → 2 ≤ tokens p.old }
    ensures peeks { Peeks 2 p.old p.new }
{
    if !p.at(SyntaxKind::MINUS) {
        return false;
    }
    match p.nth(1) {
        SyntaxKind::INT_NUMBER
        | SyntaxKind::FLOAT_NUMBER
        | SyntaxKind::CHAR
        | SyntaxKind::BYTE
        | SyntaxKind::STRING
        | SyntaxKind::BYTE_STRING
        | SyntaxKind::C_STRING
        | SyntaxKind::TRUE_KW
        | SyntaxKind::FALSE_KW => true,
        _ => false,
    }
}

/// Parses a `-` and the literal after it.
// -1
pub fn negated_literal(p: &mut Parser<'_>)
    requires some { 2 ≤ tokens p.old }
    ensures reads { (c : Condition) → Reads c rows.negated_literal p.old p.new }
    ensures takes { Takes 8000 p.old p.new }
{
    let node = p.start();
    p.take(SyntaxKind::MINUS);
    literal(p);
    node.complete(p, SyntaxKind::PREFIX_EXPR);
}

/// Returns `true` if a const argument starts here.
pub fn at_const_arg(p: &mut Parser<'_>) -> bool
    ensures sees { (c : Condition) → Saw c (begins looks rows.const_arg) p.old result }
    ensures some { IsTrue result → 1 ≤ tokens p.old }
    ensures peeks { Peeks 7 p.old p.new }
{
    if at_path(p) {
        return true;
    }
    if at_literal(p) {
        return true;
    }
    if at_negated(p) {
        return true;
    }
    match p.current() {
        SyntaxKind::L_CURLY => true,
        _ => false,
    }
}

/// Parses a path without a segment: emits an error within the nodes of the path.
pub fn missing_expr_path(p: &mut Parser<'_>)
    requires none { (c : Condition) → Saw c (looks rules.path) p.old false }
    ensures gives { (c : Condition) → Gives rules.expr_path c p.old p.new }
    ensures stays { Stays p.old p.new }
{
    let frame = p.start();
    missing_segment(p);
    frame.abandon(p);
}

/// Emits an error for the segment of a path, within the nodes of the path.
fn missing_segment(p: &mut Parser<'_>)
    requires none { (c : Condition) → Saw c (looks rules.path) p.old false }
    ensures reads { (c : Condition) → Reads c (rows.first_segment rows.expr_args) p.old p.new }
    ensures ends { (c : Condition) → Saw c (looks rules.path) p.new false }
    ensures stays { Stays p.old p.new }
{
    let path = p.start();
    let segment = p.start();
    p.error(Message::Expected(SyntaxKind::NAME_REF));
    segment.complete(p, SyntaxKind::PATH_SEGMENT);
    path.complete(p, SyntaxKind::PATH);
}
