//! Range patterns.

ghost use Rattle.std.specs.Prelude.{◌≤◌, IsTrue, true};
ghost use Rattle.rust_productions.specs.Looks.{tokens, Takes, Peeks};
ghost use Rattle.rust_grammar.specs.Notation.{wide};
ghost use Rattle.rust_grammar.specs.Patterns as rows;
ghost use Rattle.rust_grammar.specs.Rule as rules;
ghost use Rattle.rust_grammar.specs.Rule.{One, spelled_at};
ghost use Rattle.rust_grammar.specs.Shared.{dots_and_dot};
ghost use Rattle.rust_grammar.specs.Words.{'dots_eq'};
ghost use Rattle.rust_productions.specs.Reads.{looks, Reads, Saw, Condition};

use crate::grammar::operators::{at_joined_after, at_joint};
use crate::parser::Parser;
use parser_input::syntax_kind::SyntaxKind;

/// Returns `true` if `..=` is next.
pub(crate) fn at_dots_eq(p: &mut Parser<'_>) -> bool
    ensures sees { (c : Condition) → Saw c (spelled_at 0 'dots_eq') p.old result }
    ensures some { IsTrue result → 3 ≤ tokens p.old }
    ensures peeks { Peeks 3 p.old p.new }
{
    if !p.at(SyntaxKind::DOT) {
        return false;
    }
    if !at_joint(p) {
        return false;
    }
    if !p.at_second(SyntaxKind::DOT) {
        return false;
    }
    if at_joined_after(p, SyntaxKind::EQ) {
        return true;
    }
    false
}

/// Returns `true` if `..` is next, and after it a token at which an end of a range can start.
fn at_dots_before_end(p: &mut Parser<'_>) -> bool
    ensures sees { (c : Condition) → Saw c rows.dots_before_end p.old result }
    ensures some { IsTrue result → 2 ≤ tokens p.old }
    ensures peeks { Peeks 5 p.old p.new }
{
    if !p.at_pair(SyntaxKind::DOT, SyntaxKind::DOT) {
        return false;
    }
    match p.nth(2) {
        SyntaxKind::INT_NUMBER
        | SyntaxKind::FLOAT_NUMBER
        | SyntaxKind::CHAR
        | SyntaxKind::BYTE
        | SyntaxKind::STRING
        | SyntaxKind::BYTE_STRING
        | SyntaxKind::C_STRING
        | SyntaxKind::TRUE_KW
        | SyntaxKind::FALSE_KW
        | SyntaxKind::MINUS
        | SyntaxKind::IDENT
        | SyntaxKind::SELF_KW
        | SyntaxKind::SUPER_KW
        | SyntaxKind::CRATE_KW
        | SyntaxKind::SELF_TYPE_KW
        | SyntaxKind::L_ANGLE => true,
        _ => {
            if p.at_third_pair(SyntaxKind::COLON, SyntaxKind::COLON) {
                return true;
            }
            false
        }
    }
}

/// Returns `true` if a range pattern without a start is next, in the whole language: at `..=`, or at
/// `..` before an end.
pub fn at_open_range(p: &mut Parser<'_>) -> bool
    ensures sees { (c : Condition) → Saw c (wide rows.open_range_begins) p.old result }
    ensures op { IsTrue result → (c : Condition) → Saw c rows.range_op_begins p.old true }
    ensures some { IsTrue result → 2 ≤ tokens p.old }
    ensures peeks { Peeks 8 p.old p.new }
{
    if !p.at_whole() {
        return false;
    }
    if at_dots_eq(p) {
        return true;
    }
    if at_dots_before_end(p) {
        return true;
    }
    false
}

/// Returns `true` if an end of a range pattern starts here.
pub fn at_range_end(p: &mut Parser<'_>) -> bool
    ensures sees { (c : Condition) → Saw c rows.range_end_begins p.old result }
    ensures atom { IsTrue result → (c : Condition) → Saw c (looks rules.pattern_atom) p.old true }
    ensures some { IsTrue result → 1 ≤ tokens p.old }
    ensures peeks { Peeks 3 p.old p.new }
{
    match p.current() {
        SyntaxKind::INT_NUMBER
        | SyntaxKind::FLOAT_NUMBER
        | SyntaxKind::CHAR
        | SyntaxKind::BYTE
        | SyntaxKind::STRING
        | SyntaxKind::BYTE_STRING
        | SyntaxKind::C_STRING
        | SyntaxKind::TRUE_KW
        | SyntaxKind::FALSE_KW
        | SyntaxKind::MINUS
        | SyntaxKind::IDENT
        | SyntaxKind::SELF_KW
        | SyntaxKind::SUPER_KW
        | SyntaxKind::CRATE_KW
        | SyntaxKind::SELF_TYPE_KW => true,
        SyntaxKind::L_ANGLE => {
            if p.at_whole() {
                return true;
            }
            false
        }
        _ => {
            if p.at_pair(SyntaxKind::COLON, SyntaxKind::COLON) {
                return true;
            }
            false
        }
    }
}

/// Returns `true` if a range operator is next, in the whole language.
pub fn at_range_op(p: &mut Parser<'_>) -> bool
    ensures sees { (c : Condition) → Saw c (wide rows.range_op_begins) p.old result }
    ensures some { IsTrue result → 2 ≤ tokens p.old }
    ensures peeks { Peeks 2 p.old p.new }
{
    if !p.at_whole() {
        return false;
    }
    if !p.at(SyntaxKind::DOT) {
        return false;
    }
    if !at_joint(p) {
        return false;
    }
    if p.at_second(SyntaxKind::DOT) {
        return true;
    }
    false
}

/// Takes `...`, as the leaves `..` and `.`.
// ...
pub fn take_three_dots(p: &mut Parser<'_>)
    requires { 3 ≤ tokens p.old }
    ensures reads { (c : Condition) → Reads c dots_and_dot p.old p.new }
    ensures takes { Takes 8192 p.old p.new }
{
    p.take_pair(SyntaxKind::DOT2);
    p.take(SyntaxKind::DOT);
}

/// Takes `..=`.
// ..=
fn take_dots_eq(p: &mut Parser<'_>)
    requires { 3 ≤ tokens p.old }
    ensures reads { (c : Condition) → Reads c (One 'dots_eq') p.old p.new }
    ensures takes { Takes 8192 p.old p.new }
{
    p.token(SyntaxKind::DOT2EQ, 3);
}

/// Takes `..=` or `..`, of which one is next.
// ..=
pub fn take_two_dots(p: &mut Parser<'_>)
    requires begins { (c : Condition) → Saw c rows.range_op_begins p.old true }
    requires some { 2 ≤ tokens p.old }
    ensures reads { (c : Condition) → Reads c rows.two_dots p.old p.new }
    ensures takes { Takes 8000 p.old p.new }
{
    if at_dots_eq(p) {
        take_dots_eq(p);
        return;
    }
    p.take_pair(SyntaxKind::DOT2);
}

/// Takes the range operator that is next.
// ...
pub fn take_range_op(p: &mut Parser<'_>)
    requires begins { (c : Condition) → Saw c rows.range_op_begins p.old true }
    requires some { 2 ≤ tokens p.old }
    ensures reads { (c : Condition) → Reads c rows.range_op p.old p.new }
    ensures takes { Takes 7900 p.old p.new }
{
    if p.at_dots_dot() {
        take_three_dots(p);
        return;
    }
    take_two_dots(p);
}
