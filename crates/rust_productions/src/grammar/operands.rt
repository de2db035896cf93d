//! Operands that only the whole language has.

ghost use Rattle.rust_grammar.specs.Expressions as rows;
ghost use Rattle.rust_grammar.specs.Notation.{⁅◌⁆, ◌!, wide};
ghost use Rattle.rust_productions.specs.Looks.{Asks, Peeks, tokens};
ghost use Rattle.rust_productions.specs.Reads.{Condition, Reads, Saw};
ghost use Rattle.std.specs.Prelude.{◌≤◌, IsTrue, true};

use crate::condition::Condition;
use crate::grammar::operators::at_joint;
use crate::parser::Parser;
use parser_input::syntax_kind::SyntaxKind;

/// Returns `true` if a raw reference starts here: at `&raw` before `mut`, `const` or a name.
pub fn at_raw(p: &mut Parser<'_>) -> bool
    ensures sees { (c : Condition) → Saw c rows.raw_begins p.old result }
    ensures some { IsTrue result → 2 ≤ tokens p.old }
    ensures peeks { Peeks 2 p.old p.new }
{
    if !p.at(SyntaxKind::AMP) {
        return false;
    }
    if !p.at_second_contextual(SyntaxKind::RAW_KW) {
        return false;
    }
    match p.nth(2) {
        SyntaxKind::MUT_KW | SyntaxKind::CONST_KW | SyntaxKind::IDENT => true,
        _ => false,
    }
}

/// Returns `true` if an operand starts here that only the whole language has: a raw reference, one
/// after attributes, or a range without a start.
pub fn at_new_operand(p: &mut Parser<'_>) -> bool
    ensures sees { (c : Condition) → Saw c (wide rows.new_operand_begins) p.old result }
    ensures some { IsTrue result → 1 ≤ tokens p.old }
    ensures peeks { Peeks 5 p.old p.new }
{
    if !p.at_whole() {
        return false;
    }
    if at_raw(p) {
        return true;
    }
    if p.at(SyntaxKind::POUND) {
        return true;
    }
    if at_new_mark(p) {
        return true;
    }
    false
}

/// Returns `true` if a range operator is next that begins an operand, in the whole language.
pub(crate) fn at_new_mark(p: &mut Parser<'_>) -> bool
    ensures sees { (c : Condition) → Saw c (wide rows.mark_begins) p.old result }
    ensures some { IsTrue result → 1 ≤ tokens p.old }
    ensures peeks { Peeks 2 p.old p.new }
{
    if !p.at_whole() {
        return false;
    }
    if !p.at(SyntaxKind::DOT) {
        return false;
    }
    if !at_joint(p) {
        return false;
    }
    if p.at_second(SyntaxKind::DOT) {
        return true;
    }
    false
}

/// Takes the `mut` or the `const` of a raw reference, if it is there.
// mut
pub fn opt_mut_or_const(p: &mut Parser<'_>)
    ensures reads { (c : Condition) → Reads c ⁅ rows.mut_or_const ⁆ p.old p.new }
    ensures asks { Asks 1 p.old p.new }
{
    match p.current() {
        SyntaxKind::MUT_KW => p.take(SyntaxKind::MUT_KW),
        SyntaxKind::CONST_KW => p.take(SyntaxKind::CONST_KW),
        _ => {}
    }
}

/// Returns `true` if the name of a method is next: an identifier before `(` or `::`.
pub fn at_method(p: &mut Parser<'_>) -> bool
    ensures sees { (c : Condition) → Saw c rows.method_begins p.old result }
    ensures some { IsTrue result → 1 ≤ tokens p.old }
    ensures peeks { Peeks 4 p.old p.new }
{
    if !p.at(SyntaxKind::IDENT) {
        return false;
    }
    if p.at_second(SyntaxKind::L_PAREN) {
        return true;
    }
    if p.at_pair_after(SyntaxKind::COLON, SyntaxKind::COLON) {
        return true;
    }
    false
}
