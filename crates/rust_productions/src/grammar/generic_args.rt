//! Generic arguments.

ghost use Rattle.parser_input.specs.Kinds.{CONST_ARG, PARENTHESIZED_ARG_LIST};
ghost use Rattle.rust_grammar.specs.Calls.{Literal};
ghost use Rattle.rust_grammar.specs.Notation.{⁅◌⁆, ◌!, ◌before◌, ◌▸◌, ◌⟨◌⟩, wide};
ghost use Rattle.rust_grammar.specs.Paths as rows;
ghost use Rattle.rust_grammar.specs.Rule as rules;
ghost use Rattle.rust_grammar.specs.Rule.{One};
ghost use Rattle.rust_grammar.specs.Words.{'-', '::', 'dots', 'l_paren', 'r_paren'};
ghost use Rattle.rust_productions.specs.Looks.{Asks, Peeks, Takes, spent, tokens};
ghost use Rattle.rust_productions.specs.Reads.{Condition, Reads, Saw, looks};
ghost use Rattle.rust_productions.specs.Starts.{Starts};
ghost use Rattle.std.specs.Prelude.{◌+◌, ◌≡◌, ◌≤◌, IsTrue, true};

use crate::grammar::names::{at_literal, at_name_ref, expect_literal, lifetime, literal};
use crate::grammar::paths::at_colons;
use crate::grammar::types::at_type;
use crate::parser::Parser;
use parser_input::syntax_kind::SyntaxKind;

/// Returns `true` if `dyn` is next as an identifier, before a token that can follow `dyn` in the
/// whole language.
fn at_dyn_before(p: &mut Parser<'_>) -> bool
    ensures sees { (c : Condition) → Saw c rows.dyn_word_begins p.old result }
    ensures peeks { Peeks 1 p.old p.new }
{
    if !p.at_contextual(SyntaxKind::DYN_KW) {
        return false;
    }
    match p.nth(1) {
        SyntaxKind::QUESTION
        | SyntaxKind::LIFETIME_IDENT
        | SyntaxKind::L_PAREN
        | SyntaxKind::FOR_KW
        | SyntaxKind::IDENT
        | SyntaxKind::SELF_KW
        | SyntaxKind::SUPER_KW
        | SyntaxKind::CRATE_KW
        | SyntaxKind::SELF_TYPE_KW => true,
        _ => false,
    }
}

/// Returns `true` if a generic argument starts here as only the whole language has it.
pub fn at_new_arg(p: &mut Parser<'_>) -> bool
    ensures sees { (c : Condition) → Saw c (wide rows.new_arg_begins) p.old result }
    ensures some { IsTrue result → 1 ≤ tokens p.old }
    ensures peeks { Peeks 4 p.old p.new }
{
    if !p.at_whole() {
        return false;
    }
    if p.at(SyntaxKind::L_CURLY) {
        return true;
    }
    if p.at(SyntaxKind::LIFETIME_IDENT) {
        if p.at_second(SyntaxKind::PLUS) {
            return true;
        }
        return false;
    }
    if !at_name_ref(p) {
        return false;
    }
    if at_dyn_before(p) {
        return false;
    }
    true
}

/// Returns `true` if a constant starts here as the value of an associated constant.
pub fn at_const_value(p: &mut Parser<'_>) -> bool
    ensures sees { (c : Condition) → Saw c rows.const_begins p.old result }
    ensures some { IsTrue result → 1 ≤ tokens p.old }
    ensures peeks { Peeks 1 p.old p.new }
{
    match p.current() {
        SyntaxKind::L_CURLY
        | SyntaxKind::MINUS
        | SyntaxKind::INT_NUMBER
        | SyntaxKind::FLOAT_NUMBER
        | SyntaxKind::CHAR
        | SyntaxKind::BYTE
        | SyntaxKind::STRING
        | SyntaxKind::BYTE_STRING
        | SyntaxKind::C_STRING
        | SyntaxKind::TRUE_KW
        | SyntaxKind::FALSE_KW => true,
        _ => false,
    }
}

/// Returns `true` if a `:` is next, and no `::`.
pub fn at_single_colon(p: &mut Parser<'_>) -> bool
    ensures sees { (c : Condition) → Saw c rows.bounded_arg_begins p.old result }
    ensures some { IsTrue result → 1 ≤ tokens p.old }
    ensures peeks { Peeks 3 p.old p.new }
{
    if !p.at(SyntaxKind::COLON) {
        return false;
    }
    if p.at_pair(SyntaxKind::COLON, SyntaxKind::COLON) {
        return false;
    }
    true
}

/// Returns `true` if a generic argument starts here.
pub fn at_generic_arg(p: &mut Parser<'_>) -> bool
    ensures sees { (c : Condition) → Saw c (looks rules.generic_arg) p.old result }
    ensures some { IsTrue result → 1 ≤ tokens p.old }
    ensures peeks { Peeks 24 p.old p.new }
{
    if p.at(SyntaxKind::IDENT) {
        return true;
    }
    if at_new_arg(p) {
        return true;
    }
    if at_type(p) {
        return true;
    }
    if at_literal(p) {
        return true;
    }
    match p.current() {
        SyntaxKind::LIFETIME_IDENT | SyntaxKind::MINUS => true,
        _ => false,
    }
}

/// Parses `::(..)` as arguments.
// ::(..)
pub fn colons_dots_args(p: &mut Parser<'_>)
    requires some { 5 ≤ tokens p.old }
    ensures reads { (c : Condition) → Reads c (PARENTHESIZED_ARG_LIST
        ⟨ One '::' ▸ One 'l_paren' ▸ One 'dots' ▸ One 'r_paren' ! ⟩) p.old p.new }
    ensures takes { Takes 8000 p.old p.new }
{
    let list = p.start();
    p.take_pair(SyntaxKind::COLON2);
    p.take(SyntaxKind::L_PAREN);
    p.take_pair(SyntaxKind::DOT2);
    p.expect(SyntaxKind::R_PAREN);
    list.complete(p, SyntaxKind::PARENTHESIZED_ARG_LIST);
}

/// Returns `true` if `::` is next, and `(` after it.
pub fn at_colons_before_paren(p: &mut Parser<'_>) -> bool
    ensures sees { (c : Condition) → Saw c ('::' before 'l_paren') p.old result }
    ensures some { IsTrue result → 3 ≤ tokens p.old }
    ensures peeks { Peeks 3 p.old p.new }
{
    if !at_colons(p) {
        return false;
    }
    p.at_third(SyntaxKind::L_PAREN)
}

/// Parses the optional `::` before a parenthesis.
// ::
pub fn opt_colons_before_paren(p: &mut Parser<'_>)
    requires begins { Starts (wide rows.fn_args_begin) p.old }
    ensures reads { (c : Condition) → Reads c ⁅ One '::' ⁆ p.old p.new }
    ensures some { 1 ≤ tokens p.new }
    ensures asks { Asks 3 p.old p.new }
{
    if at_colons_before_paren(p) {
        p.take_pair(SyntaxKind::COLON2);
    }
}

/// Parses `(..)` as arguments.
// (..)
pub fn dots_args(p: &mut Parser<'_>)
    requires some { 3 ≤ tokens p.old }
    ensures reads { (c : Condition) → Reads c (PARENTHESIZED_ARG_LIST
        ⟨ One 'l_paren' ▸ One 'dots' ▸ One 'r_paren' ! ⟩) p.old p.new }
    ensures takes { Takes 8000 p.old p.new }
{
    let list = p.start();
    p.take(SyntaxKind::L_PAREN);
    p.take_pair(SyntaxKind::DOT2);
    p.expect(SyntaxKind::R_PAREN);
    list.complete(p, SyntaxKind::PARENTHESIZED_ARG_LIST);
}

/// Parses a const argument that is a literal.
// 1
pub fn literal_arg(p: &mut Parser<'_>)
    requires { 1 ≤ tokens p.old }
    ensures reads { (c : Condition) → Reads c (CONST_ARG ⟨ Literal ⟩) p.old p.new }
    ensures left { tokens p.new + 1 ≡ tokens p.old }
    ensures looks { spent p.new + 4095 ≤ spent p.old }
{
    let node = p.start();
    literal(p);
    node.complete(p, SyntaxKind::CONST_ARG);
}

/// Parses a lifetime argument.
// 'a
pub fn lifetime_arg(p: &mut Parser<'_>)
    requires { 1 ≤ tokens p.old }
    ensures reads { (c : Condition) → Reads c rows.lifetime_arg p.old p.new }
    ensures left { tokens p.new + 1 ≡ tokens p.old }
    ensures looks { spent p.new + 4096 ≡ spent p.old }
{
    let node = p.start();
    lifetime(p);
    node.complete(p, SyntaxKind::LIFETIME_ARG);
}

/// Parses a const argument that is a negative literal.
// -1
pub fn negative_arg(p: &mut Parser<'_>)
    requires { 1 ≤ tokens p.old }
    ensures reads { (c : Condition) → Reads c (CONST_ARG ⟨ One '-' ▸ Literal ! ⟩) p.old p.new }
    ensures takes { Takes 4090 p.old p.new }
{
    let node = p.start();
    p.take(SyntaxKind::MINUS);
    expect_literal(p);
    node.complete(p, SyntaxKind::CONST_ARG);
}
