//! Generic parameters, bounds and where clauses.

ghost use Rattle.parser_input.specs.Kinds.{NAME_REF, TYPE_BOUND};
ghost use Rattle.rust_grammar.specs.Calls.{Lifetime};
ghost use Rattle.rust_grammar.specs.Notation.{◌before◌, ◌or◌, ◌⟨◌⟩, wide};
ghost use Rattle.rust_grammar.specs.Paths as rows;
ghost use Rattle.rust_grammar.specs.Rule as rules;
ghost use Rattle.rust_grammar.specs.Rule.{One, begins};
ghost use Rattle.rust_grammar.specs.Shared.{binder_begins};
ghost use Rattle.rust_grammar.specs.Words.{'<', 'Self', 'ident', 'use'};
ghost use Rattle.rust_productions.specs.Looks.{Asks, Peeks, Takes, spent, tokens};
ghost use Rattle.rust_productions.specs.Reads.{Condition, Reads, Saw, looks};
ghost use Rattle.std.specs.Prelude.{◌+◌, ◌≡◌, ◌≤◌, IsTrue};

use crate::grammar::names::lifetime;
use crate::grammar::paths::at_path;
use crate::grammar::types::at_type;
use crate::parser::Parser;
use parser_input::syntax_kind::SyntaxKind;

/// Returns `true` if a generic parameter of the whole language alone starts here: a const parameter
/// or an attribute.
pub fn at_new_param(p: &mut Parser<'_>) -> bool
    ensures sees { (c : Condition) → Saw c (wide rows.new_param_begins) p.old result }
    ensures some { IsTrue result → 1 ≤ tokens p.old }
    ensures peeks { Peeks 1 p.old p.new }
{
    if !p.at_whole() {
        return false;
    }
    match p.current() {
        SyntaxKind::CONST_KW | SyntaxKind::POUND => true,
        _ => false,
    }
}

/// Returns `true` if a generic parameter starts here.
pub fn at_generic_param(p: &mut Parser<'_>) -> bool
    ensures sees { (c : Condition) → Saw c (looks rules.generic_param) p.old result }
    ensures some { IsTrue result → 1 ≤ tokens p.old }
    ensures peeks { Peeks 2 p.old p.new }
{
    if at_new_param(p) {
        return true;
    }
    match p.current() {
        SyntaxKind::LIFETIME_IDENT | SyntaxKind::IDENT => true,
        _ => false,
    }
}

/// Returns `true` if a binder starts here: `for`, and `<` after it.
pub fn at_binder(p: &mut Parser<'_>) -> bool
    ensures sees { (c : Condition) → Saw c binder_begins p.old result }
    ensures some { IsTrue result → 1 ≤ tokens p.old }
    ensures peeks { Peeks 2 p.old p.new }
{
    if !p.at(SyntaxKind::FOR_KW) {
        return false;
    }
    if p.at_second(SyntaxKind::L_ANGLE) {
        return true;
    }
    false
}

/// Returns `true` if `use` is next, and `<` after it.
pub fn at_captures(p: &mut Parser<'_>) -> bool
    ensures sees { (c : Condition) → Saw c ('use' before '<') p.old result }
    ensures some { IsTrue result → 2 ≤ tokens p.old }
    ensures peeks { Peeks 2 p.old p.new }
{
    if !p.at_second(SyntaxKind::L_ANGLE) {
        return false;
    }
    if p.at(SyntaxKind::USE_KW) {
        return true;
    }
    false
}

/// Returns `true` if a captured parameter starts here.
pub fn at_captured(p: &mut Parser<'_>) -> bool
    ensures sees { (c : Condition) → Saw c (begins looks rows.captured) p.old result }
    ensures some { IsTrue result → 1 ≤ tokens p.old }
    ensures peeks { Peeks 1 p.old p.new }
{
    match p.current() {
        SyntaxKind::LIFETIME_IDENT | SyntaxKind::IDENT | SyntaxKind::SELF_TYPE_KW => true,
        _ => false,
    }
}

/// Parses a captured parameter: a lifetime, a name or `Self`.
// 'a
#[inline(never)]
pub fn captured(p: &mut Parser<'_>)
    requires some { 1 ≤ tokens p.old }
    ensures reads { (c : Condition) → Reads c rows.captured p.old p.new }
    ensures takes { Takes 4090 p.old p.new }
{
    match p.current() {
        SyntaxKind::LIFETIME_IDENT => lifetime(p),
        _ => captured_name(p),
    }
}

/// Parses the name of a captured parameter, or `Self`.
// T
fn captured_name(p: &mut Parser<'_>)
    requires some { 1 ≤ tokens p.old }
    ensures reads { (c : Condition) → Reads c (NAME_REF ⟨ One 'ident' or One 'Self' ⟩) p.old p.new }
    ensures takes { Takes 4095 p.old p.new }
{
    let name = p.start();
    captured_word(p);
    name.complete(p, SyntaxKind::NAME_REF);
}

/// Takes an identifier, or `Self`.
// T
fn captured_word(p: &mut Parser<'_>)
    requires some { 1 ≤ tokens p.old }
    ensures reads { (c : Condition) → Reads c (One 'ident' or One 'Self') p.old p.new }
    ensures takes { Takes 4095 p.old p.new }
{
    match p.current() {
        SyntaxKind::IDENT => p.take(SyntaxKind::IDENT),
        _ => p.take(SyntaxKind::SELF_TYPE_KW),
    }
}

/// Returns `true` if a bound of the whole language alone starts here: in parentheses, with words
/// before its path, or with captures.
pub fn at_new_bound(p: &mut Parser<'_>) -> bool
    ensures sees { (c : Condition) → Saw c (wide rows.new_bound_begins) p.old result }
    ensures some { IsTrue result → 1 ≤ tokens p.old }
    ensures peeks { Peeks 3 p.old p.new }
{
    if !p.at_whole() {
        return false;
    }
    match p.current() {
        SyntaxKind::L_PAREN | SyntaxKind::ASYNC_KW | SyntaxKind::CONST_KW => true,
        SyntaxKind::TILDE => {
            if p.at_second(SyntaxKind::CONST_KW) {
                return true;
            }
            false
        }
        SyntaxKind::FOR_KW | SyntaxKind::USE_KW => {
            if p.at_second(SyntaxKind::L_ANGLE) {
                return true;
            }
            false
        }
        SyntaxKind::L_BRACK => {
            if !p.at_second(SyntaxKind::CONST_KW) {
                return false;
            }
            if p.at_third(SyntaxKind::R_BRACK) {
                return true;
            }
            false
        }
        _ => false,
    }
}

/// Parses the optional `const` before the path of a bound: `~const`, `[const]` or `const`.
// ~const
pub fn opt_const_words(p: &mut Parser<'_>)
    ensures reads { (c : Condition) → Reads c rows.const_words p.old p.new }
    ensures asks { Asks 1 p.old p.new }
{
    match p.current() {
        SyntaxKind::TILDE => {
            p.take(SyntaxKind::TILDE);
            p.expect(SyntaxKind::CONST_KW);
        }
        SyntaxKind::L_BRACK => {
            p.take(SyntaxKind::L_BRACK);
            p.expect(SyntaxKind::CONST_KW);
            p.expect(SyntaxKind::R_BRACK);
        }
        SyntaxKind::CONST_KW => {
            p.take(SyntaxKind::CONST_KW);
        }
        _ => {}
    }
}

/// Returns `true` if a bound starts here.
pub fn at_bound(p: &mut Parser<'_>) -> bool
    ensures sees { (c : Condition) → Saw c (looks rules.bound) p.old result }
    ensures some { IsTrue result → 1 ≤ tokens p.old }
    ensures peeks { Peeks 7 p.old p.new }
{
    if at_path(p) {
        return true;
    }
    if at_new_bound(p) {
        return true;
    }
    match p.current() {
        SyntaxKind::LIFETIME_IDENT | SyntaxKind::QUESTION => true,
        _ => false,
    }
}

/// Returns `true` if a where predicate of the whole language alone starts here: a binder.
pub fn at_new_pred(p: &mut Parser<'_>) -> bool
    ensures sees { (c : Condition) → Saw c (wide binder_begins) p.old result }
    ensures some { IsTrue result → 1 ≤ tokens p.old }
    ensures peeks { Peeks 2 p.old p.new }
{
    if !p.at_whole() {
        return false;
    }
    if at_binder(p) {
        return true;
    }
    false
}

/// Returns `true` if a where predicate starts here.
pub fn at_where_pred(p: &mut Parser<'_>) -> bool
    ensures sees { (c : Condition) → Saw c (looks rules.where_pred) p.old result }
    ensures some { IsTrue result → 1 ≤ tokens p.old }
    ensures peeks { Peeks 20 p.old p.new }
{
    if at_new_pred(p) {
        return true;
    }
    if p.at(SyntaxKind::LIFETIME_IDENT) {
        return true;
    }
    if at_type(p) {
        return true;
    }
    false
}

/// Parses a lifetime as a bound.
// 'a
pub fn lifetime_bound(p: &mut Parser<'_>)
    requires { 1 ≤ tokens p.old }
    ensures reads { (c : Condition) → Reads c (TYPE_BOUND ⟨ Lifetime ⟩) p.old p.new }
    ensures left { tokens p.new + 1 ≡ tokens p.old }
    ensures looks { spent p.new + 4096 ≡ spent p.old }
{
    let bound = p.start();
    lifetime(p);
    bound.complete(p, SyntaxKind::TYPE_BOUND);
}
