//! Types.

ghost use Rattle.parser_events.specs.Stack.{IsInnermost};
ghost use Rattle.parser_input.specs.Kind.{raw_of};
ghost use Rattle.parser_input.specs.Kinds as kinds;
ghost use Rattle.rust_grammar.specs.Notation.{◌!, ◌⟨◌⟩, one_of, wide};
ghost use Rattle.rust_grammar.specs.Paths as path_rows;
ghost use Rattle.rust_grammar.specs.Rule as rules;
ghost use Rattle.rust_grammar.specs.Rule.{One, begins};
ghost use Rattle.rust_grammar.specs.Types as rows;
ghost use Rattle.rust_grammar.specs.Words.{'_', 'ident', one};
ghost use Rattle.rust_productions.specs.Looks.{Asks, AsksIn, Peeks, Takes, spent, tokens};
ghost use Rattle.rust_productions.specs.Reads.{Condition, Reads, Saw, looks};
ghost use Rattle.rust_productions.specs.Starts.{Starts};
ghost use Rattle.std.specs.Prelude.{◌+◌, ◌∷◌, ◌≡◌, ◌≤◌, IsTrue, [], true};

use crate::condition::Condition;
use crate::grammar::item_words::{opt_abi, read_abi};
use crate::grammar::paths::{at_macro_call, at_path};
use crate::grammar::token_trees::expect_token_tree;
use crate::marker::Marker;
use crate::parser::Parser;
use parser_input::syntax_kind::SyntaxKind;

/// Returns `true` if the second token can follow `dyn` in the whole language alone: `(`, or `for`
/// before `<`.
fn at_new_after_dyn(p: &mut Parser<'_>) -> bool
    ensures sees { (c : Condition) → Saw c (wide rows.new_after_dyn) p.old result }
    ensures peeks { Peeks 3 p.old p.new }
{
    if !p.at_whole() {
        return false;
    }
    if p.at_second(SyntaxKind::L_PAREN) {
        return true;
    }
    if !p.at_second(SyntaxKind::FOR_KW) {
        return false;
    }
    if p.at_third(SyntaxKind::L_ANGLE) {
        return true;
    }
    false
}

/// Returns `true` if `dyn` is next as an identifier, before a token that can follow `dyn`.
pub fn at_dyn_word(p: &mut Parser<'_>) -> bool
    ensures sees { (c : Condition) → Saw c rows.dyn_begins p.old result }
    ensures some { IsTrue result → 1 ≤ tokens p.old }
    ensures peeks { Peeks 4 p.old p.new }
{
    if !p.at_contextual(SyntaxKind::DYN_KW) {
        return false;
    }
    match p.nth(1) {
        SyntaxKind::QUESTION
        | SyntaxKind::LIFETIME_IDENT
        | SyntaxKind::IDENT
        | SyntaxKind::SELF_KW
        | SyntaxKind::SUPER_KW
        | SyntaxKind::CRATE_KW
        | SyntaxKind::SELF_TYPE_KW => true,
        _ => {
            if at_new_after_dyn(p) {
                return true;
            }
            false
        }
    }
}

/// Returns `true` if a function pointer type starts here.
pub fn at_fn_ptr(p: &mut Parser<'_>) -> bool
    ensures sees { (c : Condition) → Saw c rows.fn_ptr_begins p.old result }
    ensures some { IsTrue result → 1 ≤ tokens p.old }
    ensures peeks { Peeks 3 p.old p.new }
{
    match p.current() {
        SyntaxKind::FN_KW | SyntaxKind::EXTERN_KW => true,
        SyntaxKind::UNSAFE_KW => {
            if p.at_second(SyntaxKind::FN_KW) {
                return true;
            }
            if p.at_second(SyntaxKind::EXTERN_KW) {
                return true;
            }
            false
        }
        _ => false,
    }
}

/// Returns `true` if a type starts here that only the whole language has, or that may have bounds
/// after it there.
pub fn at_new_type(p: &mut Parser<'_>) -> bool
    ensures sees { (c : Condition) → Saw c (wide rows.new_type_begins) p.old result }
    ensures some { IsTrue result → 1 ≤ tokens p.old }
    ensures peeks { Peeks 7 p.old p.new }
{
    if !p.at_whole() {
        return false;
    }
    if at_path(p) {
        return true;
    }
    match p.current() {
        SyntaxKind::L_ANGLE => true,
        SyntaxKind::LIFETIME_IDENT => {
            if p.at_second(SyntaxKind::PLUS) {
                return true;
            }
            false
        }
        SyntaxKind::FOR_KW => {
            if p.at_second(SyntaxKind::L_ANGLE) {
                return true;
            }
            false
        }
        _ => {
            if at_fn_ptr(p) {
                return true;
            }
            false
        }
    }
}

/// Returns `true` if a type starts here that the whole language reads without the bounds after it.
pub fn at_bare_type(p: &mut Parser<'_>) -> bool
    ensures sees { (c : Condition) → Saw c (wide rows.bare_type_begins) p.old result }
    ensures front { IsTrue result → (c : Condition) → Saw c rows.for_or_path_begins p.old true }
    ensures some { IsTrue result → 1 ≤ tokens p.old }
    ensures peeks { Peeks 8 p.old p.new }
{
    if !p.at_whole() {
        return false;
    }
    match p.current() {
        SyntaxKind::L_ANGLE => true,
        SyntaxKind::FOR_KW => {
            if p.at_second(SyntaxKind::L_ANGLE) {
                return true;
            }
            false
        }
        _ => {
            if !at_path(p) {
                return false;
            }
            if at_dyn_word(p) {
                return false;
            }
            true
        }
    }
}

/// Returns `true` if a type starts here.
pub fn at_type(p: &mut Parser<'_>) -> bool
    ensures sees { (c : Condition) → Saw c (looks rules.any_type) p.old result }
    ensures some { IsTrue result → 1 ≤ tokens p.old }
    ensures peeks { Peeks 16 p.old p.new }
{
    if at_path(p) {
        return true;
    }
    if at_dyn_word(p) {
        return true;
    }
    match p.current() {
        SyntaxKind::L_PAREN
        | SyntaxKind::BANG
        | SyntaxKind::STAR
        | SyntaxKind::L_BRACK
        | SyntaxKind::AMP
        | SyntaxKind::UNDERSCORE
        | SyntaxKind::IMPL_KW
        | SyntaxKind::DYN_KW => true,
        _ => {
            if at_new_type(p) {
                return true;
            }
            false
        }
    }
}

/// Returns `true` if a type starts here that has no bounds after it.
pub fn at_type_no_bounds(p: &mut Parser<'_>) -> bool
    ensures sees { (c : Condition) → Saw c (looks rules.type_no_bounds) p.old result }
    ensures some { IsTrue result → 1 ≤ tokens p.old }
    ensures peeks { Peeks 24 p.old p.new }
{
    if at_bare_type(p) {
        return true;
    }
    if at_type(p) {
        return true;
    }
    false
}

/// Returns `true` if an identifier or a `_` is next.
fn at_ident_or_underscore(p: &mut Parser<'_>) -> bool
    ensures sees { (c : Condition) → Saw c (one_of 0 ('ident' ∷ '_' ∷ [])) p.old result }
    ensures pattern { IsTrue result → (c : Condition)
        → Saw c (looks rules.single_pattern) p.old true }
    ensures some { IsTrue result → 1 ≤ tokens p.old }
    ensures peeks { Peeks 1 p.old p.new }
{
    match p.current() {
        SyntaxKind::IDENT | SyntaxKind::UNDERSCORE => true,
        _ => false,
    }
}

/// Returns `true` if a parameter of a function pointer type starts here with a name.
pub fn at_named_param(p: &mut Parser<'_>) -> bool
    ensures sees { (c : Condition) → Saw c rows.named_param_begins p.old result }
    ensures pattern { IsTrue result → (c : Condition)
        → Saw c (looks rules.single_pattern) p.old true }
    ensures some { IsTrue result → 1 ≤ tokens p.old }
    ensures peeks { Peeks 4 p.old p.new }
{
    if !at_ident_or_underscore(p) {
        return false;
    }
    if !p.at_second(SyntaxKind::COLON) {
        return false;
    }
    if p.at_pair_after(SyntaxKind::COLON, SyntaxKind::COLON) {
        return false;
    }
    true
}

/// Returns `true` if a parameter of a function pointer type starts here.
pub fn at_fn_ptr_param(p: &mut Parser<'_>) -> bool
    ensures sees { (c : Condition) → Saw c (begins looks rows.fn_ptr_param) p.old result }
    ensures peeks { Peeks 24 p.old p.new }
{
    if p.at_new(SyntaxKind::POUND) {
        return true;
    }
    if p.at_dots_dot() {
        return true;
    }
    if at_named_param(p) {
        return true;
    }
    if at_type(p) {
        return true;
    }
    false
}

/// Completes a path as a type, or parses the rest of a macro call in place of a type.
// !(a)
pub fn type_of_path(p: &mut Parser<'_>, frame: Marker) -> Marker
    requires innermost { IsInnermost frame p.old.nodes }
    ensures reads { (c : Condition) → Reads c path_rows.type_of_path p.old p.new }
    ensures asks { AsksIn result 3 p.old p.new }
{
    if at_macro_call(p) {
        p.take(SyntaxKind::BANG);
        expect_token_tree(p);
        return frame.wrap(p, SyntaxKind::MACRO_CALL);
    }
    frame.wrap(p, SyntaxKind::PATH_TYPE)
}

/// Parses the words before the parameters.
// unsafe extern "C" fn
pub fn fn_ptr_words(p: &mut Parser<'_>)
    requires begins { Starts rows.fn_ptr_begins p.old }
    ensures reads { (c : Condition) → Reads c rows.fn_ptr_words p.old p.new }
    ensures takes { Takes 4080 p.old p.new }
{
    match p.current() {
        SyntaxKind::UNSAFE_KW => {
            p.take(SyntaxKind::UNSAFE_KW);
            opt_abi(p);
            p.expect(SyntaxKind::FN_KW);
        }
        SyntaxKind::EXTERN_KW => {
            read_abi(p);
            p.expect(SyntaxKind::FN_KW);
        }
        _ => p.take(SyntaxKind::FN_KW),
    }
}

/// Parses one token, in a node of `kind`.
// _
pub fn word_type(p: &mut Parser<'_>, token: SyntaxKind, kind: SyntaxKind)
    requires { 1 ≤ tokens p.old }
    ensures reads { (c : Condition)
        → Reads c (raw_of kind ⟨ One (one (raw_of token)) ⟩) p.old p.new }
    ensures left { tokens p.new + 1 ≡ tokens p.old }
    ensures looks { spent p.new + 4096 ≡ spent p.old }
{
    let node = p.start();
    p.take(token);
    node.complete(p, kind);
}

/// Parses `const` or `mut`; emits an error if there is neither.
// mut
pub fn const_or_mut(p: &mut Parser<'_>)
    ensures reads { (c : Condition) → Reads c rows.const_or_mut p.old p.new }
    ensures asks { Asks 2 p.old p.new }
{
    if p.at(SyntaxKind::CONST_KW) {
        p.take(SyntaxKind::CONST_KW);
        return;
    }
    p.expect(SyntaxKind::MUT_KW);
}
