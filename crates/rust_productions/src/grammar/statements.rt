//! Where statements start that are items, or that only the whole language has.

ghost use Rattle.rust_grammar.specs.Expressions.{goes_on};
ghost use Rattle.rust_grammar.specs.Notation.{◌before◌, one_of, wide};
ghost use Rattle.rust_grammar.specs.Rule.{Both, Not, Whole};
ghost use Rattle.rust_grammar.specs.Statements as rows;
ghost use Rattle.rust_grammar.specs.Words.{'!', '#', 'async', 'fn', 'impl', 'move', 'trait', '|'};
ghost use Rattle.rust_productions.specs.Looks.{Peeks, tokens};
ghost use Rattle.rust_productions.specs.Reads.{Condition, Saw};
ghost use Rattle.std.specs.Prelude.{◌<◌, ◌∷◌, ◌≤◌, IsTrue, [], true};

use crate::condition::Condition;
use crate::grammar::item_words::at_new_item;
use crate::grammar::match_arms::at_long_path;
use crate::parser::Parser;
use parser_input::syntax_kind::SyntaxKind;

/// Returns `true` if an item of both languages starts here, among statements.
#[inline(always)]
pub fn at_item(p: &mut Parser<'_>) -> bool
    ensures sees { (c : Condition) → Saw c rows.item_begins p.old result }
    ensures some { IsTrue result → 1 ≤ tokens p.old }
    ensures peeks { Peeks 2 p.old p.new }
{
    match p.current() {
        SyntaxKind::POUND
        | SyntaxKind::PUB_KW
        | SyntaxKind::MOD_KW
        | SyntaxKind::USE_KW
        | SyntaxKind::STRUCT_KW
        | SyntaxKind::ENUM_KW
        | SyntaxKind::FN_KW
        | SyntaxKind::CONST_KW
        | SyntaxKind::STATIC_KW
        | SyntaxKind::TYPE_KW
        | SyntaxKind::IMPL_KW
        | SyntaxKind::TRAIT_KW => true,
        SyntaxKind::UNSAFE_KW => {
            if at_item_after_unsafe(p) {
                return true;
            }
            false
        }
        _ => false,
    }
}

/// Returns `true` if the token after the next one is `fn`, `impl` or `trait`.
fn at_item_after_unsafe(p: &mut Parser<'_>) -> bool
    ensures sees { (c : Condition) → Saw c (one_of 1 ('fn' ∷ 'impl' ∷ 'trait' ∷ [])) p.old result }
    ensures peeks { Peeks 1 p.old p.new }
{
    match p.nth(1) {
        SyntaxKind::FN_KW | SyntaxKind::IMPL_KW | SyntaxKind::TRAIT_KW => true,
        _ => false,
    }
}

/// Returns `true` if an item of the profile starts here, among statements, and the profile is read.
pub fn at_profile_item(p: &mut Parser<'_>) -> bool
    ensures sees { (c : Condition) → Saw c (Both rows.item_begins (Not (Whole 0))) p.old result }
    ensures some { IsTrue result → 1 ≤ tokens p.old }
    ensures peeks { Peeks 2 p.old p.new }
{
    if p.at_whole() {
        return false;
    }
    if at_item(p) {
        return true;
    }
    false
}

/// Returns `true` if a `let` after `super` starts here.
// super let
pub fn at_super_let(p: &mut Parser<'_>) -> bool
    ensures sees { (c : Condition) → Saw c rows.super_let_begins p.old result }
    ensures some { IsTrue result → 2 ≤ tokens p.old }
    ensures peeks { Peeks 2 p.old p.new }
{
    if !p.at(SyntaxKind::SUPER_KW) {
        return false;
    }
    if p.at_second(SyntaxKind::LET_KW) {
        return true;
    }
    false
}

/// Returns `true` if the token after `static` begins a closure.
fn at_closure_after_static(p: &mut Parser<'_>) -> bool
    ensures sees { (c : Condition) → Saw c (one_of 1 ('|' ∷ 'move' ∷ 'async' ∷ [])) p.old result }
    ensures peeks { Peeks 1 p.old p.new }
{
    match p.nth(1) {
        SyntaxKind::PIPE | SyntaxKind::MOVE_KW | SyntaxKind::ASYNC_KW => true,
        _ => false,
    }
}

/// Returns `true` if a const block starts here, or a closure after `static`: neither is an item.
// const {
fn at_no_item(p: &mut Parser<'_>) -> bool
    ensures sees { (c : Condition) → Saw c rows.no_item_begins p.old result }
    ensures peeks { Peeks 2 p.old p.new }
{
    match p.current() {
        SyntaxKind::CONST_KW => {
            if p.at_second(SyntaxKind::L_CURLY) {
                return true;
            }
            false
        }
        SyntaxKind::STATIC_KW => {
            if at_closure_after_static(p) {
                return true;
            }
            false
        }
        _ => false,
    }
}

/// Returns `true` if an item starts here, among statements of the whole language.
fn at_any_item(p: &mut Parser<'_>) -> bool
    ensures sees { (c : Condition) → Saw c (wide rows.any_item_begins) p.old result }
    ensures some { IsTrue result → 1 ≤ tokens p.old }
    ensures peeks { Peeks 24 p.old p.new }
{
    if !p.at_whole() {
        return false;
    }
    if at_no_item(p) {
        return false;
    }
    if at_item(p) {
        return true;
    }
    if at_new_item(p) {
        return true;
    }
    false
}

/// Returns `true` if a statement starts here that only the whole language has, or an item there.
pub fn at_new_statement(p: &mut Parser<'_>) -> bool
    ensures sees { (c : Condition) → Saw c (wide rows.new_statement_begins) p.old result }
    ensures some { IsTrue result → 1 ≤ tokens p.old }
    ensures peeks { Peeks 32 p.old p.new }
{
    if !p.at_whole() {
        return false;
    }
    if at_long_path(p) {
        return true;
    }
    if at_super_let(p) {
        return true;
    }
    if at_any_item(p) {
        return true;
    }
    false
}

/// Returns `true` if an item starts here after attributes, among statements of the whole language.
// pub fn
pub fn at_item_after_attributes(p: &mut Parser<'_>) -> bool
    ensures sees { (c : Condition) → Saw c (wide rows.item_after_attributes_begins) p.old result }
    ensures some { IsTrue result → 1 ≤ tokens p.old }
    ensures peeks { Peeks 30 p.old p.new }
{
    if !p.at_whole() {
        return false;
    }
    if p.at(SyntaxKind::POUND) {
        return false;
    }
    if at_any_item(p) {
        return true;
    }
    false
}

/// Returns `true` if an inner attribute is next.
pub fn at_inner_attribute(p: &mut Parser<'_>) -> bool
    ensures sees { (c : Condition) → Saw c ('#' before '!') p.old result }
    ensures some { IsTrue result → 1 ≤ tokens p.old }
    ensures peeks { Peeks 2 p.old p.new }
{
    if !p.at(SyntaxKind::POUND) {
        return false;
    }
    p.at_second(SyntaxKind::BANG)
}

/// Returns `true` if an expression that ends in a block continues: with a `?`, or with a dot that
/// starts no range.
#[inline(always)]
pub fn at_more(p: &mut Parser<'_>) -> bool
    ensures sees { (c : Condition) → Saw c goes_on p.old result }
    ensures some { IsTrue result → 1 ≤ tokens p.old }
    ensures peeks { Peeks 3 p.old p.new }
{
    match p.current() {
        SyntaxKind::QUESTION => true,
        SyntaxKind::DOT => {
            if p.at_pair(SyntaxKind::DOT, SyntaxKind::DOT) {
                return false;
            }
            true
        }
        _ => false,
    }
}
