//! Labels and words before blocks and closures, and what else of an expression only the whole
//! language has.

ghost use Rattle.rust_grammar.specs.Expressions as rows;
ghost use Rattle.rust_grammar.specs.Notation.{◌!, wide};
ghost use Rattle.rust_grammar.specs.Rule as rules;
ghost use Rattle.rust_productions.specs.Looks.{Asks, Peeks, Takes, spent, tokens};
ghost use Rattle.rust_productions.specs.Reads.{Condition, Gives, Reads, Saw, looks};
ghost use Rattle.rust_productions.specs.Starts.{Starts};
ghost use Rattle.std.specs.Prelude.{◌+◌, ◌≡◌, ◌≤◌, IsTrue, true};

use crate::condition::Condition;
use crate::grammar::names::lifetime;
use crate::grammar::token_trees::{expect_token_tree, token_tree};
use crate::parser::Parser;
use parser_input::syntax_kind::SyntaxKind;

/// Returns `true` if an `async` is next that begins a block.
fn at_async_block(p: &mut Parser<'_>) -> bool
    ensures sees { (c : Condition) → Saw c rows.async_block_begins p.old result }
    ensures some { IsTrue result → 1 ≤ tokens p.old }
    ensures peeks { Peeks 3 p.old p.new }
{
    if !p.at(SyntaxKind::ASYNC_KW) {
        return false;
    }
    match p.nth(1) {
        SyntaxKind::L_CURLY | SyntaxKind::GEN_KW => true,
        SyntaxKind::MOVE_KW => {
            if p.at_third(SyntaxKind::L_CURLY) {
                return true;
            }
            false
        }
        _ => false,
    }
}

/// Returns `true` if a `gen` is next that begins a block.
fn at_gen_block(p: &mut Parser<'_>) -> bool
    ensures sees { (c : Condition) → Saw c rows.gen_block_begins p.old result }
    ensures some { IsTrue result → 1 ≤ tokens p.old }
    ensures peeks { Peeks 3 p.old p.new }
{
    if !p.at(SyntaxKind::GEN_KW) {
        return false;
    }
    match p.nth(1) {
        SyntaxKind::L_CURLY => true,
        SyntaxKind::MOVE_KW => {
            if p.at_third(SyntaxKind::L_CURLY) {
                return true;
            }
            false
        }
        _ => false,
    }
}

/// Returns `true` if an expression starts here that ends in a block and that only the whole language
/// has: at a label, or at words before a block.
#[inline(always)]
pub fn at_new_block(p: &mut Parser<'_>) -> bool
    ensures sees { (c : Condition) → Saw c (wide rows.new_block_begins) p.old result }
    ensures some { IsTrue result → 1 ≤ tokens p.old }
    ensures peeks { Peeks 4 p.old p.new }
{
    if !p.at_whole() {
        return false;
    }
    match p.current() {
        SyntaxKind::LIFETIME_IDENT => {
            if p.at_second(SyntaxKind::COLON) {
                return true;
            }
            false
        }
        SyntaxKind::CONST_KW | SyntaxKind::TRY_KW => {
            if p.at_second(SyntaxKind::L_CURLY) {
                return true;
            }
            false
        }
        SyntaxKind::ASYNC_KW => {
            if at_async_block(p) {
                return true;
            }
            false
        }
        _ => {
            if at_gen_block(p) {
                return true;
            }
            false
        }
    }
}

/// Returns `true` if a `const` is next that begins a closure.
fn at_const_closure(p: &mut Parser<'_>) -> bool
    ensures sees { (c : Condition) → Saw c rows.const_closure_begins p.old result }
    ensures some { IsTrue result → 1 ≤ tokens p.old }
    ensures peeks { Peeks 2 p.old p.new }
{
    if !p.at(SyntaxKind::CONST_KW) {
        return false;
    }
    match p.nth(1) {
        SyntaxKind::PIPE | SyntaxKind::MOVE_KW | SyntaxKind::ASYNC_KW | SyntaxKind::STATIC_KW =>
            true,
        _ => false,
    }
}

/// Returns `true` if an expression without prefix operators starts here that only the whole language
/// has: at `let`, at the `<` of a qualified path, at `_`, or at words before a closure.
#[inline(always)]
pub fn at_new_atom(p: &mut Parser<'_>) -> bool
    ensures sees { (c : Condition) → Saw c (wide rows.new_atom_begins) p.old result }
    ensures some { IsTrue result → 1 ≤ tokens p.old }
    ensures peeks { Peeks 3 p.old p.new }
{
    if !p.at_whole() {
        return false;
    }
    match p.current() {
        SyntaxKind::LET_KW
        | SyntaxKind::UNDERSCORE
        | SyntaxKind::ASYNC_KW
        | SyntaxKind::STATIC_KW => true,
        SyntaxKind::L_ANGLE => {
            if p.at_second(SyntaxKind::EQ) {
                return false;
            }
            true
        }
        SyntaxKind::FOR_KW => {
            if p.at_second(SyntaxKind::L_ANGLE) {
                return true;
            }
            false
        }
        _ => {
            if at_const_closure(p) {
                return true;
            }
            false
        }
    }
}

/// Parses the label after `break` or `continue`, in the whole language, if there is one.
// 'a
pub fn opt_jump_label(p: &mut Parser<'_>)
    ensures reads { (c : Condition) → Reads c rows.jump_label p.old p.new }
    ensures asks { Asks 1 p.old p.new }
{
    if p.at_new(SyntaxKind::LIFETIME_IDENT) {
        lifetime(p);
    }
}

/// Parses the label before a loop or a block.
// 'a:
pub fn label(p: &mut Parser<'_>)
    requires some { 1 ≤ tokens p.old }
    ensures reads { (c : Condition) → Reads c rows.label p.old p.new }
    ensures takes { Takes 4090 p.old p.new }
{
    let label = p.start();
    lifetime(p);
    p.expect(SyntaxKind::COLON);
    label.complete(p, SyntaxKind::LABEL);
}

/// Takes `gen` and `move` before a closure, or before a block after `async`, if they are there.
// gen move
pub fn opt_gen_move(p: &mut Parser<'_>)
    ensures reads { (c : Condition) → Reads c rows.gen_move p.old p.new }
    ensures asks { Asks 2 p.old p.new }
{
    p.eat(SyntaxKind::GEN_KW);
    p.eat(SyntaxKind::MOVE_KW);
}

/// Takes the words before a closure that stand there from `async` on, if they are there.
// async move
pub fn opt_async_to_move(p: &mut Parser<'_>)
    ensures reads { (c : Condition) → Reads c rows.async_to_move p.old p.new }
    ensures asks { Asks 3 p.old p.new }
{
    p.eat(SyntaxKind::ASYNC_KW);
    opt_gen_move(p);
}

/// Takes the words before a closure that stand there from `static` on, if they are there.
// static move
pub fn opt_static_to_move(p: &mut Parser<'_>)
    ensures reads { (c : Condition) → Reads c rows.static_to_move p.old p.new }
    ensures asks { Asks 4 p.old p.new }
{
    p.eat(SyntaxKind::STATIC_KW);
    opt_async_to_move(p);
}

/// Takes the words before a closure that stand there from `const` on, if they are there.
// const move
pub fn opt_const_to_move(p: &mut Parser<'_>)
    ensures reads { (c : Condition) → Reads c rows.const_to_move p.old p.new }
    ensures asks { Asks 5 p.old p.new }
{
    p.eat(SyntaxKind::CONST_KW);
    opt_static_to_move(p);
}

/// Takes `async` and the words after it before a closure or a block.
// async move
pub fn words_from_async(p: &mut Parser<'_>)
    requires some { 1 ≤ tokens p.old }
    ensures reads { (c : Condition) → Reads c rows.words_from_async p.old p.new }
    ensures takes { Takes 4090 p.old p.new }
{
    p.take(SyntaxKind::ASYNC_KW);
    opt_gen_move(p);
}

/// Takes `static` and the words after it before a closure.
// static move
pub fn words_from_static(p: &mut Parser<'_>)
    requires some { 1 ≤ tokens p.old }
    ensures reads { (c : Condition) → Reads c rows.words_from_static p.old p.new }
    ensures takes { Takes 4090 p.old p.new }
{
    p.take(SyntaxKind::STATIC_KW);
    opt_async_to_move(p);
}

/// Takes `const` and the words after it before a closure.
// const move
pub fn words_from_const(p: &mut Parser<'_>)
    requires some { 1 ≤ tokens p.old }
    ensures reads { (c : Condition) → Reads c rows.words_from_const p.old p.new }
    ensures takes { Takes 4090 p.old p.new }
{
    p.take(SyntaxKind::CONST_KW);
    opt_static_to_move(p);
}

/// Takes `gen` and the `move` after it before a block.
// gen move
fn words_from_gen(p: &mut Parser<'_>)
    requires some { 1 ≤ tokens p.old }
    ensures reads { (c : Condition) → Reads c rows.words_from_gen p.old p.new }
    ensures takes { Takes 4090 p.old p.new }
{
    p.take(SyntaxKind::GEN_KW);
    p.eat(SyntaxKind::MOVE_KW);
}

/// Takes the words before a block.
// async move
pub fn block_words(p: &mut Parser<'_>)
    requires some { 1 ≤ tokens p.old }
    ensures reads { (c : Condition) → Reads c rows.block_words p.old p.new }
    ensures takes { Takes 4080 p.old p.new }
{
    match p.current() {
        SyntaxKind::CONST_KW => p.take(SyntaxKind::CONST_KW),
        SyntaxKind::TRY_KW => p.take(SyntaxKind::TRY_KW),
        SyntaxKind::ASYNC_KW => words_from_async(p),
        _ => words_from_gen(p),
    }
}

/// Parses the `!` and the token tree of a macro call.
// !(a, b)
pub fn macro_call(p: &mut Parser<'_>)
    requires { 1 ≤ tokens p.old }
    ensures reads { (c : Condition) → Reads c rows.macro_tail p.old p.new }
    ensures takes { Takes 4090 p.old p.new }
{
    p.take(SyntaxKind::BANG);
    expect_token_tree(p);
}

/// Parses a path of one identifier, before the `!` of a macro call with braces.
// m
pub fn word_path(p: &mut Parser<'_>)
    requires begins { Starts rows.macro_block_begins p.old }
    ensures gives { (c : Condition) → Gives rules.expr_path c p.old p.new }
    ensures left { tokens p.new + 1 ≡ tokens p.old }
    ensures looks { spent p.new + 4096 ≡ spent p.old }
{
    let frame = p.start();
    let path = p.start();
    let segment = p.start();
    let name = p.start();
    p.take(SyntaxKind::IDENT);
    name.complete(p, SyntaxKind::NAME_REF);
    segment.complete(p, SyntaxKind::PATH_SEGMENT);
    path.complete(p, SyntaxKind::PATH);
    frame.abandon(p);
}

/// Parses a macro call with braces.
// m! { a }
pub fn macro_block(p: &mut Parser<'_>)
    requires begins { (c : Condition) → Saw c rows.macro_block_begins p.old true }
    requires some { 3 ≤ tokens p.old }
    ensures reads { (c : Condition) → Reads c rows.macro_block p.old p.new }
    ensures takes { Takes 4080 p.old p.new }
{
    let node = p.start();
    let call = p.start();
    word_path(p);
    p.take(SyntaxKind::BANG);
    token_tree(p);
    call.complete(p, SyntaxKind::MACRO_CALL);
    node.complete(p, SyntaxKind::MACRO_EXPR);
}
