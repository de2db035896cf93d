//! The words before an item, in the whole language.

ghost use Rattle.std.specs.Prelude.{◌≤◌, IsTrue, [], ◌∷◌};
ghost use Rattle.rust_grammar.specs.Items as rows;
ghost use Rattle.rust_grammar.specs.Notation.{◌▸◌, ⁅◌⁆, ◌before◌, ◌before_any◌, wide};
ghost use Rattle.rust_grammar.specs.Rule.{One, When};
ghost use Rattle.rust_grammar.specs.Shared.{abi};
ghost use Rattle.rust_grammar.specs.Words.{'async', 'const', 'contextual_auto', 'contextual_safe', 'crate', 'extern', 'fn', 'gen', 'impl', 'unsafe'};
ghost use Rattle.rust_productions.specs.Looks.{tokens, Takes, Asks, Peeks};
ghost use Rattle.rust_productions.specs.Reads.{Reads, Saw, Condition};

use crate::parser::Parser;
use parser_input::syntax_kind::SyntaxKind;

/// Returns `true` if a `const` is next that is a word before an item.
pub fn at_const_word(p: &mut Parser<'_>) -> bool
    ensures sees { (c : Condition) → Saw c rows.const_word p.old result }
    ensures some { IsTrue result → 1 ≤ tokens p.old }
    ensures peeks { Peeks 2 p.old p.new }
{
    if !p.at(SyntaxKind::CONST_KW) {
        return false;
    }
    match p.nth(1) {
        SyntaxKind::ASYNC_KW
        | SyntaxKind::UNSAFE_KW
        | SyntaxKind::EXTERN_KW
        | SyntaxKind::GEN_KW
        | SyntaxKind::FN_KW
        | SyntaxKind::TRAIT_KW
        | SyntaxKind::IMPL_KW => true,
        _ => false,
    }
}

/// Returns `true` if an `async` is next that is a word before an item.
pub fn at_async_word(p: &mut Parser<'_>) -> bool
    ensures sees { (c : Condition) → Saw c rows.async_word p.old result }
    ensures some { IsTrue result → 1 ≤ tokens p.old }
    ensures peeks { Peeks 3 p.old p.new }
{
    if !p.at(SyntaxKind::ASYNC_KW) {
        return false;
    }
    match p.nth(1) {
        SyntaxKind::FN_KW | SyntaxKind::UNSAFE_KW | SyntaxKind::EXTERN_KW => true,
        SyntaxKind::GEN_KW => {
            if p.at_third(SyntaxKind::FN_KW) {
                return true;
            }
            false
        }
        _ => false,
    }
}

/// Returns `true` if `gen fn` is next.
pub fn at_gen_word(p: &mut Parser<'_>) -> bool
    ensures sees { (c : Condition) → Saw c rows.gen_word p.old result }
    ensures some { IsTrue result → 1 ≤ tokens p.old }
    ensures peeks { Peeks 2 p.old p.new }
{
    if !p.at(SyntaxKind::GEN_KW) {
        return false;
    }
    if p.at_second(SyntaxKind::FN_KW) {
        return true;
    }
    false
}

/// Returns `true` if an `unsafe` is next that is a word before an item.
pub fn at_unsafe_word(p: &mut Parser<'_>) -> bool
    ensures sees { (c : Condition) → Saw c rows.unsafe_word p.old result }
    ensures some { IsTrue result → 1 ≤ tokens p.old }
    ensures peeks { Peeks 2 p.old p.new }
{
    if !p.at(SyntaxKind::UNSAFE_KW) {
        return false;
    }
    match p.nth(1) {
        SyntaxKind::FN_KW
        | SyntaxKind::IMPL_KW
        | SyntaxKind::TRAIT_KW
        | SyntaxKind::EXTERN_KW
        | SyntaxKind::STATIC_KW
        | SyntaxKind::CONST_KW
        | SyntaxKind::TYPE_KW => true,
        _ => {
            if p.at_second_contextual(SyntaxKind::AUTO_KW) {
                return true;
            }
            if p.at_second_contextual(SyntaxKind::DEFAULT_KW) {
                return true;
            }
            false
        }
    }
}

/// Returns `true` if `safe` is next as a word before an item.
pub fn at_safe_word(p: &mut Parser<'_>) -> bool
    ensures sees { (c : Condition) → Saw c rows.safe_word p.old result }
    ensures some { IsTrue result → 1 ≤ tokens p.old }
    ensures peeks { Peeks 1 p.old p.new }
{
    if !p.at_contextual(SyntaxKind::SAFE_KW) {
        return false;
    }
    match p.nth(1) {
        SyntaxKind::FN_KW | SyntaxKind::STATIC_KW | SyntaxKind::EXTERN_KW => true,
        _ => false,
    }
}

/// Returns `true` if `auto` is next as a word before a trait.
pub fn at_auto_word(p: &mut Parser<'_>) -> bool
    ensures sees { (c : Condition) → Saw c rows.auto_word p.old result }
    ensures some { IsTrue result → 1 ≤ tokens p.old }
    ensures peeks { Peeks 1 p.old p.new }
{
    if !p.at_contextual(SyntaxKind::AUTO_KW) {
        return false;
    }
    if p.at_second(SyntaxKind::TRAIT_KW) {
        return true;
    }
    false
}

/// Returns `true` if `default` is next as a word before an item.
fn at_default_word(p: &mut Parser<'_>) -> bool
    ensures sees { (c : Condition) → Saw c rows.default_word p.old result }
    ensures some { IsTrue result → 1 ≤ tokens p.old }
    ensures peeks { Peeks 1 p.old p.new }
{
    if !p.at_contextual(SyntaxKind::DEFAULT_KW) {
        return false;
    }
    match p.nth(1) {
        SyntaxKind::FN_KW
        | SyntaxKind::TYPE_KW
        | SyntaxKind::CONST_KW
        | SyntaxKind::IMPL_KW
        | SyntaxKind::UNSAFE_KW
        | SyntaxKind::ASYNC_KW => true,
        _ => false,
    }
}

/// Returns `true` if an `extern` is next, and no `crate` after it.
fn at_extern_word(p: &mut Parser<'_>) -> bool
    ensures sees { (c : Condition) → Saw c rows.extern_word p.old result }
    ensures some { IsTrue result → 1 ≤ tokens p.old }
    ensures peeks { Peeks 2 p.old p.new }
{
    if !p.at(SyntaxKind::EXTERN_KW) {
        return false;
    }
    if p.at_second(SyntaxKind::CRATE_KW) {
        return false;
    }
    true
}

/// Returns `true` if an item starts here with words before its own.
fn at_words(p: &mut Parser<'_>) -> bool
    ensures sees { (c : Condition) → Saw c rows.words_begin p.old result }
    ensures some { IsTrue result → 1 ≤ tokens p.old }
    ensures peeks { Peeks 14 p.old p.new }
{
    if at_auto_word(p) {
        return true;
    }
    if at_default_word(p) {
        return true;
    }
    if at_safe_word(p) {
        return true;
    }
    if at_const_word(p) {
        return true;
    }
    if at_async_word(p) {
        return true;
    }
    if at_gen_word(p) {
        return true;
    }
    if at_unsafe_word(p) {
        return true;
    }
    if at_extern_word(p) {
        return true;
    }
    false
}

/// Returns `true` if `extern crate` is next.
pub fn at_extern_crate(p: &mut Parser<'_>) -> bool
    ensures sees { (c : Condition) → Saw c ('extern' before 'crate') p.old result }
    ensures some { IsTrue result → 2 ≤ tokens p.old }
    ensures peeks { Peeks 2 p.old p.new }
{
    if !p.at(SyntaxKind::EXTERN_KW) {
        return false;
    }
    if p.at_second(SyntaxKind::CRATE_KW) {
        return true;
    }
    false
}

/// Returns `true` if a union starts here: at `union` before a name.
pub fn at_union(p: &mut Parser<'_>) -> bool
    ensures sees { (c : Condition) → Saw c rows.union_begins p.old result }
    ensures some { IsTrue result → 2 ≤ tokens p.old }
    ensures peeks { Peeks 1 p.old p.new }
{
    if !p.at_contextual(SyntaxKind::UNION_KW) {
        return false;
    }
    if p.at_second(SyntaxKind::IDENT) {
        return true;
    }
    false
}

/// Returns `true` if a definition of a macro starts here: at `macro_rules!` before a name.
pub fn at_macro_rules(p: &mut Parser<'_>) -> bool
    ensures sees { (c : Condition) → Saw c rows.macro_rules_begins p.old result }
    ensures some { IsTrue result → 3 ≤ tokens p.old }
    ensures peeks { Peeks 2 p.old p.new }
{
    if !p.at_contextual(SyntaxKind::MACRO_RULES_KW) {
        return false;
    }
    if !p.at_second(SyntaxKind::BANG) {
        return false;
    }
    if p.at_third(SyntaxKind::IDENT) {
        return true;
    }
    false
}

/// Returns `true` if an item starts here that only the whole language has, or that has words before
/// its own there.
pub fn at_new_item(p: &mut Parser<'_>) -> bool
    ensures sees { (c : Condition) → Saw c (wide rows.new_item_begins) p.old result }
    ensures some { IsTrue result → 1 ≤ tokens p.old }
    ensures peeks { Peeks 20 p.old p.new }
{
    if !p.at_whole() {
        return false;
    }
    if at_extern_crate(p) {
        return true;
    }
    if at_union(p) {
        return true;
    }
    if at_macro_rules(p) {
        return true;
    }
    if p.at(SyntaxKind::MACRO_KW) {
        return true;
    }
    if at_words(p) {
        return true;
    }
    false
}

/// Returns `true` if an `unsafe` is next that follows `default`.
fn at_unsafe_after_default(p: &mut Parser<'_>) -> bool
    ensures sees { (c : Condition) → Saw c ('unsafe' before_any ('fn' ∷ 'impl' ∷ [])) p.old result }
    ensures some { IsTrue result → 1 ≤ tokens p.old }
    ensures peeks { Peeks 2 p.old p.new }
{
    if !p.at(SyntaxKind::UNSAFE_KW) {
        return false;
    }
    match p.nth(1) {
        SyntaxKind::FN_KW | SyntaxKind::IMPL_KW => true,
        _ => false,
    }
}

/// Parses an optional `async` before an item.
// async
pub fn opt_async_word(p: &mut Parser<'_>)
    ensures reads { (c : Condition) → Reads c ⁅ When rows.async_word (One 'async') ⁆ p.old p.new }
    ensures asks { Asks 3 p.old p.new }
{
    if at_async_word(p) {
        p.take(SyntaxKind::ASYNC_KW);
    }
}

/// Parses an optional `gen` before an item.
// gen
pub fn opt_gen_word(p: &mut Parser<'_>)
    ensures reads { (c : Condition) → Reads c ⁅ When rows.gen_word (One 'gen') ⁆ p.old p.new }
    ensures asks { Asks 2 p.old p.new }
{
    if at_gen_word(p) {
        p.take(SyntaxKind::GEN_KW);
    }
}

/// Parses an optional `unsafe` before an item.
// unsafe
pub fn opt_unsafe_word(p: &mut Parser<'_>)
    ensures reads { (c : Condition) → Reads c ⁅ When rows.unsafe_word (One 'unsafe') ⁆ p.old p.new }
    ensures asks { Asks 2 p.old p.new }
{
    if at_unsafe_word(p) {
        p.take(SyntaxKind::UNSAFE_KW);
    }
}

/// Parses an optional `safe` before an item.
// safe
pub fn opt_safe_word(p: &mut Parser<'_>)
    ensures reads { (c : Condition)
        → Reads c ⁅ When rows.safe_word (One 'contextual_safe') ⁆ p.old p.new }
    ensures asks { Asks 1 p.old p.new }
{
    if at_safe_word(p) {
        p.take_contextual(SyntaxKind::SAFE_KW);
    }
}

/// Parses an optional `auto` before an item.
// auto
pub fn opt_auto_word(p: &mut Parser<'_>)
    ensures reads { (c : Condition)
        → Reads c ⁅ When rows.auto_word (One 'contextual_auto') ⁆ p.old p.new }
    ensures asks { Asks 1 p.old p.new }
{
    if at_auto_word(p) {
        p.take_contextual(SyntaxKind::AUTO_KW);
    }
}

/// Parses an optional `unsafe` after `default`.
// unsafe
pub fn opt_unsafe_after_default(p: &mut Parser<'_>)
    ensures reads { (c : Condition) → Reads c rows.unsafe_after_default p.old p.new }
    ensures asks { Asks 2 p.old p.new }
{
    if at_unsafe_after_default(p) {
        p.take(SyntaxKind::UNSAFE_KW);
    }
}

/// Parses an optional `default` before an item, and the words after it.
// default unsafe
pub fn opt_default_words(p: &mut Parser<'_>)
    ensures reads { (c : Condition) → Reads c rows.default_words p.old p.new }
    ensures asks { Asks 1 p.old p.new }
{
    if at_default_word(p) {
        p.take_contextual(SyntaxKind::DEFAULT_KW);
        p.eat(SyntaxKind::ASYNC_KW);
        opt_unsafe_after_default(p);
    }
}

/// Parses an ABI.
// extern "C"
pub fn read_abi(p: &mut Parser<'_>)
    requires some { 1 ≤ tokens p.old }
    ensures reads { (c : Condition) → Reads c abi p.old p.new }
    ensures takes { Takes 4090 p.old p.new }
{
    let node = p.start();
    p.take(SyntaxKind::EXTERN_KW);
    p.eat(SyntaxKind::STRING);
    node.complete(p, SyntaxKind::ABI);
}

/// Parses an optional ABI.
// extern "C"
pub fn opt_abi(p: &mut Parser<'_>)
    ensures reads { (c : Condition) → Reads c ⁅ abi ⁆ p.old p.new }
    ensures asks { Asks 1 p.old p.new }
{
    if p.at(SyntaxKind::EXTERN_KW) {
        read_abi(p);
    }
}
