//! Items that only the whole language has, and the words before items.

ghost use Rattle.std.specs.Prelude.{◌≤◌};
ghost use Rattle.parser_events.specs.Stack.{IsInnermost};
ghost use Rattle.rust_grammar.specs.Items as rows;
ghost use Rattle.rust_grammar.specs.Notation.{◌!, wide};
ghost use Rattle.rust_productions.specs.Looks.{tokens, Takes, Asks};
ghost use Rattle.rust_productions.specs.Reads.{Completes};
ghost use Rattle.rust_productions.specs.Starts.{Starts};
ghost use Rattle.rust_productions.specs.declared.condition.Condition.{Condition};

use crate::grammar::items::consts::{const_item, static_item, type_alias};
use crate::grammar::items::functions::plain_fn;
use crate::grammar::items::item_list;
use crate::grammar::items::traits::{plain_impl, plain_trait};
use crate::grammar::parts::{Part, expect_part, opt_part};
use parser_events::message::Message;
use parser_input::syntax_kind::SyntaxKind;
use rust_productions::condition::Condition;
use rust_productions::grammar::item_words::{
    at_async_word, at_auto_word, at_const_word, at_extern_crate, at_gen_word, at_macro_rules,
    at_safe_word, at_union, at_unsafe_word, opt_async_word, opt_auto_word, opt_default_words,
    opt_gen_word, opt_safe_word, opt_unsafe_after_default, opt_unsafe_word, read_abi,
};
use rust_productions::grammar::macros::{extern_crate, macro_def, macro_rules};
use rust_productions::grammar::names::name;
use rust_productions::marker::Marker;
use rust_productions::parser::Parser;

/// Parses an item that only the whole language has, or that has words before its own there, and
/// completes its node.
// union U { a: u8 }
#[cycle(grammar)]
pub(crate) fn new_item(p: &mut Parser<'_>, item: Marker, condition: Condition)
    requires begins { Starts (wide rows.new_item_begins) p.old }
    requires innermost { IsInnermost item p.old.nodes }
    ensures completes { Completes condition rows.new_item p.old p.new }
    ensures takes { Takes 3950 p.old p.new }
{
    if at_extern_crate(p) {
        extern_crate(p, item);
        return;
    }
    if at_union(p) {
        union_item(p, item);
        return;
    }
    if at_macro_rules(p) {
        macro_rules(p, item);
        return;
    }
    if p.at(SyntaxKind::MACRO_KW) {
        macro_def(p, item);
        return;
    }
    item_words(p, item, condition);
}

/// Parses a union, and completes its node.
// union U<T> { a: T }
#[cycle(grammar)]
fn union_item(p: &mut Parser<'_>, item: Marker)
    requires some { 2 ≤ tokens p.old }
    requires innermost { IsInnermost item p.old.nodes }
    ensures completes { (c : Condition) → Completes c rows.union_item p.old p.new }
    ensures takes { Takes 4080 p.old p.new }
{
    p.take_contextual(SyntaxKind::UNION_KW);
    name(p);
    opt_part(p, Part::GenericParams);
    opt_part(p, Part::WhereClause);
    expect_part(p, Part::RecordFields);
    item.complete(p, SyntaxKind::UNION);
}

/// Parses an item with words before its own, and completes its node.
// const async unsafe extern "C" fn f() {}
#[cycle(grammar)]
fn item_words(p: &mut Parser<'_>, item: Marker, condition: Condition)
    requires begins { Starts rows.words_begin p.old }
    requires innermost { IsInnermost item p.old.nodes }
    ensures completes { Completes condition rows.item_words p.old p.new }
    ensures takes { Takes 4000 p.old p.new }
{
    if at_const_word(p) {
        p.take(SyntaxKind::CONST_KW);
        words_from_async(p, item, condition);
        return;
    }
    if at_async_word(p) {
        p.take(SyntaxKind::ASYNC_KW);
        words_from_gen(p, item, condition);
        return;
    }
    if at_gen_word(p) {
        p.take(SyntaxKind::GEN_KW);
        words_from_unsafe(p, item, condition);
        return;
    }
    if at_unsafe_word(p) {
        p.take(SyntaxKind::UNSAFE_KW);
        safe_or_abi(p, item, condition);
        return;
    }
    contextual_words(p, item, condition);
}

/// Parses an item that starts with `safe`, an ABI, `auto` or `default`, and completes its node.
// safe extern "C" fn f();
#[cycle(grammar)]
fn contextual_words(p: &mut Parser<'_>, item: Marker, condition: Condition)
    requires begins { Starts rows.contextual_words_begin p.old }
    requires innermost { IsInnermost item p.old.nodes }
    ensures completes { Completes condition rows.safe_or_abi p.old p.new }
    ensures takes { Takes 4020 p.old p.new }
{
    if at_safe_word(p) {
        p.take_contextual(SyntaxKind::SAFE_KW);
        abi_or_words(p, item, condition);
        return;
    }
    if p.at(SyntaxKind::EXTERN_KW) {
        read_abi(p);
        after_abi(p, item, condition);
        return;
    }
    if at_auto_word(p) {
        p.take_contextual(SyntaxKind::AUTO_KW);
        opt_default_words(p);
        item_word(p, item, condition);
        return;
    }
    p.take_contextual(SyntaxKind::DEFAULT_KW);
    p.eat(SyntaxKind::ASYNC_KW);
    opt_unsafe_after_default(p);
    item_word(p, item, condition);
}

/// Parses an item from its optional `async` on, and completes its node.
// async unsafe fn f() {}
#[cycle(grammar)]
fn words_from_async(p: &mut Parser<'_>, item: Marker, condition: Condition)
    requires innermost { IsInnermost item p.old.nodes }
    ensures completes { Completes condition rows.words_from_async p.old p.new }
    ensures asks { Asks 40 p.old p.new }
{
    opt_async_word(p);
    words_from_gen(p, item, condition);
}

/// Parses an item from its optional `gen` on, and completes its node.
// gen fn f() {}
#[cycle(grammar)]
fn words_from_gen(p: &mut Parser<'_>, item: Marker, condition: Condition)
    requires innermost { IsInnermost item p.old.nodes }
    ensures completes { Completes condition rows.words_from_gen p.old p.new }
    ensures asks { Asks 36 p.old p.new }
{
    opt_gen_word(p);
    words_from_unsafe(p, item, condition);
}

/// Parses an item from its optional `unsafe` on, and completes its node.
// unsafe fn f() {}
#[cycle(grammar)]
fn words_from_unsafe(p: &mut Parser<'_>, item: Marker, condition: Condition)
    requires innermost { IsInnermost item p.old.nodes }
    ensures completes { Completes condition rows.words_from_unsafe p.old p.new }
    ensures asks { Asks 33 p.old p.new }
{
    opt_unsafe_word(p);
    safe_or_abi(p, item, condition);
}

/// Parses an item from its optional `safe` on, and completes its node.
// safe fn f();
#[cycle(grammar)]
fn safe_or_abi(p: &mut Parser<'_>, item: Marker, condition: Condition)
    requires innermost { IsInnermost item p.old.nodes }
    ensures completes { Completes condition rows.safe_or_abi p.old p.new }
    ensures asks { Asks 30 p.old p.new }
{
    opt_safe_word(p);
    abi_or_words(p, item, condition);
}

/// Parses an item from its ABI or the words in its place on, and completes its node.
// extern "C" fn f() {}
#[cycle(grammar)]
fn abi_or_words(p: &mut Parser<'_>, item: Marker, condition: Condition)
    requires innermost { IsInnermost item p.old.nodes }
    ensures completes { Completes condition rows.abi_or_words p.old p.new }
    ensures asks { Asks 28 p.old p.new }
{
    if p.at(SyntaxKind::EXTERN_KW) {
        read_abi(p);
        after_abi(p, item, condition);
        return;
    }
    opt_auto_word(p);
    opt_default_words(p);
    item_word(p, item, condition);
}

/// Parses the items of an extern block, or an item after its ABI, and completes its node.
// { fn f(); }
#[cycle(grammar)]
fn after_abi(p: &mut Parser<'_>, item: Marker, condition: Condition)
    requires innermost { IsInnermost item p.old.nodes }
    ensures completes { Completes condition rows.after_abi p.old p.new }
    ensures asks { Asks 12 p.old p.new }
{
    if p.at(SyntaxKind::L_CURLY) {
        item_list(p, SyntaxKind::ITEM_LIST);
        item.complete(p, SyntaxKind::EXTERN_BLOCK);
        return;
    }
    item_word(p, item, condition);
}

/// Parses an item from its own word on, and completes its node; emits an error if there is none.
// fn f() {}
#[cycle(grammar)]
fn item_word(p: &mut Parser<'_>, item: Marker, condition: Condition)
    requires innermost { IsInnermost item p.old.nodes }
    ensures completes { Completes condition rows.item_word p.old p.new }
    ensures asks { Asks 10 p.old p.new }
{
    match p.current() {
        SyntaxKind::FN_KW => plain_fn(p, item),
        SyntaxKind::TRAIT_KW => plain_trait(p, item),
        SyntaxKind::IMPL_KW => plain_impl(p, item),
        SyntaxKind::STATIC_KW => static_item(p, item, condition),
        SyntaxKind::CONST_KW => const_item(p, item, condition),
        SyntaxKind::TYPE_KW => type_alias(p, item, condition),
        _ => {
            p.error(Message::ExpectedItem);
            item.complete(p, SyntaxKind::ERROR);
        }
    }
}
