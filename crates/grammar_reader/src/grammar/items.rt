//! Items.

ghost use Rattle.std.specs.Prelude.{◌≡◌, ◌≤◌, IsTrue, true, false};
ghost use Rattle.parser_input.specs.Kind.{raw_of};
ghost use Rattle.parser_input.specs.Kinds.{PUB_KW};
ghost use Rattle.parser_events.specs.Stack.{IsInnermost};
ghost use Rattle.grammar_reader.specs.Told.{ends_of, item_or_attribute};
ghost use Rattle.rust_grammar.specs.Calls.{Attribute, Visibility};
ghost use Rattle.rust_grammar.specs.Items.{items_in_braces, items_until};
ghost use Rattle.rust_grammar.specs.Notation.{◌▸◌, ⁅◌⁆, ◌*, ◌⟨◌⟩};
ghost use Rattle.rust_grammar.specs.Rule as rules;
ghost use Rattle.rust_grammar.specs.Rule.{Kind, Unless};
ghost use Rattle.rust_grammar.specs.Whole.{rule};
ghost use Rattle.rust_grammar.specs.Items as rows;
ghost use Rattle.rust_productions.specs.Looks.{tokens, Takes, Asks, TakesUnless};
ghost use Rattle.rust_productions.specs.Reads.{looks, FromStart, Completes, CompletesWhere, Gives, Reads, Saw};
ghost use Rattle.rust_productions.specs.Turns.{TakesTurn};
ghost use Rattle.rust_productions.specs.Moves.{Keeps};
ghost use Rattle.rust_productions.specs.declared.condition.Condition.{Condition};
ghost use Rattle.rust_productions.specs.declared.condition.Condition.TheVariants.{Off};
ghost use Rattle.grammar_reader.specs.Next.{IsBare};

use crate::grammar::attributes::attribute;
use crate::grammar::items::adt::{enum_item, struct_item};
use crate::grammar::items::consts::{const_item, static_item, type_alias};
use crate::grammar::items::functions::fn_item;
use crate::grammar::items::new_items::new_item;
use crate::grammar::items::traits::{impl_item, trait_item};
use crate::grammar::list_end::{ListEnd, at_end_of};
use parser_input::syntax_kind::SyntaxKind;
use rust_productions::condition::Condition;
use rust_productions::grammar::item_words::at_new_item;
use rust_productions::grammar::items::{at_fn, at_unsafe, no_item, path_item, use_item};
use rust_productions::grammar::names::expect_name;
use rust_productions::grammar::paths::at_path;
use rust_productions::grammar::statements::at_inner_attribute;
use rust_productions::grammar::visibility::{opt_visibility, visibility};
use rust_productions::marker::Marker;
use rust_productions::parser::Parser;

pub(crate) mod adt;
pub(crate) mod consts;
pub(crate) mod functions;
pub(crate) mod members;
pub(crate) mod new_items;
pub(crate) mod traits;

/// Parses an item.
// #[a] pub fn f() {}
#[cycle(grammar)]
pub(crate) fn item(p: &mut Parser<'_>, condition: Condition)
    requires some { 1 ≤ tokens p.old }
    ensures gives { Gives rules.item condition p.old p.new }
    ensures takes { Takes 2900 p.old p.new }
{
    match p.current() {
        SyntaxKind::POUND => attributed_item(p, condition),
        SyntaxKind::PUB_KW => visible_item(p, condition),
        _ => bare_item(p, condition),
    }
}

/// Parses an item that starts with an attribute.
// #[a] pub fn f() {}
#[cycle(grammar)]
fn attributed_item(p: &mut Parser<'_>, condition: Condition)
    requires begins { (c : Condition) → Saw c (looks rules.attribute) p.old true }
    requires some { 1 ≤ tokens p.old }
    ensures from_start { FromStart condition (rule rules.item) p.old p.new }
    ensures takes { Takes 4000 p.old p.new }
{
    let item = p.start();
    attributes_and_visibility(p);
    body(p, item, true, condition);
}

/// Parses an item that starts with a visibility.
// pub fn f() {}
#[cycle(grammar)]
fn visible_item(p: &mut Parser<'_>, condition: Condition)
    requires begins { (c : Condition) → Saw c (Kind 0 PUB_KW) p.old true }
    requires some { 1 ≤ tokens p.old }
    ensures from_start { FromStart condition (rule rules.item) p.old p.new }
    ensures takes { Takes 4000 p.old p.new }
{
    let item = p.start();
    visibility(p);
    body(p, item, true, condition);
}

/// Parses an item without attributes and without a visibility.
// fn f() {}
#[cycle(grammar)]
fn bare_item(p: &mut Parser<'_>, condition: Condition)
    requires bare { IsBare p.old }
    ensures from_start { FromStart condition (rule rules.item) p.old p.new }
    ensures takes { Takes 2910 p.old p.new }
{
    let item = p.start();
    body(p, item, false, condition);
}

/// Parses attributes.
// #[a] #[b]
#[cycle(grammar)]
pub(crate) fn attributes(p: &mut Parser<'_>)
    ensures reads { (c : Condition) → Reads c (Attribute *) p.old p.new }
    ensures asks { Asks 1 p.old p.new }
{
    'turns: while p.at(SyntaxKind::POUND) {
        attribute(p);
    }
}

/// Parses one or more attributes and an optional visibility.
// #[a] pub
#[cycle(grammar)]
pub(crate) fn attributes_and_visibility(p: &mut Parser<'_>)
    requires begins { (c : Condition) → Saw c (looks rules.attribute) p.old true }
    requires some { 1 ≤ tokens p.old }
    ensures reads { (c : Condition) → Reads c (Attribute * ▸ ⁅ Visibility ⁆) p.old p.new }
    ensures takes { Takes 4070 p.old p.new }
{
    attribute(p);
    attributes(p);
    opt_visibility(p);
}

/// Parses an item after its attributes and its visibility, and completes its node. `given` is
/// `true` if it has some.
// fn f() {}
#[cycle(grammar)]
pub(crate) fn body(p: &mut Parser<'_>, item: Marker, given: bool, condition: Condition)
    requires some { given ≡ false → 1 ≤ tokens p.old }
    requires innermost { IsInnermost item p.old.nodes }
    ensures completes { CompletesWhere given condition (rule rules.body) p.old p.new }
    ensures takes { TakesUnless given 2910 36 p.old p.new }
{
    if at_new_item(p) {
        new_item(p, item, condition);
        return;
    }
    plain_body(p, item, given, condition);
}

/// Parses an item that both grammars have after its attributes and its visibility, and completes
/// its node. `given` is `true` if it has some.
// fn f() {}
#[cycle(grammar)]
fn plain_body(p: &mut Parser<'_>, item: Marker, given: bool, condition: Condition)
    requires some { given ≡ false → 1 ≤ tokens p.old }
    requires innermost { IsInnermost item p.old.nodes }
    ensures completes { CompletesWhere given condition rows.plain_body p.old p.new }
    ensures takes { TakesUnless given 2930 16 p.old p.new }
{
    match p.current() {
        SyntaxKind::MOD_KW => module(p, item),
        SyntaxKind::USE_KW => use_item(p, item),
        SyntaxKind::STRUCT_KW => struct_item(p, item, condition),
        SyntaxKind::ENUM_KW => enum_item(p, item, condition),
        SyntaxKind::STATIC_KW => static_item(p, item, condition),
        SyntaxKind::TYPE_KW => type_alias(p, item, condition),
        _ => {
            if at_fn(p) {
                fn_item(p, item, condition);
                return;
            }
            if p.at(SyntaxKind::CONST_KW) {
                const_item(p, item, condition);
                return;
            }
            if at_unsafe(p, SyntaxKind::IMPL_KW) {
                impl_item(p, item, condition);
                return;
            }
            if at_unsafe(p, SyntaxKind::TRAIT_KW) {
                trait_item(p, item, condition);
                return;
            }
            if at_path(p) {
                path_item(p, item);
                return;
            }
            no_item(p, item, given);
        }
    }
}

/// Parses a module, and completes its node.
// mod a { fn f() {} }
#[cycle(grammar)]
fn module(p: &mut Parser<'_>, item: Marker)
    requires some { 1 ≤ tokens p.old }
    requires innermost { IsInnermost item p.old.nodes }
    ensures completes { (c : Condition) → Completes c rows.module_item p.old p.new }
    ensures takes { Takes 4090 p.old p.new }
{
    p.take(SyntaxKind::MOD_KW);
    expect_name(p);
    module_items(p);
    item.complete(p, SyntaxKind::MODULE);
}

/// Parses the items of a module, or its `;`.
// { fn f() {} }
#[cycle(grammar)]
fn module_items(p: &mut Parser<'_>)
    ensures reads { (c : Condition) → Reads c rows.module_items p.old p.new }
    ensures asks { Asks 2 p.old p.new }
{
    if p.at(SyntaxKind::L_CURLY) {
        item_list(p, SyntaxKind::ITEM_LIST);
        return;
    }
    p.expect(SyntaxKind::SEMICOLON);
}

/// Parses items in braces, in a node of `kind`.
// { fn f() {} }
#[inline(never)]
#[cycle(grammar)]
pub(crate) fn item_list(p: &mut Parser<'_>, kind: SyntaxKind)
    requires some { 1 ≤ tokens p.old }
    ensures reads { (c : Condition) → Reads c (raw_of kind ⟨ items_in_braces ⟩) p.old p.new }
    ensures takes { Takes 4080 p.old p.new }
{
    let list = p.start();
    p.take(SyntaxKind::L_CURLY);
    items(p, ListEnd::Brace);
    p.expect(SyntaxKind::R_CURLY);
    list.complete(p, kind);
}

/// Parses an item, or an inner attribute. Returns `true` if the list may continue.
// fn f() {}
#[cycle(grammar)]
fn item_turn(p: &mut Parser<'_>, end: ListEnd) -> bool
    ensures goes { IsTrue result
        → TakesTurn Off (Unless (ends_of end) item_or_attribute) p.old p.new }
    ensures ends { result ≡ false → Reads Off (items_until (ends_of end)) p.old p.new }
    ensures keeps { Keeps p.old p.new }
    ensures asks { Asks 2 p.old p.new }
{
    if at_end_of(p, end) {
        return false;
    }
    if at_inner_attribute(p) {
        attribute(p);
        return true;
    }
    item(p, Condition::Off);
    true
}

/// Parses items up to the end of their list.
// fn f() {} mod a;
#[cycle(grammar)]
pub(crate) fn items(p: &mut Parser<'_>, end: ListEnd)
    ensures reads { Reads Off (items_until (ends_of end)) p.old p.new }
    ensures asks { Asks 2 p.old p.new }
{
    'turns: while item_turn(p, end) {}
}
