//! What items begin with, and the items that hold no others.

ghost use Rattle.parser_events.specs.Stack.{IsInnermost};
ghost use Rattle.parser_input.specs.Kind.{raw_of};
ghost use Rattle.parser_input.specs.Kinds as kinds;
ghost use Rattle.rust_grammar.specs.Calls.{Attribute, Name, Visibility};
ghost use Rattle.rust_grammar.specs.Items as rows;
ghost use Rattle.rust_grammar.specs.Items.{fn_begins};
ghost use Rattle.rust_grammar.specs.Notation.{⁅◌⁆, ◌!, ◌*, ◌before◌, ◌▸◌, next, one_of, wide};
ghost use Rattle.rust_grammar.specs.Rule as rules;
ghost use Rattle.rust_grammar.specs.Rule.{Either, Not, One, begins};
ghost use Rattle.rust_grammar.specs.Words.{':', '=', '>', 'comma', 'const', 'fn', 'unsafe', one};
ghost use Rattle.rust_productions.specs.Looks.{Asks, Peeks, Takes, TakesUnless, tokens};
ghost use Rattle.rust_productions.specs.Reads.{Completes, CompletesWhere, Condition, Reads, Saw, looks};
ghost use Rattle.rust_productions.specs.Starts.{FollowsUnsafe, Starts};
ghost use Rattle.std.specs.Prelude.{◌∷◌, ◌≡◌, ◌≢◌, ◌≤◌, IsTrue, [], false, true};

use crate::condition::Condition;
use crate::grammar::names::{expect_name, name};
use crate::grammar::paths::path;
use crate::grammar::token_trees::{expect_token_tree, token_tree};
use crate::grammar::use_trees::expect_use_tree;
use crate::grammar::visibility::visibility;
use crate::marker::Marker;
use crate::parser::Parser;
use parser_events::message::Message;
use parser_input::syntax_kind::SyntaxKind;

/// Returns `true` if a function starts here.
pub fn at_fn(p: &mut Parser<'_>) -> bool
    ensures sees { (c : Condition) → Saw c fn_begins p.old result }
    ensures some { IsTrue result → 1 ≤ tokens p.old }
    ensures peeks { Peeks 2 p.old p.new }
{
    match p.current() {
        SyntaxKind::FN_KW => true,
        SyntaxKind::CONST_KW => at_fn_after_const(p),
        SyntaxKind::UNSAFE_KW => at_fn_after_unsafe(p),
        _ => false,
    }
}

/// Returns `true` if a function starts at the `const` that is next.
fn at_fn_after_const(p: &mut Parser<'_>) -> bool
    requires { (c : Condition) → Saw c (next 'const') p.old true }
    ensures sees { (c : Condition) → Saw c fn_begins p.old result }
    ensures peeks { Peeks 1 p.old p.new }
{
    match p.nth(1) {
        SyntaxKind::FN_KW | SyntaxKind::UNSAFE_KW => true,
        _ => false,
    }
}

/// Returns `true` if a function starts at the `unsafe` that is next.
fn at_fn_after_unsafe(p: &mut Parser<'_>) -> bool
    requires { (c : Condition) → Saw c (next 'unsafe') p.old true }
    ensures sees { (c : Condition) → Saw c fn_begins p.old result }
    ensures peeks { Peeks 1 p.old p.new }
{
    match p.nth(1) {
        SyntaxKind::FN_KW => true,
        _ => false,
    }
}

/// Parses the qualifiers and the `fn` of a function.
// const unsafe fn
pub fn fn_words(p: &mut Parser<'_>)
    requires begins { (c : Condition) → Saw c fn_begins p.old true }
    requires some { 1 ≤ tokens p.old }
    ensures reads { (c : Condition)
        → Reads c (⁅ One 'const' ⁆ ▸ ⁅ One 'unsafe' ⁆ ▸ One 'fn' !) p.old p.new }
    ensures takes { Takes 4090 p.old p.new }
{
    match p.current() {
        SyntaxKind::CONST_KW => {
            p.take(SyntaxKind::CONST_KW);
            p.eat(SyntaxKind::UNSAFE_KW);
            p.expect(SyntaxKind::FN_KW);
        }
        SyntaxKind::UNSAFE_KW => {
            p.take(SyntaxKind::UNSAFE_KW);
            p.expect(SyntaxKind::FN_KW);
        }
        _ => p.take(SyntaxKind::FN_KW),
    }
}

/// Returns `true` if `word` is next, or `unsafe` and then `word`.
pub fn at_unsafe(p: &mut Parser<'_>, word: SyntaxKind) -> bool
    ensures sees { (c : Condition) → Saw c
        (Either (next (one (raw_of word))) ('unsafe' before one (raw_of word))) p.old result }
    ensures some { IsTrue result → raw_of word ≢ kinds.EOF → 1 ≤ tokens p.old }
    ensures peeks { Peeks 3 p.old p.new }
{
    if p.at(word) {
        return true;
    }
    if !p.at(SyntaxKind::UNSAFE_KW) {
        return false;
    }
    p.at_second(word)
}

/// Parses an optional `unsafe` and `word`.
// unsafe impl
pub fn unsafe_word(p: &mut Parser<'_>, word: SyntaxKind)
    requires begins { Starts
        (Either (next (one (raw_of word))) ('unsafe' before one (raw_of word))) p.old }
    requires word { FollowsUnsafe (raw_of word) }
    ensures reads { (c : Condition)
        → Reads c (⁅ One 'unsafe' ⁆ ▸ One (one (raw_of word))) p.old p.new }
    ensures takes { Takes 4095 p.old p.new }
{
    if p.at(word) {
        p.take(word);
        return;
    }
    p.take(SyntaxKind::UNSAFE_KW);
    p.take(word);
}

/// Parses a use declaration, and completes its node.
// use a::b as c;
pub fn use_item(p: &mut Parser<'_>, item: Marker)
    requires some { 1 ≤ tokens p.old }
    requires innermost { IsInnermost item p.old.nodes }
    ensures completes { (c : Condition) → Completes c rows.use_item p.old p.new }
    ensures takes { Takes 4080 p.old p.new }
{
    p.take(SyntaxKind::USE_KW);
    expect_use_tree(p);
    p.expect(SyntaxKind::SEMICOLON);
    item.complete(p, SyntaxKind::USE);
}

/// Parses a macro call as an item, and completes its node; emits an error after a path that is no
/// macro call.
// m! { a }
pub fn path_item(p: &mut Parser<'_>, item: Marker)
    requires begins { Starts (looks rules.path) p.old }
    requires innermost { IsInnermost item p.old.nodes }
    ensures completes { (c : Condition) → Completes c rows.path_item p.old p.new }
    ensures takes { Takes 3990 p.old p.new }
{
    path(p);
    after_path(p, item);
}

/// Parses a macro call after its path, and completes its node; emits an error if there is none.
// ! { a }
fn after_path(p: &mut Parser<'_>, item: Marker)
    requires { IsInnermost item p.old.nodes }
    ensures completes { (c : Condition) → Completes c rows.after_path p.old p.new }
    ensures asks { Asks 3 p.old p.new }
{
    if p.at(SyntaxKind::BANG) {
        p.take(SyntaxKind::BANG);
        macro_tokens(p);
        item.complete(p, SyntaxKind::MACRO_CALL);
        return;
    }
    p.error(Message::ExpectedItem);
    item.complete(p, SyntaxKind::ERROR);
}

/// Parses the token tree of a macro call, and a `;` unless it is in braces.
// (a);
pub(crate) fn macro_tokens(p: &mut Parser<'_>)
    ensures reads { (c : Condition) → Reads c rows.macro_tokens p.old p.new }
    ensures asks { Asks 3 p.old p.new }
{
    if p.at(SyntaxKind::L_CURLY) {
        token_tree(p);
        return;
    }
    expect_token_tree(p);
    p.expect(SyntaxKind::SEMICOLON);
}

/// Completes the node of a missing item. After attributes or a visibility emits an error,
/// otherwise skips a token into an error.
pub fn no_item(p: &mut Parser<'_>, item: Marker, given: bool)
    requires some { given ≡ false → 1 ≤ tokens p.old }
    requires innermost { IsInnermost item p.old.nodes }
    ensures completes { (c : Condition) → CompletesWhere given c rows.no_item p.old p.new }
    ensures takes { TakesUnless given 4090 0 p.old p.new }
{
    if given {
        p.error(Message::ExpectedItem);
        item.complete(p, SyntaxKind::ERROR);
        return;
    }
    p.skip(Message::ExpectedItem);
    item.abandon(p);
}

/// Returns `true` if the third token can follow the name of a generic parameter.
fn at_param_end(p: &mut Parser<'_>) -> bool
    ensures sees { (c : Condition)
        → Saw c (one_of 2 ('>' ∷ 'comma' ∷ ':' ∷ '=' ∷ [])) p.old result }
    ensures peeks { Peeks 1 p.old p.new }
{
    match p.nth(2) {
        SyntaxKind::R_ANGLE | SyntaxKind::COMMA | SyntaxKind::COLON | SyntaxKind::EQ => true,
        _ => false,
    }
}

/// Returns `true` if a `<` after `impl` starts a type of the whole language, and no parameters.
fn at_type_after_impl(p: &mut Parser<'_>) -> bool
    ensures sees { (c : Condition) → Saw c (wide (Not rows.impl_params_begin)) p.old result }
    ensures peeks { Peeks 3 p.old p.new }
{
    if !p.at_whole() {
        return false;
    }
    if !p.at(SyntaxKind::L_ANGLE) {
        return true;
    }
    match p.nth(1) {
        SyntaxKind::POUND | SyntaxKind::R_ANGLE | SyntaxKind::CONST_KW => false,
        SyntaxKind::LIFETIME_IDENT | SyntaxKind::IDENT => {
            if at_param_end(p) {
                return false;
            }
            true
        }
        _ => true,
    }
}

/// Returns `true` if the parameters of an implementation start here.
pub fn at_impl_params(p: &mut Parser<'_>) -> bool
    ensures sees { (c : Condition) → Saw c (begins looks rows.impl_params) p.old result }
    ensures goes { IsTrue result → (c : Condition)
        → Saw c (wide (Not rows.impl_params_begin)) p.old false }
    ensures some { IsTrue result → 1 ≤ tokens p.old }
    ensures peeks { Peeks 4 p.old p.new }
{
    if at_type_after_impl(p) {
        return false;
    }
    if p.at(SyntaxKind::L_ANGLE) {
        return true;
    }
    false
}

/// Parses the optional `const` before the trait of an implementation.
// const
pub fn opt_const_before_trait(p: &mut Parser<'_>)
    ensures reads { (c : Condition) → Reads c rows.const_before_trait p.old p.new }
    ensures asks { Asks 1 p.old p.new }
{
    if p.at_new(SyntaxKind::CONST_KW) {
        p.take(SyntaxKind::CONST_KW);
    }
}

/// Returns `true` if a `!` is next that negates the trait of an implementation.
fn at_negation(p: &mut Parser<'_>) -> bool
    ensures sees { (c : Condition) → Saw c (wide rows.negation_begins) p.old result }
    ensures some { IsTrue result → 1 ≤ tokens p.old }
    ensures peeks { Peeks 2 p.old p.new }
{
    if !p.at_whole() {
        return false;
    }
    if !p.at(SyntaxKind::BANG) {
        return false;
    }
    match p.nth(1) {
        SyntaxKind::L_CURLY | SyntaxKind::FOR_KW | SyntaxKind::WHERE_KW => false,
        _ => true,
    }
}

/// Parses the optional `!` before the trait of an implementation.
// !
pub fn opt_negation(p: &mut Parser<'_>)
    ensures reads { (c : Condition) → Reads c rows.negation p.old p.new }
    ensures asks { Asks 2 p.old p.new }
{
    if at_negation(p) {
        p.take(SyntaxKind::BANG);
    }
}

/// Parses the optional `unsafe` before the name of a field.
// unsafe
pub fn opt_unsafe_field(p: &mut Parser<'_>)
    ensures reads { (c : Condition) → Reads c rows.unsafe_field p.old p.new }
    ensures asks { Asks 1 p.old p.new }
{
    if p.at_new(SyntaxKind::UNSAFE_KW) {
        p.take(SyntaxKind::UNSAFE_KW);
    }
}

/// Parses the optional `unsafe` of a named field and its name.
// unsafe b
pub fn unsafe_and_name(p: &mut Parser<'_>)
    ensures reads { (c : Condition) → Reads c rows.unsafe_and_name p.old p.new }
    ensures asks { Asks 2 p.old p.new }
{
    opt_unsafe_field(p);
    expect_name(p);
}

/// Returns `true` if a variant starts here: at an attribute, a visibility or a name.
pub fn at_named_member(p: &mut Parser<'_>) -> bool
    ensures sees { (c : Condition) → Saw c
        (begins looks (Attribute * ▸ ⁅ Visibility ⁆ ▸ Name !)) p.old result }
    ensures peeks { Peeks 1 p.old p.new }
{
    match p.current() {
        SyntaxKind::POUND | SyntaxKind::PUB_KW | SyntaxKind::IDENT => true,
        _ => false,
    }
}
