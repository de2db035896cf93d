//! Types.

ghost use Rattle.std.specs.Prelude.{◌≢◌, ◌≤◌, ◌+◌, true};
ghost use Rattle.parser_input.specs.Kind.{raw_of};
ghost use Rattle.parser_input.specs.Kinds as kinds;
ghost use Rattle.parser_events.specs.Stack.{IsInnermost};
ghost use Rattle.rust_grammar.specs.Calls.{AnyType, Bounds, RetType};
ghost use Rattle.rust_grammar.specs.Notation.{◌▸◌, ⁅◌⁆, ◌!, ◌⟨◌⟩, wide};
ghost use Rattle.rust_grammar.specs.Rule as rules;
ghost use Rattle.rust_grammar.specs.Rule.{One};
ghost use Rattle.rust_grammar.specs.Whole.{rule};
ghost use Rattle.rust_grammar.specs.Words.{one};
ghost use Rattle.rust_grammar.specs.Shared as shared;
ghost use Rattle.rust_grammar.specs.Paths as path_rows;
ghost use Rattle.rust_grammar.specs.Types as rows;
ghost use Rattle.rust_productions.specs.Looks.{tokens, Takes, Asks, TakesIn, AsksIn};
ghost use Rattle.rust_productions.specs.Reads.{looks, Gives, Reads, Saw};
ghost use Rattle.rust_productions.specs.Starts.{Starts};
ghost use Rattle.rust_productions.specs.declared.condition.Condition.{Condition};

use crate::grammar::expressions::{Level, expect_expression};
use crate::grammar::fn_pointers::fn_ptr_type;
use crate::grammar::generic_params::{bounds, for_binder, further_bounds, opt_bound};
use crate::grammar::lists::{Element, tuple_tail};
use crate::grammar::parts::{Part, expect_part};
use crate::grammar::paths::{Mode, path_with_args, qualified_path};
use parser_input::syntax_kind::SyntaxKind;
use rust_productions::condition::Condition;
use rust_productions::grammar::generic_params::lifetime_bound;
use rust_productions::grammar::names::opt_lifetime;
use rust_productions::grammar::types::{
    at_bare_type, at_dyn_word, at_fn_ptr, at_new_type, const_or_mut, type_of_path, word_type,
};
use rust_productions::marker::Marker;
use rust_productions::parser::Parser;

/// Parses a type.
// &'a [u8]
#[cycle(grammar)]
pub fn any_type(p: &mut Parser<'_>)
    requires begins { Starts (looks rules.any_type) p.old }
    ensures gives { (c : Condition) → Gives rules.any_type c p.old p.new }
    ensures takes { Takes 2910 p.old p.new }
{
    let frame = p.start();
    let frame = inside(p, frame);
    frame.abandon(p);
}

/// Parses a type, within `frame`, which the caller abandons.
// [u8]
#[cycle(grammar)]
fn inside(p: &mut Parser<'_>, frame: Marker) -> Marker
    requires begins { Starts (looks rules.any_type) p.old }
    requires innermost { IsInnermost frame p.old.nodes }
    ensures reads { (c : Condition) → Reads c (rule rules.any_type) p.old p.new }
    ensures takes { TakesIn result 2910 p.old p.new }
{
    match p.current() {
        SyntaxKind::L_PAREN => paren_type(p, frame),
        SyntaxKind::L_BRACK => bracket_type(p, frame),
        SyntaxKind::BANG => {
            word_type(p, SyntaxKind::BANG, SyntaxKind::NEVER_TYPE);
            frame
        }
        SyntaxKind::UNDERSCORE => {
            word_type(p, SyntaxKind::UNDERSCORE, SyntaxKind::INFER_TYPE);
            frame
        }
        SyntaxKind::STAR => {
            ptr_type(p);
            frame
        }
        SyntaxKind::AMP => {
            ref_type(p);
            frame
        }
        SyntaxKind::IMPL_KW => {
            bounded_type(p, SyntaxKind::IMPL_KW, SyntaxKind::IMPL_TRAIT_TYPE);
            frame
        }
        SyntaxKind::DYN_KW => {
            bounded_type(p, SyntaxKind::DYN_KW, SyntaxKind::DYN_TRAIT_TYPE);
            frame
        }
        _ => {
            if at_dyn_word(p) {
                bounded_type(p, SyntaxKind::DYN_KW, SyntaxKind::DYN_TRAIT_TYPE);
                return frame;
            }
            if at_new_type(p) {
                return new_type(p, frame);
            }
            path_type(p);
            frame
        }
    }
}

/// Parses a type without bounds after it.
// &'a dyn A
#[cycle(grammar)]
pub(crate) fn type_no_bounds(p: &mut Parser<'_>)
    requires begins { Starts (looks rules.type_no_bounds) p.old }
    ensures gives { (c : Condition) → Gives rules.type_no_bounds c p.old p.new }
    ensures takes { Takes 2900 p.old p.new }
{
    let frame = p.start();
    let frame = bare_or_any(p, frame);
    frame.abandon(p);
}

/// Parses a type without bounds after it, within `frame`, which the caller abandons.
// a::B<u8>
#[cycle(grammar)]
fn bare_or_any(p: &mut Parser<'_>, frame: Marker) -> Marker
    requires begins { Starts (looks rules.type_no_bounds) p.old }
    requires innermost { IsInnermost frame p.old.nodes }
    ensures reads { (c : Condition) → Reads c (rule rules.type_no_bounds) p.old p.new }
    ensures takes { TakesIn result 2900 p.old p.new }
{
    if at_bare_type(p) {
        return for_or_path(p, frame);
    }
    inside(p, frame)
}

/// Parses a type that only the whole language has, or that may have bounds after it there, within
/// `frame`.
// A + Send
#[cycle(grammar)]
fn new_type(p: &mut Parser<'_>, frame: Marker) -> Marker
    requires begins { Starts (wide rows.new_type_begins) p.old }
    requires innermost { IsInnermost frame p.old.nodes }
    ensures reads { (c : Condition) → Reads c rows.new_type p.old p.new }
    ensures takes { TakesIn result 3900 p.old p.new }
{
    if p.at(SyntaxKind::LIFETIME_IDENT) {
        lifetime_bounds(p);
        return frame;
    }
    if at_fn_ptr(p) {
        fn_ptr_type(p);
        return frame;
    }
    let frame = for_or_path(p, frame);
    opt_plus_bounds(p, frame)
}

/// Parses a type after a `for` binder, or a path or a macro call as a type, within `frame`.
// for<'a> fn(&'a u8)
#[cycle(grammar)]
fn for_or_path(p: &mut Parser<'_>, frame: Marker) -> Marker
    requires begins { Starts rows.for_or_path_begins p.old }
    requires innermost { IsInnermost frame p.old.nodes }
    ensures reads { (c : Condition) → Reads c rows.for_or_path p.old p.new }
    ensures takes { TakesIn result 3950 p.old p.new }
{
    if p.at(SyntaxKind::FOR_KW) {
        for_type(p);
        return frame;
    }
    let frame = front_path(p, frame);
    type_of_path(p, frame)
}

/// Parses the path of a type, within `frame`.
// <T as A>::B
#[cycle(grammar)]
fn front_path(p: &mut Parser<'_>, frame: Marker) -> Marker
    requires begins { Starts rows.front_path_begins p.old }
    requires innermost { IsInnermost frame p.old.nodes }
    ensures reads { (c : Condition) → Reads c rows.front_path p.old p.new }
    ensures takes { TakesIn result 3970 p.old p.new }
{
    if p.at(SyntaxKind::L_ANGLE) {
        return qualified_path(p, frame, Mode::Type);
    }
    path_with_args(p, Mode::Type);
    frame
}

/// Parses a `for` binder and the type after it.
// for<'a> fn(&'a u8)
#[cycle(grammar)]
fn for_type(p: &mut Parser<'_>)
    requires some { 1 ≤ tokens p.old }
    ensures reads { (c : Condition) → Reads c rows.for_type p.old p.new }
    ensures takes { Takes 4000 p.old p.new }
{
    let node = p.start();
    for_binder(p);
    expect_part(p, Part::TypeNoBounds);
    node.complete(p, SyntaxKind::FOR_TYPE);
}

/// Parses optional bounds after a type, which becomes the first of them.
// + Send + 'a
#[cycle(grammar)]
pub(crate) fn opt_plus_bounds(p: &mut Parser<'_>, frame: Marker) -> Marker
    requires innermost { IsInnermost frame p.old.nodes }
    ensures reads { (c : Condition) → Reads c path_rows.plus_bounds p.old p.new }
    ensures asks { AsksIn result 1 p.old p.new }
{
    if p.at(SyntaxKind::PLUS) {
        let frame = frame.wrap(p, SyntaxKind::TYPE_BOUND);
        bounds_after_plus(p);
        let frame = frame.wrap(p, SyntaxKind::TYPE_BOUND_LIST);
        return frame.wrap(p, SyntaxKind::DYN_TRAIT_TYPE);
    }
    frame
}

/// Parses the bounds after the first one, from their `+`.
// + Send + 'a
#[cycle(grammar)]
fn bounds_after_plus(p: &mut Parser<'_>)
    requires some { 1 ≤ tokens p.old }
    ensures reads { (c : Condition) → Reads c path_rows.bounds_after_plus p.old p.new }
    ensures takes { Takes 4000 p.old p.new }
{
    p.take(SyntaxKind::PLUS);
    opt_bound(p);
    further_bounds(p);
}

/// Parses bounds whose first is a lifetime.
// 'a + Send
#[cycle(grammar)]
fn lifetime_bounds(p: &mut Parser<'_>)
    requires some { 1 ≤ tokens p.old }
    ensures reads { (c : Condition) → Reads c rows.lifetime_bounds p.old p.new }
    ensures takes { Takes 4090 p.old p.new }
{
    let node = p.start();
    let list = p.start();
    lifetime_bound(p);
    further_bounds(p);
    list.complete(p, SyntaxKind::TYPE_BOUND_LIST);
    node.complete(p, SyntaxKind::DYN_TRAIT_TYPE);
}

/// Parses a `dyn` or `impl` type, in a node of `kind`. `token` is its keyword.
// dyn A + B
#[cycle(grammar)]
fn bounded_type(p: &mut Parser<'_>, token: SyntaxKind, kind: SyntaxKind)
    requires some { 1 ≤ tokens p.old }
    ensures reads { (c : Condition) → Reads c
        (raw_of kind ⟨ One (one (raw_of token)) ▸ Bounds ⟩) p.old p.new }
    ensures takes { Takes 4070 p.old p.new }
{
    let node = p.start();
    p.take(token);
    bounds(p);
    node.complete(p, kind);
}

/// Parses a path type.
// a::B<u8>
#[cycle(grammar)]
pub(crate) fn path_type(p: &mut Parser<'_>)
    requires begins { (c : Condition) → Saw c (looks rules.path) p.old true }
    requires some { 1 ≤ tokens p.old }
    ensures reads { (c : Condition) → Reads c shared.path_type p.old p.new }
    ensures takes { Takes 4000 p.old p.new }
{
    let node = p.start();
    path_with_args(p, Mode::Type);
    node.complete(p, SyntaxKind::PATH_TYPE);
}

/// Parses a raw pointer type.
// *const u8
#[cycle(grammar)]
fn ptr_type(p: &mut Parser<'_>)
    requires some { 1 ≤ tokens p.old }
    ensures reads { (c : Condition) → Reads c rows.ptr_type p.old p.new }
    ensures takes { Takes 4060 p.old p.new }
{
    let node = p.start();
    p.take(SyntaxKind::STAR);
    const_or_mut(p);
    expect_part(p, Part::TypeNoBounds);
    node.complete(p, SyntaxKind::PTR_TYPE);
}

/// Parses a reference type.
// &'a mut u8
#[cycle(grammar)]
fn ref_type(p: &mut Parser<'_>)
    requires some { 1 ≤ tokens p.old }
    ensures reads { (c : Condition) → Reads c rows.ref_type p.old p.new }
    ensures takes { Takes 4060 p.old p.new }
{
    let node = p.start();
    p.take(SyntaxKind::AMP);
    opt_lifetime(p);
    p.eat(SyntaxKind::MUT_KW);
    expect_part(p, Part::TypeNoBounds);
    node.complete(p, SyntaxKind::REF_TYPE);
}

/// Parses a tuple type or a parenthesized type.
// (u8, u8)
#[cycle(grammar)]
fn paren_type(p: &mut Parser<'_>, frame: Marker) -> Marker
    requires some { 1 ≤ tokens p.old }
    requires innermost { IsInnermost frame p.old.nodes }
    ensures reads { (c : Condition) → Reads c rows.tuple_or_paren p.old p.new }
    ensures takes { TakesIn result 3200 p.old p.new }
{
    p.take(SyntaxKind::L_PAREN);
    after_paren(p, frame)
}

/// Parses a tuple type or a parenthesized type after its `(`.
// u8, u8)
#[cycle(grammar)]
fn after_paren(p: &mut Parser<'_>, frame: Marker) -> Marker
    requires innermost { IsInnermost frame p.old.nodes }
    ensures reads { (c : Condition) → Reads c rows.after_l_paren p.old p.new }
    ensures asks { AsksIn result 19 p.old p.new }
{
    if p.at(SyntaxKind::R_PAREN) {
        p.take(SyntaxKind::R_PAREN);
        return frame.wrap(p, SyntaxKind::TUPLE_TYPE);
    }
    expect_part(p, Part::Type);
    tuple_tail(
        p,
        frame,
        SyntaxKind::TUPLE_TYPE,
        Element::Type,
        SyntaxKind::PAREN_TYPE,
    )
}

/// Parses an array type or a slice type.
// [u8; 4]
#[cycle(grammar)]
fn bracket_type(p: &mut Parser<'_>, frame: Marker) -> Marker
    requires some { 1 ≤ tokens p.old }
    requires innermost { IsInnermost frame p.old.nodes }
    ensures reads { (c : Condition) → Reads c rows.array_or_slice p.old p.new }
    ensures takes { TakesIn result 3200 p.old p.new }
{
    p.take(SyntaxKind::L_BRACK);
    expect_part(p, Part::Type);
    after_element(p, frame)
}

/// Parses an array type or a slice type after its element type.
// ; 4]
#[cycle(grammar)]
fn after_element(p: &mut Parser<'_>, frame: Marker) -> Marker
    requires innermost { IsInnermost frame p.old.nodes }
    ensures reads { (c : Condition) → Reads c rows.after_element p.old p.new }
    ensures asks { AsksIn result 2 p.old p.new }
{
    if p.at(SyntaxKind::SEMICOLON) {
        p.take(SyntaxKind::SEMICOLON);
        array_length(p);
        p.expect(SyntaxKind::R_BRACK);
        return frame.wrap(p, SyntaxKind::ARRAY_TYPE);
    }
    p.expect(SyntaxKind::R_BRACK);
    frame.wrap(p, SyntaxKind::SLICE_TYPE)
}

/// Parses the length of an array type.
// 4
#[cycle(grammar)]
fn array_length(p: &mut Parser<'_>)
    ensures reads { (c : Condition) → Reads c rows.array_length p.old p.new }
    ensures asks { Asks 770 p.old p.new }
{
    let node = p.start();
    expect_expression(p, Level::Expression, Condition::Off);
    node.complete(p, SyntaxKind::CONST_ARG);
}

/// Parses a return type.
// -> u8
#[cycle(grammar)]
pub(crate) fn ret_type(p: &mut Parser<'_>)
    requires some { 2 ≤ tokens p.old }
    ensures gives { (c : Condition) → Gives rules.ret_type c p.old p.new }
    ensures takes { Takes 4090 p.old p.new }
{
    let node = p.start();
    p.take_pair(SyntaxKind::THIN_ARROW);
    expect_part(p, Part::TypeNoBounds);
    node.complete(p, SyntaxKind::RET_TYPE);
}

/// Parses an optional return type.
// -> u8
#[cycle(grammar)]
pub(crate) fn opt_ret_type(p: &mut Parser<'_>)
    ensures reads { (c : Condition) → Reads c ⁅ RetType ⁆ p.old p.new }
    ensures asks { Asks 2 p.old p.new }
{
    if p.at_pair(SyntaxKind::MINUS, SyntaxKind::R_ANGLE) {
        ret_type(p);
    }
}

/// Parses an optional `word` and the type after it.
// = u8
#[cycle(grammar)]
pub(crate) fn opt_type_after(p: &mut Parser<'_>, word: SyntaxKind)
    requires inside { raw_of word ≢ kinds.EOF }
    ensures reads { (c : Condition) → Reads c ⁅ One (one (raw_of word)) ▸ AnyType ! ⁆ p.old p.new }
    ensures asks { Asks 1 p.old p.new }
{
    if p.at(word) {
        p.take(word);
        expect_part(p, Part::Type);
    }
}
