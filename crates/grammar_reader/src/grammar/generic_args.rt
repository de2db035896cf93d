//! Arguments of generics.

ghost use Rattle.std.specs.Prelude.{◌≤◌, ◌+◌, false};
ghost use Rattle.parser_input.specs.Kinds as kinds;
ghost use Rattle.parser_input.specs.Kinds.{ASSOC_TYPE_ARG, CONST_ARG, NAME_REF};
ghost use Rattle.rust_grammar.specs.Calls.{AnyType};
ghost use Rattle.rust_grammar.specs.Notation.{◌▸◌, ◌!, ◌⟨◌⟩, wide};
ghost use Rattle.parser_events.specs.Stack.{IsInnermost};
ghost use Rattle.rust_grammar.specs.Rule as rules;
ghost use Rattle.rust_grammar.specs.Rule.{Kind, One};
ghost use Rattle.rust_grammar.specs.Whole.{rule};
ghost use Rattle.rust_grammar.specs.Words.{'=', 'ident'};
ghost use Rattle.rust_grammar.specs.Paths as rows;
ghost use Rattle.rust_productions.specs.Looks.{tokens, Takes, Asks, TakesIn, AsksIn};
ghost use Rattle.rust_productions.specs.Reads.{looks, FromStart, Gives, Reads, Saw};
ghost use Rattle.rust_productions.specs.Starts.{Starts};
ghost use Rattle.rust_productions.specs.declared.condition.Condition.{Condition};

use crate::grammar::const_args::const_arg;
use crate::grammar::expressions::blocks::block;
use crate::grammar::generic_params::bounds;
use crate::grammar::parts::{Part, expect_part};
use crate::grammar::paths::{Mode, next_segments, opt_type_args};
use crate::grammar::types::{any_type, opt_plus_bounds};
use parser_input::syntax_kind::SyntaxKind;
use rust_productions::grammar::generic_args::{
    at_const_value, at_new_arg, at_single_colon, lifetime_arg, literal_arg, negative_arg,
};
use rust_productions::grammar::names::{at_literal, name_ref};
use rust_productions::grammar::types::{type_of_path, word_type};
use rust_productions::marker::Marker;
use rust_productions::parser::Parser;

/// Parses a generic argument.
// T = u8
#[inline(never)]
#[cycle(grammar)]
pub(crate) fn generic_arg(p: &mut Parser<'_>)
    requires begins { Starts (looks rules.generic_arg) p.old }
    ensures gives { (c : Condition) → Gives rules.generic_arg c p.old p.new }
    ensures takes { Takes 2880 p.old p.new }
{
    if at_new_arg(p) {
        let frame = p.start();
        let frame = new_arg(p, frame);
        frame.abandon(p);
        return;
    }
    match p.current() {
        SyntaxKind::LIFETIME_IDENT => lifetime_arg(p),
        SyntaxKind::MINUS => negative_arg(p),
        SyntaxKind::IDENT => word_arg(p),
        _ => {
            if at_literal(p) {
                literal_arg(p);
                return;
            }
            type_arg(p);
        }
    }
}

/// Parses a generic argument that only the whole language has, within `frame`.
// A<u8>: Send
#[cycle(grammar)]
fn new_arg(p: &mut Parser<'_>, frame: Marker) -> Marker
    requires begins { Starts (wide rows.new_arg_begins) p.old }
    requires innermost { IsInnermost frame p.old.nodes }
    ensures reads { (c : Condition) → Reads c rows.new_arg p.old p.new }
    ensures takes { TakesIn result 2890 p.old p.new }
{
    if p.at(SyntaxKind::LIFETIME_IDENT) {
        type_arg(p);
        return frame;
    }
    if p.at(SyntaxKind::L_CURLY) {
        block_arg(p);
        return frame;
    }
    name_ref(p);
    opt_type_args(p);
    named_arg(p, frame)
}

/// Parses a block as an argument.
// { a }
#[cycle(grammar)]
fn block_arg(p: &mut Parser<'_>)
    requires some { 1 ≤ tokens p.old }
    ensures reads { (c : Condition) → Reads c rows.block_arg p.old p.new }
    ensures takes { Takes 2980 p.old p.new }
{
    let node = p.start();
    block(p);
    node.complete(p, SyntaxKind::CONST_ARG);
}

/// Parses a generic argument after its name and the arguments of that, within `frame`.
// : Send
#[cycle(grammar)]
fn named_arg(p: &mut Parser<'_>, frame: Marker) -> Marker
    requires innermost { IsInnermost frame p.old.nodes }
    ensures reads { (c : Condition) → Reads c rows.named_arg p.old p.new }
    ensures asks { AsksIn result 20 p.old p.new }
{
    if p.at(SyntaxKind::EQ) {
        p.take(SyntaxKind::EQ);
        const_or_type(p);
        return frame.wrap(p, SyntaxKind::ASSOC_TYPE_ARG);
    }
    if at_single_colon(p) {
        p.take(SyntaxKind::COLON);
        bounds(p);
        return frame.wrap(p, SyntaxKind::ASSOC_TYPE_ARG);
    }
    front_of_type(p, frame)
}

/// Parses the value of an associated type or constant.
// u8
#[cycle(grammar)]
fn const_or_type(p: &mut Parser<'_>)
    ensures reads { (c : Condition) → Reads c rows.const_or_type p.old p.new }
    ensures asks { Asks 20 p.old p.new }
{
    if at_const_value(p) {
        const_arg(p);
        return;
    }
    expect_part(p, Part::Type);
}

/// Parses a type argument after its first name and the arguments of that, within `frame`.
// ::B + Send
#[cycle(grammar)]
fn front_of_type(p: &mut Parser<'_>, frame: Marker) -> Marker
    requires innermost { IsInnermost frame p.old.nodes }
    ensures reads { (c : Condition) → Reads c rows.front_of_type p.old p.new }
    ensures asks { AsksIn result 7 p.old p.new }
{
    let frame = frame.wrap(p, SyntaxKind::PATH_SEGMENT);
    let frame = frame.wrap(p, SyntaxKind::PATH);
    let frame = next_segments(p, frame, Mode::Type);
    let frame = type_of_path(p, frame);
    let frame = opt_plus_bounds(p, frame);
    frame.wrap(p, SyntaxKind::TYPE_ARG)
}

/// Parses a generic argument that starts with an identifier: an associated type or a type.
// T = u8
#[cycle(grammar)]
fn word_arg(p: &mut Parser<'_>)
    requires word { Starts (Kind 0 kinds.IDENT) p.old }
    requires other { (c : Condition) → Saw c (wide rows.new_arg_begins) p.old false }
    ensures from_start { (c : Condition) → FromStart c (rule rules.generic_arg) p.old p.new }
    ensures takes { Takes 2900 p.old p.new }
{
    if p.at_second(SyntaxKind::EQ) {
        assoc_type_arg(p);
        return;
    }
    type_arg(p);
}

/// Parses an associated type with its name.
// T = u8
#[cycle(grammar)]
fn assoc_type_arg(p: &mut Parser<'_>)
    requires some { 2 ≤ tokens p.old }
    ensures reads { (c : Condition) → Reads c
        (ASSOC_TYPE_ARG ⟨ NAME_REF ⟨ One 'ident' ⟩ ▸ One '=' ▸ AnyType ! ⟩) p.old p.new }
    ensures takes { Takes 8000 p.old p.new }
{
    let node = p.start();
    word_type(p, SyntaxKind::IDENT, SyntaxKind::NAME_REF);
    p.take(SyntaxKind::EQ);
    expect_part(p, Part::Type);
    node.complete(p, SyntaxKind::ASSOC_TYPE_ARG);
}

/// Parses a type argument.
// u8
#[inline(never)]
#[cycle(grammar)]
pub(crate) fn type_arg(p: &mut Parser<'_>)
    requires begins { Starts (looks rules.any_type) p.old }
    ensures reads { (c : Condition) → Reads c rows.type_arg p.old p.new }
    ensures takes { Takes 2910 p.old p.new }
{
    let node = p.start();
    any_type(p);
    node.complete(p, SyntaxKind::TYPE_ARG);
}
