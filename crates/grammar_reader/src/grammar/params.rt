//! Parameters of functions.

ghost use Rattle.std.specs.Prelude.{◌≤◌, true};
ghost use Rattle.parser_input.specs.Kinds.{NAME, SELF_PARAM};
ghost use Rattle.parser_events.specs.Stack.{IsInnermost};
ghost use Rattle.rust_grammar.specs.Calls.{Lifetime};
ghost use Rattle.rust_grammar.specs.Items.{self_begins};
ghost use Rattle.rust_grammar.specs.Notation.{◌▸◌, ⁅◌⁆, ◌⟨◌⟩};
ghost use Rattle.rust_grammar.specs.Rule as rules;
ghost use Rattle.rust_grammar.specs.Rule.{One};
ghost use Rattle.rust_grammar.specs.Words.{'&', 'mut', 'self'};
ghost use Rattle.rust_grammar.specs.Items as rows;
ghost use Rattle.rust_grammar.specs.Shared.{attributed, type_annotation};
ghost use Rattle.rust_productions.specs.Looks.{tokens, Takes, Asks};
ghost use Rattle.rust_productions.specs.Reads.{looks, FromStart, Completes, Gives, Reads, Saw};
ghost use Rattle.rust_productions.specs.Starts.{Starts};
ghost use Rattle.rust_productions.specs.declared.condition.Condition.{Condition};

use crate::grammar::attributes::attribute;
use crate::grammar::expressions::closures::opt_type;
use crate::grammar::items::attributes;
use crate::grammar::or_patterns::pattern;
use crate::grammar::parts::{Part, expect_part};
use parser_input::syntax_kind::SyntaxKind;
use rust_productions::condition::Condition;
use rust_productions::grammar::names::opt_lifetime;
use rust_productions::grammar::params::{
    at_new_dots, at_new_param, at_self, dots_param, expect_self, opt_ref,
};
use rust_productions::grammar::pattern_ranges::take_three_dots;
use rust_productions::grammar::types::word_type;
use rust_productions::marker::Marker;
use rust_productions::parser::Parser;

/// Parses a function parameter.
// a: u8
#[inline(never)]
#[cycle(grammar)]
pub(crate) fn param(p: &mut Parser<'_>, condition: Condition)
    requires begins { (c : Condition) → Saw c (looks rules.param) p.old true }
    requires some { 1 ≤ tokens p.old }
    ensures gives { Gives rules.param condition p.old p.new }
    ensures takes { Takes 2860 p.old p.new }
{
    if at_new_param(p) {
        new_param(p, condition);
        return;
    }
    if at_self(p) {
        self_param(p, condition);
        return;
    }
    pattern_param(p, condition);
}

/// Parses a parameter that only the whole language has: `...`, or one with attributes.
// #[a] b: u8
#[cycle(grammar)]
fn new_param(p: &mut Parser<'_>, condition: Condition)
    requires begins { Starts rows.new_param_begins p.old }
    ensures from_start { FromStart condition rows.new_param p.old p.new }
    ensures takes { Takes 4000 p.old p.new }
{
    if p.at_dots_dot() {
        dots_param(p);
        return;
    }
    attributed_param(p, condition);
}

/// Parses a parameter that has attributes.
// #[a] b: u8
#[cycle(grammar)]
fn attributed_param(p: &mut Parser<'_>, condition: Condition)
    requires some { 1 ≤ tokens p.old }
    ensures from_start { FromStart condition (attributed rows.attributed_param) p.old p.new }
    ensures takes { Takes 4030 p.old p.new }
{
    let node = p.start();
    attribute(p);
    attributes(p);
    after_attributes(p, node, condition);
}

/// Parses a parameter after its attributes, and completes its node.
// b: u8
#[cycle(grammar)]
fn after_attributes(p: &mut Parser<'_>, node: Marker, condition: Condition)
    requires innermost { IsInnermost node p.old.nodes }
    ensures completes { Completes condition rows.attributed_param p.old p.new }
    ensures asks { Asks 40 p.old p.new }
{
    if at_self(p) {
        self_rest(p, condition);
        node.complete(p, SyntaxKind::SELF_PARAM);
        return;
    }
    dots_or_param(p);
    node.complete(p, SyntaxKind::PARAM);
}

/// Parses the parts of a `self` parameter, within its node.
// &'a mut self
#[cycle(grammar)]
fn self_rest(p: &mut Parser<'_>, condition: Condition)
    ensures reads { Reads condition rows.self_rest p.old p.new }
    ensures asks { Asks 4 p.old p.new }
{
    opt_ref(p);
    p.eat(SyntaxKind::MUT_KW);
    expect_self(p);
    opt_type(p, condition);
}

/// Parses `...`, or a pattern and its type.
// b: u8
#[cycle(grammar)]
fn dots_or_param(p: &mut Parser<'_>)
    ensures reads { (c : Condition) → Reads c rows.dots_or_param p.old p.new }
    ensures asks { Asks 33 p.old p.new }
{
    if p.at_dots_dot() {
        take_three_dots(p);
        return;
    }
    expect_part(p, Part::Pattern);
    param_type(p);
}

/// Parses the type of a parameter after its `:`, or in the whole language `...`.
// : u8
#[cycle(grammar)]
fn param_type(p: &mut Parser<'_>)
    ensures reads { (c : Condition) → Reads c rows.param_type p.old p.new }
    ensures asks { Asks 20 p.old p.new }
{
    p.expect(SyntaxKind::COLON);
    dots_or_type(p);
}

/// Parses a type, or in the whole language `...`; emits an error if there is neither.
// u8
#[cycle(grammar)]
fn dots_or_type(p: &mut Parser<'_>)
    ensures reads { (c : Condition) → Reads c rows.dots_or_type p.old p.new }
    ensures asks { Asks 19 p.old p.new }
{
    if at_new_dots(p) {
        take_three_dots(p);
        return;
    }
    expect_part(p, Part::Type);
}

/// Parses a parameter with a pattern.
// a: u8
#[cycle(grammar)]
fn pattern_param(p: &mut Parser<'_>, condition: Condition)
    requires begins { (c : Condition) → Saw c (looks rules.pattern) p.old true }
    requires some { 1 ≤ tokens p.old }
    ensures reads { Reads condition rows.pattern_param p.old p.new }
    ensures takes { Takes 2880 p.old p.new }
{
    let node = p.start();
    pattern(p);
    param_type(p);
    node.complete(p, SyntaxKind::PARAM);
}

/// Parses a `self` parameter.
// &mut self
#[cycle(grammar)]
fn self_param(p: &mut Parser<'_>, condition: Condition)
    requires begins { (c : Condition) → Saw c self_begins p.old true }
    requires some { 1 ≤ tokens p.old }
    ensures gives { Gives rules.param condition p.old p.new }
    ensures takes { Takes 4080 p.old p.new }
{
    match p.current() {
        SyntaxKind::AMP => self_after_ref(p, condition),
        SyntaxKind::MUT_KW => self_after_mut(p, condition),
        _ => self_alone(p, condition),
    }
}

/// Parses a `self` parameter with `&`.
// &'a mut self
#[cycle(grammar)]
fn self_after_ref(p: &mut Parser<'_>, condition: Condition)
    requires some { 1 ≤ tokens p.old }
    ensures reads { Reads condition (SELF_PARAM ⟨ One '&' ▸ ⁅ Lifetime ⁆ ▸ ⁅ One 'mut' ⁆
        ▸ rows.self_name ▸ ⁅ type_annotation ⁆ ⟩) p.old p.new }
    ensures takes { Takes 4090 p.old p.new }
{
    let node = p.start();
    p.take(SyntaxKind::AMP);
    opt_lifetime(p);
    p.eat(SyntaxKind::MUT_KW);
    expect_self(p);
    opt_type(p, condition);
    node.complete(p, SyntaxKind::SELF_PARAM);
}

/// Parses a `self` parameter with `mut`.
// mut self
#[cycle(grammar)]
fn self_after_mut(p: &mut Parser<'_>, condition: Condition)
    requires some { 1 ≤ tokens p.old }
    ensures reads { Reads condition (SELF_PARAM ⟨ One 'mut'
        ▸ rows.self_name ▸ ⁅ type_annotation ⁆ ⟩) p.old p.new }
    ensures takes { Takes 4090 p.old p.new }
{
    let node = p.start();
    p.take(SyntaxKind::MUT_KW);
    expect_self(p);
    opt_type(p, condition);
    node.complete(p, SyntaxKind::SELF_PARAM);
}

/// Parses a `self` parameter without `&` and `mut`.
// self: Box<Self>
#[cycle(grammar)]
fn self_alone(p: &mut Parser<'_>, condition: Condition)
    requires some { 1 ≤ tokens p.old }
    ensures reads { Reads condition (SELF_PARAM
        ⟨ NAME ⟨ One 'self' ⟩ ▸ ⁅ type_annotation ⁆ ⟩) p.old p.new }
    ensures takes { Takes 4090 p.old p.new }
{
    let node = p.start();
    word_type(p, SyntaxKind::SELF_KW, SyntaxKind::NAME);
    opt_type(p, condition);
    node.complete(p, SyntaxKind::SELF_PARAM);
}
