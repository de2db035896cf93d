//! Attributes.

ghost use Rattle.std.specs.Prelude.{◌≤◌, true};
ghost use Rattle.rust_grammar.specs.Calls.{Meta};
ghost use Rattle.rust_grammar.specs.Notation.{⁅◌⁆, ◌! };
ghost use Rattle.rust_grammar.specs.Rule as rules;
ghost use Rattle.rust_grammar.specs.Items as rows;
ghost use Rattle.rust_grammar.specs.Shared as shared;
ghost use Rattle.rust_productions.specs.Looks.{tokens, Takes, Asks};
ghost use Rattle.rust_productions.specs.Reads.{looks, Gives, Reads, Saw};
ghost use Rattle.rust_productions.specs.declared.condition.Condition.{Condition};
ghost use Rattle.rust_productions.specs.declared.condition.Condition.TheVariants.{Off};

use crate::grammar::expressions::{Level, expect_expression};
use parser_events::message::Message;
use parser_input::syntax_kind::SyntaxKind;
use rust_productions::condition::Condition;
use rust_productions::grammar::attributes::at_meta;
use rust_productions::grammar::paths::{expect_path, path};
use rust_productions::grammar::token_trees::{at_token_tree, token_tree};
use rust_productions::parser::Parser;

/// Parses an attribute.
// #[inline]
#[cycle(grammar)]
pub(crate) fn attribute(p: &mut Parser<'_>)
    requires some { 1 ≤ tokens p.old }
    ensures gives { (c : Condition) → Gives rules.attribute c p.old p.new }
    ensures takes { Takes 4080 p.old p.new }
{
    let attribute = p.start();
    p.take(SyntaxKind::POUND);
    p.eat(SyntaxKind::BANG);
    p.expect(SyntaxKind::L_BRACK);
    expect_meta(p);
    p.expect(SyntaxKind::R_BRACK);
    attribute.complete(p, SyntaxKind::ATTR);
}

/// Parses attributes before what is no item, in the whole language.
// #[a] #[b]
#[cycle(grammar)]
pub(crate) fn outer_attributes(p: &mut Parser<'_>)
    ensures reads { (c : Condition) → Reads c shared.outer_attributes p.old p.new }
    ensures asks { Asks 1 p.old p.new }
{
    'turns: while p.at_new(SyntaxKind::POUND) {
        attribute(p);
    }
}

/// Parses the meta item of an attribute; emits an error if there is none.
#[cycle(grammar)]
fn expect_meta(p: &mut Parser<'_>)
    ensures reads { Reads Off (Meta !) p.old p.new }
    ensures asks { Asks 4 p.old p.new }
{
    if at_meta(p) {
        meta(p, Condition::Off);
        return;
    }
    p.error(Message::Expected(SyntaxKind::META));
}

/// Parses a meta item: a path with an optional value or token tree, in the whole language also in
/// `unsafe(..)`.
// cfg(test)
#[cycle(grammar)]
pub fn meta(p: &mut Parser<'_>, condition: Condition)
    requires begins { (c : Condition) → Saw c (looks rules.meta) p.old true }
    requires some { 1 ≤ tokens p.old }
    ensures gives { Gives rules.meta condition p.old p.new }
    ensures takes { Takes 3980 p.old p.new }
{
    if p.at_new(SyntaxKind::UNSAFE_KW) {
        unsafe_meta(p, condition);
        return;
    }
    path_meta(p, condition);
}

/// Parses a meta item: a path with an optional value or token tree.
// cfg(test)
#[cycle(grammar)]
fn path_meta(p: &mut Parser<'_>, condition: Condition)
    requires begins { (c : Condition) → Saw c (looks rules.path) p.old true }
    requires some { 1 ≤ tokens p.old }
    ensures reads { Reads condition rows.path_meta p.old p.new }
    ensures takes { Takes 3990 p.old p.new }
{
    let meta = p.start();
    path(p);
    opt_value(p, condition);
    meta.complete(p, SyntaxKind::META);
}

/// Parses a meta item in `unsafe(..)`.
// unsafe(no_mangle)
#[cycle(grammar)]
fn unsafe_meta(p: &mut Parser<'_>, condition: Condition)
    requires some { 1 ≤ tokens p.old }
    ensures reads { Reads condition rows.unsafe_meta p.old p.new }
    ensures takes { Takes 4080 p.old p.new }
{
    let meta = p.start();
    p.take(SyntaxKind::UNSAFE_KW);
    p.expect(SyntaxKind::L_PAREN);
    expect_path(p);
    opt_value(p, condition);
    p.expect(SyntaxKind::R_PAREN);
    meta.complete(p, SyntaxKind::META);
}

/// Parses the optional value or token tree of a meta item.
// = "text"
#[cycle(grammar)]
fn opt_value(p: &mut Parser<'_>, condition: Condition)
    ensures reads { Reads condition ⁅ rows.attr_input ⁆ p.old p.new }
    ensures asks { Asks 2 p.old p.new }
{
    if p.at(SyntaxKind::EQ) {
        p.take(SyntaxKind::EQ);
        expect_expression(p, Level::Expression, condition);
        return;
    }
    if at_token_tree(p) {
        token_tree(p);
    }
}
