//! Definitions of macros, and `extern crate`.

ghost use Rattle.std.specs.Prelude.{◌≤◌, IsTrue};
ghost use Rattle.parser_events.specs.Stack.{IsInnermost};
ghost use Rattle.rust_grammar.specs.Items as rows;
ghost use Rattle.rust_grammar.specs.Notation.{◌or◌, ◌! };
ghost use Rattle.rust_grammar.specs.Rule.{One, begins};
ghost use Rattle.rust_grammar.specs.Words.{'ident', 'self'};
ghost use Rattle.rust_productions.specs.Looks.{tokens, Takes, Asks, Peeks};
ghost use Rattle.rust_productions.specs.Reads.{looks, Completes, Reads, Saw, Condition};

use crate::grammar::items::macro_tokens;
use crate::grammar::names::{expect_name, name};
use crate::grammar::token_trees::{expect_token_tree, token_tree};
use crate::grammar::use_trees::opt_rename;
use crate::marker::Marker;
use crate::parser::Parser;
use parser_events::message::Message;
use parser_input::syntax_kind::SyntaxKind;

/// Parses an extern crate, and completes its node.
// extern crate a as b;
pub fn extern_crate(p: &mut Parser<'_>, item: Marker)
    requires some { 2 ≤ tokens p.old }
    requires innermost { IsInnermost item p.old.nodes }
    ensures completes { (c : Condition) → Completes c rows.extern_crate p.old p.new }
    ensures takes { Takes 4090 p.old p.new }
{
    p.take(SyntaxKind::EXTERN_KW);
    p.take(SyntaxKind::CRATE_KW);
    expect_crate_name(p);
    opt_rename(p);
    p.expect(SyntaxKind::SEMICOLON);
    item.complete(p, SyntaxKind::EXTERN_CRATE);
}

/// Takes an identifier, or `self`.
// self
fn ident_or_self(p: &mut Parser<'_>)
    requires some { 1 ≤ tokens p.old }
    ensures reads { (c : Condition) → Reads c (One 'ident' or One 'self') p.old p.new }
    ensures takes { Takes 4095 p.old p.new }
{
    match p.current() {
        SyntaxKind::IDENT => p.take(SyntaxKind::IDENT),
        _ => p.take(SyntaxKind::SELF_KW),
    }
}

/// Returns `true` if the name of a crate starts here, or `self`.
fn at_crate_name(p: &mut Parser<'_>) -> bool
    ensures sees { (c : Condition) → Saw c (begins looks rows.crate_name) p.old result }
    ensures some { IsTrue result → 1 ≤ tokens p.old }
    ensures peeks { Peeks 1 p.old p.new }
{
    match p.current() {
        SyntaxKind::IDENT | SyntaxKind::SELF_KW => true,
        _ => false,
    }
}

/// Parses the name of a crate, or `self`.
// a
fn crate_name(p: &mut Parser<'_>)
    requires some { 1 ≤ tokens p.old }
    ensures reads { (c : Condition) → Reads c rows.crate_name p.old p.new }
    ensures takes { Takes 4095 p.old p.new }
{
    let name = p.start();
    ident_or_self(p);
    name.complete(p, SyntaxKind::NAME_REF);
}

/// Parses the name of a crate, or `self`; emits an error if there is neither.
// a
fn expect_crate_name(p: &mut Parser<'_>)
    ensures reads { (c : Condition) → Reads c (rows.crate_name !) p.old p.new }
    ensures asks { Asks 1 p.old p.new }
{
    if at_crate_name(p) {
        crate_name(p);
        return;
    }
    p.error(Message::Expected(SyntaxKind::NAME_REF));
}

/// Parses the definition of a macro, and completes its node.
// macro_rules! m { () => {} }
pub fn macro_rules(p: &mut Parser<'_>, item: Marker)
    requires some { 3 ≤ tokens p.old }
    requires innermost { IsInnermost item p.old.nodes }
    ensures completes { (c : Condition) → Completes c rows.macro_rules p.old p.new }
    ensures takes { Takes 4090 p.old p.new }
{
    p.take_contextual(SyntaxKind::MACRO_RULES_KW);
    p.take(SyntaxKind::BANG);
    name(p);
    macro_tokens(p);
    item.complete(p, SyntaxKind::MACRO_RULES);
}

/// Parses the definition of a macro that `macro` begins, and completes its node.
// macro m($a:expr) { $a }
pub fn macro_def(p: &mut Parser<'_>, item: Marker)
    requires some { 1 ≤ tokens p.old }
    requires innermost { IsInnermost item p.old.nodes }
    ensures completes { (c : Condition) → Completes c rows.macro_def p.old p.new }
    ensures takes { Takes 4080 p.old p.new }
{
    p.take(SyntaxKind::MACRO_KW);
    expect_name(p);
    macro_def_body(p);
    item.complete(p, SyntaxKind::MACRO_DEF);
}

/// Parses the token trees of a macro that `macro` begins: those in braces, or two.
// ($a:expr) { $a }
fn macro_def_body(p: &mut Parser<'_>)
    ensures reads { (c : Condition) → Reads c rows.macro_def_body p.old p.new }
    ensures asks { Asks 3 p.old p.new }
{
    if p.at(SyntaxKind::L_CURLY) {
        token_tree(p);
        return;
    }
    expect_token_tree(p);
    expect_token_tree(p);
}
