//! Functions.

ghost use Rattle.std.specs.Prelude.{◌≤◌};
ghost use Rattle.parser_input.specs.Kinds.{FN};
ghost use Rattle.parser_events.specs.Stack.{IsInnermost};
ghost use Rattle.rust_grammar.specs.Items.{fn_begins};
ghost use Rattle.rust_grammar.specs.Notation.{◌!, ◌▸◌, ◌<⟨◌⟩};
ghost use Rattle.rust_grammar.specs.Items as rows;
ghost use Rattle.rust_grammar.specs.Rule.{One};
ghost use Rattle.rust_grammar.specs.Words.{'fn'};
ghost use Rattle.rust_productions.specs.Looks.{tokens, Takes, Asks};
ghost use Rattle.rust_productions.specs.Reads.{Completes, Reads};
ghost use Rattle.rust_productions.specs.Starts.{Starts};
ghost use Rattle.rust_productions.specs.declared.condition.Condition.{Condition};

use crate::grammar::expressions::blocks::block;
use crate::grammar::parts::{Part, expect_part, opt_part};
use crate::grammar::types::opt_ret_type;
use parser_input::syntax_kind::SyntaxKind;
use rust_productions::condition::Condition;
use rust_productions::grammar::items::fn_words;
use rust_productions::grammar::names::expect_name;
use rust_productions::marker::Marker;
use rust_productions::parser::Parser;

/// Parses a function, and completes its node.
// const unsafe fn f<T>(a: T) -> T { a }
#[cycle(grammar)]
pub(crate) fn fn_item(p: &mut Parser<'_>, item: Marker, condition: Condition)
    requires begins { Starts fn_begins p.old }
    requires innermost { IsInnermost item p.old.nodes }
    ensures completes { Completes condition rows.fn_item p.old p.new }
    ensures takes { Takes 4080 p.old p.new }
{
    fn_words(p);
    after_fn(p);
    item.complete(p, SyntaxKind::FN);
}

/// Parses a function without words before its `fn`, and completes its node.
// fn f<T>(a: T) -> T { a }
#[cycle(grammar)]
pub(crate) fn plain_fn(p: &mut Parser<'_>, node: Marker)
    requires some { 1 ≤ tokens p.old }
    requires innermost { IsInnermost node p.old.nodes }
    ensures completes { (c : Condition)
        → Completes c (FN <⟨ One 'fn' ▸ rows.after_fn ⟩) p.old p.new }
    ensures takes { Takes 4080 p.old p.new }
{
    p.take(SyntaxKind::FN_KW);
    after_fn(p);
    node.complete(p, SyntaxKind::FN);
}

/// Parses a function after its `fn`.
// f<T>(a: T) -> T { a }
#[cycle(grammar)]
fn after_fn(p: &mut Parser<'_>)
    ensures reads { (c : Condition) → Reads c rows.after_fn p.old p.new }
    ensures asks { Asks 8 p.old p.new }
{
    expect_name(p);
    opt_part(p, Part::GenericParams);
    expect_part(p, Part::Params);
    opt_ret_type(p);
    opt_part(p, Part::WhereClause);
    fn_body(p);
}

/// Parses the body of a function, or its `;`.
// { a }
#[cycle(grammar)]
fn fn_body(p: &mut Parser<'_>)
    ensures reads { (c : Condition) → Reads c rows.fn_body p.old p.new }
    ensures asks { Asks 2 p.old p.new }
{
    if p.at(SyntaxKind::L_CURLY) {
        block(p);
        return;
    }
    p.expect(SyntaxKind::SEMICOLON);
}
