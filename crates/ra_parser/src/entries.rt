//! Reads all of an input as one thing: what is left over, or cannot begin it, stands in an error.

ghost use Rattle.std.specs.Prelude.{◌≡◌, ◌≤◌, ◌<◌, ◌+◌, ◌*◌, IsTrue, Some, [], ◌∷◌, true, length};
ghost use Rattle.parser_events.specs.Marked.{End, marked};
ghost use Rattle.parser_events.specs.Seen.{message_of};
ghost use Rattle.parser_events.specs.Stack.{IsInnermost};
ghost use Rattle.rust_grammar.specs.Entry.{entry};
ghost use Rattle.rust_grammar.specs.Meaning.{Reading};
ghost use Rattle.rust_grammar.specs.Notation.{wanted};
ghost use Rattle.rust_grammar.specs.Rule.{Left};
ghost use Rattle.rust_grammar.specs.Whole.{whole};
ghost use Rattle.rust_productions.specs.Looks.{looks_per_token, spent, tokens};
ghost use Rattle.rust_productions.specs.Reads.{looks, Does, Gives, Saw};
ghost use Rattle.rust_productions.specs.Stands.{Holds, left};
ghost use Rattle.rust_productions.specs.declared.condition.Condition.{Condition};
ghost use Rattle.rust_productions.specs.declared.condition.Condition.TheVariants.{Off};
ghost use Rattle.ra_parser.specs.Entries.{production_of, single_of, strayed, with_leaves};

use crate::entry_points::TopEntryPoint;
use grammar_reader::grammar::attributes::meta;
use grammar_reader::grammar::entries::{macro_items, macro_statements, source_file};
use grammar_reader::grammar::expressions::expression;
use grammar_reader::grammar::or_patterns::pattern;
use grammar_reader::grammar::types::any_type;
use parser_events::message::Message;
use parser_input::syntax_kind::SyntaxKind;
use rust_productions::condition::Condition;
use rust_productions::grammar::attributes::at_meta;
use rust_productions::grammar::expressions::at_expression;
use rust_productions::grammar::patterns::at_pattern;
use rust_productions::grammar::types::at_type;
use rust_productions::marker::Marker;
use rust_productions::parser::Parser;

/// What an input is asked to be, where that is one thing and no list.
#[derive(Clone, Copy)]
enum Single {
    Expression,
    Meta,
    Pattern,
    Type,
}

/// Whether a token is left.
fn at_token(p: &mut Parser<'_>) -> bool
    ensures sees { (c : Condition) → Saw c Left p.old result }
    ensures same { Does (λ s. s) p.old p.new }
    ensures left { tokens p.new ≡ tokens p.old }
    ensures looks { spent p.new ≤ spent p.old + 1 }
{
    match p.current() {
        SyntaxKind::EOF => false,
        _ => true,
    }
}

/// Takes the tokens that are left, each as a leaf.
fn take_rest(p: &mut Parser<'_>)
    ensures takes { Does with_leaves p.old p.new }
    ensures looks { spent p.new ≤ spent p.old + 1 }
{
    'tokens: while at_token(p) {
        p.take_any();
    }
}

/// Closes the only open node as an error, with this message and the tokens that are left.
fn stray(p: &mut Parser<'_>, frame: Marker, message: Message)
    requires marker { IsInnermost frame p.old.nodes }
    ensures tree { (s : Reading) → left p.old ≡ s.rest
        → Holds p.old.nodes (marked s.given ∷ End ∷ [])
        → Holds p.new.nodes (marked (strayed (message_of message) s) ∷ []) }
    ensures looks { spent p.new ≤ spent p.old + 1 }
{
    p.error(message);
    take_rest(p);
    frame.complete(p, SyntaxKind::ERROR);
}

/// What is said where it does not begin.
fn missing(single: Single) -> Message
    ensures { wanted (single_of single) ≡ Some (message_of result) }
{
    match single {
        Single::Expression => Message::ExpectedExpression,
        Single::Meta => Message::Expected(SyntaxKind::META),
        Single::Pattern => Message::ExpectedPattern,
        Single::Type => Message::ExpectedType,
    }
}

/// Whether it begins here.
fn begins(p: &mut Parser<'_>, single: Single) -> bool
    ensures sees { Saw Off (looks (single_of single)) p.old result }
    ensures some { IsTrue result → 1 ≤ tokens p.old }
    ensures same { Does (λ s. s) p.old p.new }
    ensures left { tokens p.new ≡ tokens p.old }
    ensures looks { spent p.new ≤ spent p.old + 19 }
{
    match single {
        Single::Expression => at_expression(p, Condition::Off),
        Single::Meta => at_meta(p),
        Single::Pattern => at_pattern(p),
        Single::Type => at_type(p),
    }
}

/// Reads it where it begins.
fn read(p: &mut Parser<'_>, single: Single)
    requires begins { Saw Off (looks (single_of single)) p.old true }
    requires some { 1 ≤ tokens p.old }
    ensures gives { Gives (single_of single) Off p.old p.new }
    ensures looks { spent p.new ≤ spent p.old }
{
    match single {
        Single::Expression => expression(p, Condition::Off),
        Single::Meta => meta(p, Condition::Off),
        Single::Pattern => pattern(p),
        Single::Type => any_type(p),
    }
}

/// Reads an input that no token was taken of as one thing.
fn read_single(p: &mut Parser<'_>, single: Single)
    requires nodes { p.old.nodes ≡ Some (End ∷ []) }
    ensures tree { Holds p.new.nodes (marked (entry whole (single_of single) (left p.old)) ∷ []) }
    ensures looks { spent p.new ≤ spent p.old + 21 }
{
    let frame = p.start();
    if !begins(p, single) {
        stray(p, frame, missing(single));
        return;
    }
    read(p, single);
    if at_token(p) {
        stray(p, frame, Message::UnexpectedTokens);
        return;
    }
    frame.abandon(p);
}

/// Reads an input that no token was taken of.
pub(crate) fn read_entry(p: &mut Parser<'_>, entry_point: TopEntryPoint)
    requires nodes { p.old.nodes ≡ Some (End ∷ []) }
    ensures tree { Holds p.new.nodes
        (marked (entry whole (production_of entry_point) (left p.old)) ∷ []) }
    ensures looks { p.new.looks < p.old.looks + looks_per_token * (length (left p.old) + 1) }
{
    match entry_point {
        TopEntryPoint::SourceFile => source_file(p),
        TopEntryPoint::MacroStmts => macro_statements(p),
        TopEntryPoint::MacroItems => macro_items(p),
        TopEntryPoint::Pattern => read_single(p, Single::Pattern),
        TopEntryPoint::Ty => read_single(p, Single::Type),
        TopEntryPoint::Expr => read_single(p, Single::Expression),
        TopEntryPoint::MetaItem => read_single(p, Single::Meta),
    }
}
