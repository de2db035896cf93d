//! Range patterns.

ghost use Rattle.std.specs.Prelude.{◌≤◌, true};
ghost use Rattle.parser_events.specs.Stack.{IsInnermost};
ghost use Rattle.rust_grammar.specs.Patterns as rows;
ghost use Rattle.rust_grammar.specs.Rule as rules;
ghost use Rattle.rust_grammar.specs.Whole.{rule};
ghost use Rattle.rust_productions.specs.Looks.{tokens, Takes, Asks, TakesIn, AsksIn};
ghost use Rattle.rust_productions.specs.Reads.{looks, Gives, Reads, Saw};
ghost use Rattle.rust_productions.specs.Starts.{Starts};
ghost use Rattle.rust_productions.specs.declared.condition.Condition.{Condition};

use crate::grammar::patterns::inside;
use parser_input::syntax_kind::SyntaxKind;
use rust_productions::grammar::pattern_ranges::{
    at_open_range, at_range_end, at_range_op, take_range_op, take_two_dots,
};
use rust_productions::marker::Marker;
use rust_productions::parser::Parser;

/// Parses a pattern without top-level alternatives, within `frame`, which the caller abandons.
// 1..=2
#[cycle(grammar)]
pub(crate) fn range_or_atom(p: &mut Parser<'_>, frame: Marker) -> Marker
    requires begins { Starts (looks rules.single_pattern) p.old }
    requires innermost { IsInnermost frame p.old.nodes }
    ensures reads { (c : Condition) → Reads c (rule rules.single_pattern) p.old p.new }
    ensures takes { TakesIn result 2920 p.old p.new }
{
    if at_open_range(p) {
        open_range(p);
        return frame;
    }
    let frame = inside(p, frame);
    opt_range(p, frame)
}

/// Parses a range pattern without a start.
// ..=2
#[cycle(grammar)]
fn open_range(p: &mut Parser<'_>)
    requires begins { (c : Condition) → Saw c rows.range_op_begins p.old true }
    requires some { 2 ≤ tokens p.old }
    ensures reads { (c : Condition) → Reads c rows.open_range p.old p.new }
    ensures takes { Takes 7900 p.old p.new }
{
    let node = p.start();
    take_two_dots(p);
    opt_range_end(p);
    node.complete(p, SyntaxKind::RANGE_PAT);
}

/// Parses the optional end of a range pattern.
// 2
#[cycle(grammar)]
fn opt_range_end(p: &mut Parser<'_>)
    ensures reads { (c : Condition) → Reads c rows.range_end p.old p.new }
    ensures asks { Asks 3 p.old p.new }
{
    if at_range_end(p) {
        pattern_atom(p);
    }
}

/// Parses a pattern without alternatives and without a range.
// 2
#[cycle(grammar)]
fn pattern_atom(p: &mut Parser<'_>)
    requires begins { Starts (looks rules.pattern_atom) p.old }
    ensures gives { (c : Condition) → Gives rules.pattern_atom c p.old p.new }
    ensures takes { Takes 2950 p.old p.new }
{
    let frame = p.start();
    let frame = inside(p, frame);
    frame.abandon(p);
}

/// Parses an optional range operator and the optional end after it. Completes the range pattern.
// ..=2
#[cycle(grammar)]
pub(crate) fn opt_range(p: &mut Parser<'_>, frame: Marker) -> Marker
    requires innermost { IsInnermost frame p.old.nodes }
    ensures reads { (c : Condition) → Reads c rows.range_tail p.old p.new }
    ensures asks { AsksIn result 2 p.old p.new }
{
    if at_range_op(p) {
        take_range_op(p);
        opt_range_end(p);
        return frame.wrap(p, SyntaxKind::RANGE_PAT);
    }
    frame
}
