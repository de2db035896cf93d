//! Patterns with `|` between them.

ghost use Rattle.std.specs.Prelude.{◌≤◌, true};
ghost use Rattle.parser_events.specs.Stack.{IsInnermost};
ghost use Rattle.rust_grammar.specs.Notation.{⁅◌⁆, ◌*, ◌! };
ghost use Rattle.rust_grammar.specs.Rule as rules;
ghost use Rattle.rust_grammar.specs.Whole.{rule};
ghost use Rattle.rust_grammar.specs.Patterns as rows;
ghost use Rattle.rust_productions.specs.Looks.{tokens, Takes, Asks, TakesIn, AsksIn};
ghost use Rattle.rust_productions.specs.Reads.{looks, Gives, Reads, Saw};
ghost use Rattle.rust_productions.specs.Starts.{Starts};
ghost use Rattle.rust_productions.specs.declared.condition.Condition.{Condition};

use crate::grammar::parts::{Part, expect_part};
use crate::grammar::patterns::{single_or_missing, single_pattern};
use parser_input::syntax_kind::SyntaxKind;
use rust_productions::grammar::patterns::at_pattern;
use rust_productions::marker::Marker;
use rust_productions::parser::Parser;

/// Parses a pattern.
// A | B
#[inline(never)]
#[cycle(grammar)]
pub fn pattern(p: &mut Parser<'_>)
    requires begins { (c : Condition) → Saw c (looks rules.pattern) p.old true }
    requires some { 1 ≤ tokens p.old }
    ensures gives { (c : Condition) → Gives rules.pattern c p.old p.new }
    ensures takes { Takes 2900 p.old p.new }
{
    let frame = p.start();
    let frame = alternatives(p, frame);
    frame.abandon(p);
}

/// Parses a pattern, within `frame`, which the caller abandons.
// A | B
#[cycle(grammar)]
fn alternatives(p: &mut Parser<'_>, frame: Marker) -> Marker
    requires begins { Starts (looks rules.pattern) p.old }
    requires innermost { IsInnermost frame p.old.nodes }
    ensures reads { (c : Condition) → Reads c (rule rules.pattern) p.old p.new }
    ensures takes { TakesIn result 2900 p.old p.new }
{
    if p.at(SyntaxKind::PIPE) {
        p.take(SyntaxKind::PIPE);
        expect_part(p, Part::SinglePattern);
        further(p);
        return frame.wrap(p, SyntaxKind::OR_PAT);
    }
    single_pattern(p);
    opt_further(p, frame)
}

/// Parses a `|` and the alternative after it.
// | B
#[cycle(grammar)]
fn one_further(p: &mut Parser<'_>)
    requires some { 1 ≤ tokens p.old }
    ensures reads { (c : Condition) → Reads c rows.further_alternative p.old p.new }
    ensures takes { Takes 4080 p.old p.new }
{
    p.take(SyntaxKind::PIPE);
    expect_part(p, Part::SinglePattern);
}

/// Parses further alternatives, each with its `|`.
// | B | C
#[cycle(grammar)]
fn further(p: &mut Parser<'_>)
    ensures reads { (c : Condition) → Reads c (rows.further_alternative *) p.old p.new }
    ensures asks { Asks 1 p.old p.new }
{
    'turns: while p.at(SyntaxKind::PIPE) {
        one_further(p);
    }
}

/// Parses optional further alternatives. If there are some, completes the or-pattern.
// | B | C
#[cycle(grammar)]
fn opt_further(p: &mut Parser<'_>, frame: Marker) -> Marker
    requires innermost { IsInnermost frame p.old.nodes }
    ensures reads { (c : Condition) → Reads c ⁅ rows.or_pattern ⁆ p.old p.new }
    ensures asks { AsksIn result 1 p.old p.new }
{
    if p.at(SyntaxKind::PIPE) {
        one_further(p);
        further(p);
        return frame.wrap(p, SyntaxKind::OR_PAT);
    }
    frame
}

/// Parses a pattern, or an error within the nodes of its path if none starts here.
// A | B
#[cycle(grammar)]
pub(crate) fn pattern_or_missing(p: &mut Parser<'_>)
    ensures gives { (c : Condition) → Gives rules.pattern c p.old p.new }
    ensures asks { Asks 30 p.old p.new }
{
    if at_pattern(p) {
        pattern(p);
        return;
    }
    let frame = p.start();
    single_or_missing(p);
    let frame = opt_further(p, frame);
    frame.abandon(p);
}
