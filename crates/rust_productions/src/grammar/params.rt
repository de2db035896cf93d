//! Parameters of functions.

ghost use Rattle.parser_input.specs.Kinds as kinds;
ghost use Rattle.parser_input.specs.Kinds.{NAME};
ghost use Rattle.rust_grammar.specs.Calls.{Lifetime};
ghost use Rattle.rust_grammar.specs.Expressions.{closure_param};
ghost use Rattle.rust_grammar.specs.Items as rows;
ghost use Rattle.rust_grammar.specs.Items.{self_begins};
ghost use Rattle.rust_grammar.specs.Notation.{⁅◌⁆, ◌▸◌, ◌⟨◌⟩, wide};
ghost use Rattle.rust_grammar.specs.Rule as rules;
ghost use Rattle.rust_grammar.specs.Rule.{Kind, One, begins};
ghost use Rattle.rust_grammar.specs.Shared.{dots_and_dot, dots_dot};
ghost use Rattle.rust_grammar.specs.Words.{'&'};
ghost use Rattle.rust_productions.specs.Looks.{Asks, Peeks, Takes, tokens};
ghost use Rattle.rust_productions.specs.Reads.{Condition, Reads, Saw, looks};
ghost use Rattle.std.specs.Prelude.{◌≤◌, IsTrue, true};

use crate::condition::Condition;
use crate::grammar::names::opt_lifetime;
use crate::grammar::pattern_ranges::take_three_dots;
use crate::grammar::patterns::{at_pattern, at_single_pattern};
use crate::parser::Parser;
use parser_input::syntax_kind::SyntaxKind;

/// Returns `true` if a function parameter starts here. A `self` parameter starts as a pattern
/// does, and in the whole language an attribute may be before it.
pub fn at_param(p: &mut Parser<'_>) -> bool
    ensures sees { (c : Condition) → Saw c (looks rules.param) p.old result }
    ensures some { IsTrue result → 1 ≤ tokens p.old }
    ensures peeks { Peeks 13 p.old p.new }
{
    if at_new_param(p) {
        return true;
    }
    at_pattern(p)
}

/// Returns `true` if a parameter starts here as only the whole language has it: at `...` or at an
/// attribute.
pub fn at_new_param(p: &mut Parser<'_>) -> bool
    ensures sees { (c : Condition) → Saw c (wide rows.new_param_begins) p.old result }
    ensures some { IsTrue result → 1 ≤ tokens p.old }
    ensures peeks { Peeks 4 p.old p.new }
{
    if !p.at_whole() {
        return false;
    }
    if p.at_dots_dot() {
        return true;
    }
    if p.at(SyntaxKind::POUND) {
        return true;
    }
    false
}

/// Returns `true` if `...` is next, in the whole language.
pub fn at_new_dots(p: &mut Parser<'_>) -> bool
    ensures sees { (c : Condition) → Saw c (wide dots_dot) p.old result }
    ensures some { IsTrue result → 3 ≤ tokens p.old }
    ensures peeks { Peeks 3 p.old p.new }
{
    if !p.at_whole() {
        return false;
    }
    if p.at_dots_dot() {
        return true;
    }
    false
}

/// Returns `true` if a parameter of a closure starts here.
pub fn at_closure_param(p: &mut Parser<'_>) -> bool
    ensures sees { (c : Condition) → Saw c (begins looks closure_param) p.old result }
    ensures some { IsTrue result → 1 ≤ tokens p.old }
    ensures peeks { Peeks 9 p.old p.new }
{
    if p.at_new(SyntaxKind::POUND) {
        return true;
    }
    if at_single_pattern(p) {
        return true;
    }
    false
}

/// Parses the name `self`; emits an error if there is none.
// self
pub fn expect_self(p: &mut Parser<'_>)
    ensures reads { (c : Condition) → Reads c rows.self_name p.old p.new }
    ensures asks { Asks 1 p.old p.new }
{
    let name = p.start();
    p.expect(SyntaxKind::SELF_KW);
    name.complete(p, SyntaxKind::NAME);
}

/// Parses the optional `&` of a `self` parameter and its optional lifetime.
// &'a
pub fn opt_ref(p: &mut Parser<'_>)
    ensures reads { (c : Condition) → Reads c ⁅ One '&' ▸ ⁅ Lifetime ⁆ ⁆ p.old p.new }
    ensures asks { Asks 1 p.old p.new }
{
    if p.at(SyntaxKind::AMP) {
        p.take(SyntaxKind::AMP);
        opt_lifetime(p);
    }
}

/// Returns `true` if the `&` that is next starts a `self` parameter.
pub fn at_self_after_ref(p: &mut Parser<'_>) -> bool
    requires { (c : Condition) → Saw c (Kind 0 kinds.AMP) p.old true }
    ensures sees { (c : Condition) → Saw c self_begins p.old result }
    ensures peeks { Peeks 2 p.old p.new }
{
    match p.nth(1) {
        SyntaxKind::SELF_KW | SyntaxKind::LIFETIME_IDENT => true,
        SyntaxKind::MUT_KW => p.at_third(SyntaxKind::SELF_KW),
        _ => false,
    }
}

/// Returns `true` if a `self` parameter is next.
pub fn at_self(p: &mut Parser<'_>) -> bool
    ensures sees { (c : Condition) → Saw c self_begins p.old result }
    ensures peeks { Peeks 3 p.old p.new }
{
    match p.current() {
        SyntaxKind::SELF_KW => true,
        SyntaxKind::MUT_KW => p.at_second(SyntaxKind::SELF_KW),
        SyntaxKind::AMP => at_self_after_ref(p),
        _ => false,
    }
}

/// Parses `...` as a parameter.
// ...
pub fn dots_param(p: &mut Parser<'_>)
    requires { 3 ≤ tokens p.old }
    ensures reads { (c : Condition) → Reads c (kinds.PARAM ⟨ dots_and_dot ⟩) p.old p.new }
    ensures takes { Takes 8192 p.old p.new }
{
    let node = p.start();
    take_three_dots(p);
    node.complete(p, SyntaxKind::PARAM);
}
