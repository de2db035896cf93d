//! Visibility.

ghost use Rattle.std.specs.Prelude.{◌≤◌, IsTrue};
ghost use Rattle.rust_productions.specs.Looks.{tokens, Takes, Asks, Peeks};
ghost use Rattle.rust_grammar.specs.Notation.{⁅◌⁆};
ghost use Rattle.rust_grammar.specs.Calls.{Visibility};
ghost use Rattle.rust_grammar.specs.Items.{visibility_goes_on};
ghost use Rattle.rust_grammar.specs.Rule as rules;
ghost use Rattle.rust_grammar.specs.Rule.{When};
ghost use Rattle.rust_grammar.specs.Items as rows;
ghost use Rattle.rust_productions.specs.Reads.{Gives, Reads, Saw, Condition};

use crate::grammar::paths::expect_path;
use crate::parser::Parser;
use parser_input::syntax_kind::SyntaxKind;

/// Returns `true` if the scope of a visibility is next, in its parentheses.
fn at_scope(p: &mut Parser<'_>) -> bool
    ensures sees { (c : Condition) → Saw c visibility_goes_on p.old result }
    ensures some { IsTrue result → 1 ≤ tokens p.old }
    ensures peeks { Peeks 4 p.old p.new }
{
    if !p.at(SyntaxKind::L_PAREN) {
        return false;
    }
    if p.at_second(SyntaxKind::IN_KW) {
        return true;
    }
    if !p.at_third(SyntaxKind::R_PAREN) {
        return false;
    }
    match p.nth(1) {
        SyntaxKind::CRATE_KW | SyntaxKind::SELF_KW | SyntaxKind::SUPER_KW => true,
        _ => false,
    }
}

/// Parses the optional scope of a visibility, in its parentheses.
// (in a::b)
fn opt_scope(p: &mut Parser<'_>)
    ensures reads { (c : Condition) → Reads c
        ⁅ When visibility_goes_on rows.visibility_scope ⁆ p.old p.new }
    ensures asks { Asks 4 p.old p.new }
{
    if at_scope(p) {
        p.take(SyntaxKind::L_PAREN);
        p.eat(SyntaxKind::IN_KW);
        expect_path(p);
        p.expect(SyntaxKind::R_PAREN);
    }
}

/// Parses a visibility.
// pub(crate)
pub fn visibility(p: &mut Parser<'_>)
    requires { 1 ≤ tokens p.old }
    ensures gives { (c : Condition) → Gives rules.visibility c p.old p.new }
    ensures takes { Takes 4092 p.old p.new }
{
    let visibility = p.start();
    p.take(SyntaxKind::PUB_KW);
    opt_scope(p);
    visibility.complete(p, SyntaxKind::VISIBILITY);
}

/// Parses an optional visibility.
// pub(crate)
pub fn opt_visibility(p: &mut Parser<'_>)
    ensures reads { (c : Condition) → Reads c ⁅ Visibility ⁆ p.old p.new }
    ensures asks { Asks 1 p.old p.new }
{
    if p.at(SyntaxKind::PUB_KW) {
        visibility(p);
    }
}
