//! Fields of records.

ghost use Rattle.parser_input.specs.Kinds.{IDENT_PAT, RECORD_PAT_FIELD};
ghost use Rattle.rust_grammar.specs.Calls.{Name};
ghost use Rattle.rust_grammar.specs.Notation.{⁅◌⁆, ◌!, ◌▸◌, ◌⟨◌⟩};
ghost use Rattle.rust_grammar.specs.Patterns as pattern_rows;
ghost use Rattle.rust_grammar.specs.Rule as rules;
ghost use Rattle.rust_grammar.specs.Rule.{One, begins};
ghost use Rattle.rust_grammar.specs.Shared.{field_name, ident_or_int};
ghost use Rattle.rust_grammar.specs.Words.{'mut', 'ref'};
ghost use Rattle.rust_productions.specs.Looks.{Asks, Peeks, Takes, spent, tokens};
ghost use Rattle.rust_productions.specs.Reads.{Condition, Reads, Saw, looks};
ghost use Rattle.std.specs.Prelude.{◌+◌, ◌≡◌, ◌≤◌, IsTrue, true};

use crate::condition::Condition;
use crate::grammar::names::{expect_name, name};
use crate::grammar::paths::at_path;
use crate::grammar::patterns::at_named_field;
use crate::parser::Parser;
use parser_input::syntax_kind::SyntaxKind;

/// Returns `true` if a field of a record expression starts here.
pub fn at_field_value(p: &mut Parser<'_>) -> bool
    ensures sees { (c : Condition) → Saw c (looks rules.field_value) p.old result }
    ensures some { IsTrue result → 1 ≤ tokens p.old }
    ensures peeks { Peeks 8 p.old p.new }
{
    if p.at_new(SyntaxKind::POUND) {
        return true;
    }
    if at_path(p) {
        return true;
    }
    if at_named_field(p) {
        return true;
    }
    if p.at_pair(SyntaxKind::DOT, SyntaxKind::DOT) {
        return true;
    }
    false
}

/// Parses the token of a field's name or number.
// a
pub fn name_or_number(p: &mut Parser<'_>)
    requires { 1 ≤ tokens p.old }
    ensures reads { (c : Condition) → Reads c ident_or_int p.old p.new }
    ensures left { tokens p.new + 1 ≡ tokens p.old }
    ensures looks { spent p.new + 4095 ≤ spent p.old }
{
    match p.current() {
        SyntaxKind::IDENT => p.take(SyntaxKind::IDENT),
        _ => p.take(SyntaxKind::INT_NUMBER),
    }
}

/// Parses the name or the number of a field.
// 0
pub fn name_of_field(p: &mut Parser<'_>)
    requires { 1 ≤ tokens p.old }
    ensures reads { (c : Condition) → Reads c field_name p.old p.new }
    ensures left { tokens p.new + 1 ≡ tokens p.old }
    ensures looks { spent p.new + 4095 ≤ spent p.old }
{
    let node = p.start();
    name_or_number(p);
    node.complete(p, SyntaxKind::NAME_REF);
}

/// Parses the binding of a shorthand field; emits an error if there is no name.
// ref mut a
pub fn any_binding(p: &mut Parser<'_>)
    ensures reads { (c : Condition) → Reads c (IDENT_PAT ⟨ pattern_rows.binding ⟩) p.old p.new }
    ensures asks { Asks 3 p.old p.new }
{
    let node = p.start();
    p.eat(SyntaxKind::REF_KW);
    p.eat(SyntaxKind::MUT_KW);
    expect_name(p);
    node.complete(p, SyntaxKind::IDENT_PAT);
}

/// Parses a name with `mut`.
// mut a
pub fn name_after_mut(p: &mut Parser<'_>)
    requires { 1 ≤ tokens p.old }
    ensures reads { (c : Condition) → Reads c (One 'mut' ▸ Name !) p.old p.new }
    ensures takes { Takes 4095 p.old p.new }
{
    p.take(SyntaxKind::MUT_KW);
    expect_name(p);
}

/// Parses a name with `ref` and an optional `mut`.
// ref mut a
pub fn name_after_ref(p: &mut Parser<'_>)
    requires { 1 ≤ tokens p.old }
    ensures reads { (c : Condition) → Reads c (One 'ref' ▸ ⁅ One 'mut' ⁆ ▸ Name !) p.old p.new }
    ensures takes { Takes 4094 p.old p.new }
{
    p.take(SyntaxKind::REF_KW);
    p.eat(SyntaxKind::MUT_KW);
    expect_name(p);
}

/// Parses a name with an optional `ref` and an optional `mut`.
// ref mut a
pub fn bound_name(p: &mut Parser<'_>)
    requires begins { (c : Condition) → Saw c (begins looks pattern_rows.binding) p.old true }
    requires some { 1 ≤ tokens p.old }
    ensures reads { (c : Condition) → Reads c pattern_rows.binding p.old p.new }
    ensures takes { Takes 4090 p.old p.new }
{
    match p.current() {
        SyntaxKind::REF_KW => name_after_ref(p),
        SyntaxKind::MUT_KW => name_after_mut(p),
        _ => name(p),
    }
}

/// Parses a shorthand field of a record pattern.
// ref mut a
pub fn shorthand(p: &mut Parser<'_>)
    requires begins { (c : Condition) → Saw c (begins looks pattern_rows.binding) p.old true }
    requires some { 1 ≤ tokens p.old }
    ensures reads { (c : Condition) → Reads c pattern_rows.shorthand p.old p.new }
    ensures takes { Takes 4090 p.old p.new }
{
    let field = p.start();
    let pattern = p.start();
    bound_name(p);
    pattern.complete(p, SyntaxKind::IDENT_PAT);
    field.complete(p, SyntaxKind::RECORD_PAT_FIELD);
}
