//! Names, lifetimes and literals.

ghost use Rattle.std.specs.Prelude.{◌≡◌, ◌+◌, ◌≤◌, IsTrue};
ghost use Rattle.parser_input.specs.Kinds as kinds;
ghost use Rattle.parser_events.specs.Forest.{Expected};
ghost use Rattle.rust_productions.specs.Looks.{tokens, spent, Asks, Peeks};
ghost use Rattle.rust_grammar.specs.Notation.{⁅◌⁆, ◌! };
ghost use Rattle.rust_grammar.specs.Patterns.{literal_token};
ghost use Rattle.rust_grammar.specs.Calls.{Name, Lifetime, Ref, Literal};
ghost use Rattle.rust_grammar.specs.Rule as rules;
ghost use Rattle.rust_grammar.specs.Paths as rows;
ghost use Rattle.rust_productions.specs.Reads.{looks, Gives, Reads, Saw, Condition};

use crate::parser::Parser;
use parser_events::message::Message;
use parser_input::syntax_kind::SyntaxKind;

/// Parses a name.
// a
pub fn name(p: &mut Parser<'_>)
    requires { 1 ≤ tokens p.old }
    ensures gives { (c : Condition) → Gives rules.name c p.old p.new }
    ensures left { tokens p.new + 1 ≡ tokens p.old }
    ensures looks { spent p.new + 4096 ≡ spent p.old }
{
    let name = p.start();
    p.take(SyntaxKind::IDENT);
    name.complete(p, SyntaxKind::NAME);
}

/// Parses a name; emits an error if there is none.
// a
pub fn expect_name(p: &mut Parser<'_>)
    ensures reads { (c : Condition) → Reads c (Name !) p.old p.new }
    ensures asks { Asks 1 p.old p.new }
{
    if p.at(SyntaxKind::IDENT) {
        name(p);
        return;
    }
    p.error(Message::Expected(SyntaxKind::NAME));
}

/// Parses a lifetime.
// 'a
pub fn lifetime(p: &mut Parser<'_>)
    requires { 1 ≤ tokens p.old }
    ensures gives { (c : Condition) → Gives rules.lifetime c p.old p.new }
    ensures left { tokens p.new + 1 ≡ tokens p.old }
    ensures looks { spent p.new + 4096 ≡ spent p.old }
{
    let lifetime = p.start();
    p.take(SyntaxKind::LIFETIME_IDENT);
    lifetime.complete(p, SyntaxKind::LIFETIME);
}

/// Parses an optional lifetime.
// 'a
pub fn opt_lifetime(p: &mut Parser<'_>)
    ensures reads { (c : Condition) → Reads c ⁅ Lifetime ⁆ p.old p.new }
    ensures asks { Asks 1 p.old p.new }
{
    if p.at(SyntaxKind::LIFETIME_IDENT) {
        lifetime(p);
    }
}

/// Takes the identifier or the keyword of a path segment.
// self
fn take_word(p: &mut Parser<'_>)
    requires { 1 ≤ tokens p.old }
    ensures reads { (c : Condition) → Reads c rows.ref_word p.old p.new }
    ensures left { tokens p.new + 1 ≡ tokens p.old }
    ensures looks { spent p.new + 4095 ≤ spent p.old }
{
    match p.current() {
        SyntaxKind::IDENT => p.take(SyntaxKind::IDENT),
        SyntaxKind::SELF_KW => p.take(SyntaxKind::SELF_KW),
        SyntaxKind::SUPER_KW => p.take(SyntaxKind::SUPER_KW),
        SyntaxKind::CRATE_KW => p.take(SyntaxKind::CRATE_KW),
        _ => p.take(SyntaxKind::SELF_TYPE_KW),
    }
}

/// Parses a name reference.
// self
pub fn name_ref(p: &mut Parser<'_>)
    requires { 1 ≤ tokens p.old }
    ensures gives { (c : Condition) → Gives rules.name_ref c p.old p.new }
    ensures left { tokens p.new + 1 ≡ tokens p.old }
    ensures looks { spent p.new + 4095 ≤ spent p.old }
{
    let name = p.start();
    take_word(p);
    name.complete(p, SyntaxKind::NAME_REF);
}

/// Returns `true` if a name reference starts here.
#[inline(always)]
pub fn at_name_ref(p: &mut Parser<'_>) -> bool
    ensures sees { (c : Condition) → Saw c (looks rules.name_ref) p.old result }
    ensures some { IsTrue result → 1 ≤ tokens p.old }
    ensures peeks { Peeks 1 p.old p.new }
{
    match p.current() {
        SyntaxKind::IDENT
        | SyntaxKind::SELF_KW
        | SyntaxKind::SUPER_KW
        | SyntaxKind::CRATE_KW
        | SyntaxKind::SELF_TYPE_KW => true,
        _ => false,
    }
}

/// Parses a name reference; emits an error if there is none.
// self
pub(crate) fn expect_name_ref(p: &mut Parser<'_>)
    ensures reads { (c : Condition) → Reads c (Ref !) p.old p.new }
    ensures asks { Asks 1 p.old p.new }
{
    if at_name_ref(p) {
        name_ref(p);
        return;
    }
    p.error(Message::Expected(SyntaxKind::NAME_REF));
}

/// Takes the token of a literal.
// 1
fn take_literal(p: &mut Parser<'_>)
    requires { 1 ≤ tokens p.old }
    ensures reads { (c : Condition) → Reads c literal_token p.old p.new }
    ensures left { tokens p.new + 1 ≡ tokens p.old }
    ensures looks { spent p.new + 4095 ≤ spent p.old }
{
    match p.current() {
        SyntaxKind::INT_NUMBER => p.take(SyntaxKind::INT_NUMBER),
        SyntaxKind::FLOAT_NUMBER => p.take(SyntaxKind::FLOAT_NUMBER),
        SyntaxKind::CHAR => p.take(SyntaxKind::CHAR),
        SyntaxKind::BYTE => p.take(SyntaxKind::BYTE),
        SyntaxKind::STRING => p.take(SyntaxKind::STRING),
        SyntaxKind::BYTE_STRING => p.take(SyntaxKind::BYTE_STRING),
        SyntaxKind::C_STRING => p.take(SyntaxKind::C_STRING),
        SyntaxKind::TRUE_KW => p.take(SyntaxKind::TRUE_KW),
        _ => p.take(SyntaxKind::FALSE_KW),
    }
}

/// Parses a literal.
// 1
pub fn literal(p: &mut Parser<'_>)
    requires { 1 ≤ tokens p.old }
    ensures gives { (c : Condition) → Gives rules.literal c p.old p.new }
    ensures left { tokens p.new + 1 ≡ tokens p.old }
    ensures looks { spent p.new + 4095 ≤ spent p.old }
{
    let literal = p.start();
    take_literal(p);
    literal.complete(p, SyntaxKind::LITERAL);
}

/// Returns `true` if a literal starts here.
#[inline(always)]
pub fn at_literal(p: &mut Parser<'_>) -> bool
    ensures sees { (c : Condition) → Saw c (looks rules.literal) p.old result }
    ensures some { IsTrue result → 1 ≤ tokens p.old }
    ensures peeks { Peeks 1 p.old p.new }
{
    match p.current() {
        SyntaxKind::INT_NUMBER
        | SyntaxKind::FLOAT_NUMBER
        | SyntaxKind::CHAR
        | SyntaxKind::BYTE
        | SyntaxKind::STRING
        | SyntaxKind::BYTE_STRING
        | SyntaxKind::C_STRING
        | SyntaxKind::TRUE_KW
        | SyntaxKind::FALSE_KW => true,
        _ => false,
    }
}

/// Parses a literal; emits an error if there is none.
// 1
pub fn expect_literal(p: &mut Parser<'_>)
    ensures reads { (c : Condition) → Reads c (Literal !) p.old p.new }
    ensures asks { Asks 1 p.old p.new }
{
    if at_literal(p) {
        literal(p);
        return;
    }
    p.error(Message::Expected(SyntaxKind::LITERAL));
}
