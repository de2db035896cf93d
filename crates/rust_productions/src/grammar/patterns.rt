//! Patterns.

ghost use Rattle.parser_input.specs.Kinds.{LITERAL_PAT};
ghost use Rattle.rust_grammar.specs.Calls.{Literal};
ghost use Rattle.rust_grammar.specs.Notation.{◌!, ◌before◌, ◌▸◌, ◌▹◌, ◌⟨◌⟩};
ghost use Rattle.rust_grammar.specs.Patterns as rows;
ghost use Rattle.rust_grammar.specs.Rule as rules;
ghost use Rattle.rust_grammar.specs.Rule.{One, begins};
ghost use Rattle.rust_grammar.specs.Shared.{field_name};
ghost use Rattle.rust_grammar.specs.Words.{'-', ':', 'dots', 'l_paren'};
ghost use Rattle.rust_productions.specs.Looks.{Peeks, Takes, spent, tokens};
ghost use Rattle.rust_productions.specs.Reads.{Condition, Reads, Saw, looks};
ghost use Rattle.std.specs.Prelude.{◌+◌, ◌≡◌, ◌≤◌, IsTrue, false, true};

use crate::grammar::names::{at_literal, expect_literal, literal};
use crate::grammar::operators::at_joint;
use crate::grammar::paths::at_path;
use crate::parser::Parser;
use parser_input::syntax_kind::SyntaxKind;

/// Returns `true` if a pattern without top-level alternatives starts here.
pub fn at_single_pattern(p: &mut Parser<'_>) -> bool
    ensures sees { (c : Condition) → Saw c (looks rules.single_pattern) p.old result }
    ensures some { IsTrue result → 1 ≤ tokens p.old }
    ensures peeks { Peeks 8 p.old p.new }
{
    if p.at(SyntaxKind::IDENT) {
        return true;
    }
    if at_path(p) {
        return true;
    }
    if at_literal(p) {
        return true;
    }
    match p.current() {
        SyntaxKind::MINUS
        | SyntaxKind::UNDERSCORE
        | SyntaxKind::AMP
        | SyntaxKind::L_PAREN
        | SyntaxKind::L_BRACK
        | SyntaxKind::REF_KW
        | SyntaxKind::MUT_KW => true,
        SyntaxKind::DOT => {
            if !at_joint(p) {
                return false;
            }
            if p.at_second(SyntaxKind::DOT) {
                return true;
            }
            false
        }
        SyntaxKind::L_ANGLE => {
            if p.at_whole() {
                return true;
            }
            false
        }
        _ => false,
    }
}

/// Returns `true` if a pattern starts here.
pub fn at_pattern(p: &mut Parser<'_>) -> bool
    ensures sees { (c : Condition) → Saw c (looks rules.pattern) p.old result }
    ensures some { IsTrue result → 1 ≤ tokens p.old }
    ensures peeks { Peeks 9 p.old p.new }
{
    if at_single_pattern(p) {
        return true;
    }
    match p.current() {
        SyntaxKind::PIPE => true,
        _ => false,
    }
}

/// Returns `true` if the name or the number of a field is next, with a colon after it.
pub fn at_named_field(p: &mut Parser<'_>) -> bool
    ensures sees { (c : Condition) → Saw c (begins looks (field_name ▹ One ':')) p.old result }
    ensures some { IsTrue result → 2 ≤ tokens p.old }
    ensures peeks { Peeks 2 p.old p.new }
{
    if !p.at_second(SyntaxKind::COLON) {
        return false;
    }
    match p.current() {
        SyntaxKind::IDENT | SyntaxKind::INT_NUMBER => true,
        _ => false,
    }
}

/// Returns `true` if the name or the number of a field is next, with a colon after it. The field has
/// attributes.
pub fn at_attributed_named_field(p: &mut Parser<'_>) -> bool
    ensures sees { (c : Condition) → Saw c rows.named_field_begins p.old result }
    ensures some { IsTrue result → 2 ≤ tokens p.old }
    ensures peeks { Peeks 2 p.old p.new }
{
    match p.current() {
        SyntaxKind::IDENT | SyntaxKind::INT_NUMBER => {
            if p.at_second(SyntaxKind::COLON) {
                return true;
            }
            false
        }
        _ => false,
    }
}

/// Returns `true` if a field of a record pattern starts here.
pub fn at_pattern_field(p: &mut Parser<'_>) -> bool
    ensures sees { (c : Condition) → Saw c (looks rules.pattern_field) p.old result }
    ensures some { IsTrue result → 1 ≤ tokens p.old }
    ensures peeks { Peeks 6 p.old p.new }
{
    if p.at_new(SyntaxKind::POUND) {
        return true;
    }
    if p.at_pair(SyntaxKind::DOT, SyntaxKind::DOT) {
        return true;
    }
    if at_named_field(p) {
        return true;
    }
    match p.current() {
        SyntaxKind::REF_KW | SyntaxKind::MUT_KW | SyntaxKind::IDENT => true,
        _ => false,
    }
}

/// Parses a literal pattern with a minus sign.
// -1
pub fn negative(p: &mut Parser<'_>)
    requires { 1 ≤ tokens p.old }
    ensures reads { (c : Condition) → Reads c (LITERAL_PAT ⟨ One '-' ▸ Literal ! ⟩) p.old p.new }
    ensures takes { Takes 4090 p.old p.new }
{
    let node = p.start();
    p.take(SyntaxKind::MINUS);
    expect_literal(p);
    node.complete(p, SyntaxKind::LITERAL_PAT);
}

/// Parses a literal pattern without a minus sign.
// 1
pub fn literal_pat(p: &mut Parser<'_>)
    requires { 1 ≤ tokens p.old }
    ensures reads { (c : Condition) → Reads c (LITERAL_PAT ⟨ Literal ⟩) p.old p.new }
    ensures left { tokens p.new + 1 ≡ tokens p.old }
    ensures looks { spent p.new + 4095 ≤ spent p.old }
{
    let node = p.start();
    literal(p);
    node.complete(p, SyntaxKind::LITERAL_PAT);
}

/// Returns `true` if `(` is next, and `..` after it.
pub fn at_paren_before_dots(p: &mut Parser<'_>) -> bool
    ensures sees { (c : Condition) → Saw c ('l_paren' before 'dots') p.old result }
    ensures some { IsTrue result → 1 ≤ tokens p.old }
    ensures peeks { Peeks 3 p.old p.new }
{
    if !p.at(SyntaxKind::L_PAREN) {
        return false;
    }
    p.at_pair_after(SyntaxKind::DOT, SyntaxKind::DOT)
}

/// Returns `true` if an identifier is next that is a pattern: before none of `::`, `(`, `{` and
/// `!`.
pub fn at_ident_pat(p: &mut Parser<'_>) -> bool
    ensures sees { (c : Condition) → Saw c rows.name_alone p.old result }
    ensures some { IsTrue result → 1 ≤ tokens p.old }
    ensures peeks { Peeks 4 p.old p.new }
{
    if !p.at(SyntaxKind::IDENT) {
        return false;
    }
    if p.at_pair_after(SyntaxKind::COLON, SyntaxKind::COLON) {
        return false;
    }
    match p.nth(1) {
        SyntaxKind::L_PAREN | SyntaxKind::L_CURLY | SyntaxKind::BANG => false,
        _ => true,
    }
}

/// Parses a rest pattern.
// ..
pub fn rest_pat(p: &mut Parser<'_>)
    requires { 2 ≤ tokens p.old }
    ensures reads { (c : Condition) → Reads c rows.rest_pat p.old p.new }
    ensures left { tokens p.new + 2 ≡ tokens p.old }
    ensures looks { spent p.new + 8192 ≡ spent p.old }
{
    let node = p.start();
    p.take_pair(SyntaxKind::DOT2);
    node.complete(p, SyntaxKind::REST_PAT);
}
