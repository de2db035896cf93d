//! What all lists of elements with commas between them share.

ghost use Rattle.std.specs.Prelude.{◌+◌, ◌<◌, ◌≤◌, IsTrue};
ghost use Rattle.parser_input.specs.Kind.{raw_of};
ghost use Rattle.parser_input.specs.Kinds as kinds;
ghost use Rattle.rust_productions.specs.Looks.{tokens, spent, Asks, Peeks};
ghost use Rattle.rust_grammar.specs.Notation as notation;
ghost use Rattle.rust_grammar.specs.Notation.{until, separator, unexpected};
ghost use Rattle.rust_grammar.specs.Words.{one};
ghost use Rattle.rust_productions.specs.Reads.{Reads, Saw, Condition};

use crate::parser::Parser;
use parser_events::message::Message;
use parser_input::syntax_kind::SyntaxKind;

/// Returns `true` if no token is left.
pub(crate) fn at_end(p: &mut Parser<'_>) -> bool
    ensures sees { (c : Condition) → Saw c notation.at_end p.old result }
    ensures peeks { Peeks 1 p.old p.new }
{
    match p.current() {
        SyntaxKind::EOF => true,
        _ => false,
    }
}

/// Returns `true` if a list ends here: at its closing token or at the end of the input.
pub fn at_list_end(p: &mut Parser<'_>, closing: SyntaxKind) -> bool
    ensures sees { (c : Condition) → Saw c (until (one (raw_of closing))) p.old result }
    ensures peeks { Peeks 2 p.old p.new }
{
    if at_end(p) {
        return true;
    }
    p.at(closing)
}

/// Returns `true` if a token is next that a list skips into an error.
pub fn at_unexpected(p: &mut Parser<'_>) -> bool
    ensures sees { (c : Condition) → Saw c unexpected p.old result }
    ensures some { IsTrue result → 1 ≤ tokens p.old }
    ensures peeks { Peeks 1 p.old p.new }
{
    match p.current() {
        SyntaxKind::SEMICOLON
        | SyntaxKind::L_CURLY
        | SyntaxKind::R_CURLY
        | SyntaxKind::R_PAREN
        | SyntaxKind::R_BRACK
        | SyntaxKind::EOF => false,
        _ => true,
    }
}

/// Parses the comma after an element; emits an error if there is none and the list does not close.
pub fn comma(p: &mut Parser<'_>, closing: SyntaxKind)
    ensures reads { (c : Condition) → Reads c (separator (one (raw_of closing))) p.old p.new }
    ensures asks { Asks 2 p.old p.new }
    ensures pays { tokens p.new < tokens p.old → spent p.new + 4000 ≤ spent p.old }
{
    if p.at(SyntaxKind::COMMA) {
        p.take(SyntaxKind::COMMA);
        return;
    }
    if p.at(closing) {
        return;
    }
    p.error(Message::Expected(SyntaxKind::COMMA));
}
