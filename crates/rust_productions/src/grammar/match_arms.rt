//! Arms of a `match`.

ghost use Rattle.rust_grammar.specs.Expressions as rows;
ghost use Rattle.rust_grammar.specs.Notation.{◌!, ◌before◌, wide};
ghost use Rattle.rust_grammar.specs.Rule as rules;
ghost use Rattle.rust_grammar.specs.Rule.{One};
ghost use Rattle.rust_grammar.specs.Words.{'!', '#', '=>'};
ghost use Rattle.rust_productions.specs.Looks.{Asks, Peeks, tokens};
ghost use Rattle.rust_productions.specs.Reads.{Condition, Reads, Saw, looks};
ghost use Rattle.std.specs.Prelude.{◌≤◌, IsTrue};

use crate::condition::Condition;
use crate::grammar::paths::at_colons;
use crate::grammar::patterns::at_pattern;
use crate::parser::Parser;
use parser_events::message::Message;
use parser_input::syntax_kind::SyntaxKind;

/// Returns `true` if an attribute of the `match` is next among its arms, in the whole language.
pub fn at_match_attribute(p: &mut Parser<'_>) -> bool
    ensures sees { (c : Condition) → Saw c (wide ('#' before '!')) p.old result }
    ensures some { IsTrue result → 2 ≤ tokens p.old }
    ensures peeks { Peeks 2 p.old p.new }
{
    if !p.at_whole() {
        return false;
    }
    if !p.at(SyntaxKind::POUND) {
        return false;
    }
    if p.at_second(SyntaxKind::BANG) {
        return true;
    }
    false
}

/// Returns `true` if an arm of a `match` starts here.
pub fn at_match_arm(p: &mut Parser<'_>) -> bool
    ensures sees { (c : Condition) → Saw c (looks rules.match_arm) p.old result }
    ensures some { IsTrue result → 1 ≤ tokens p.old }
    ensures peeks { Peeks 10 p.old p.new }
{
    if p.at_new(SyntaxKind::POUND) {
        return true;
    }
    if at_pattern(p) {
        return true;
    }
    false
}

/// Returns `true` if a path starts here that has several segments or begins with `::`. The first
/// segment has no arguments.
pub fn at_long_path(p: &mut Parser<'_>) -> bool
    ensures sees { (c : Condition) → Saw c rows.long_path_begins p.old result }
    ensures some { IsTrue result → 2 ≤ tokens p.old }
    ensures peeks { Peeks 5 p.old p.new }
{
    if at_colons(p) {
        return true;
    }
    match p.current() {
        SyntaxKind::IDENT
        | SyntaxKind::SELF_KW
        | SyntaxKind::SUPER_KW
        | SyntaxKind::CRATE_KW
        | SyntaxKind::SELF_TYPE_KW => {
            if p.at_pair_after(SyntaxKind::COLON, SyntaxKind::COLON) {
                return true;
            }
            false
        }
        _ => false,
    }
}

/// Returns `true` if `!` and a `{` are next, after a path.
pub fn at_braced_macro(p: &mut Parser<'_>) -> bool
    ensures sees { (c : Condition) → Saw c rows.braced_macro_begins p.old result }
    ensures some { IsTrue result → 2 ≤ tokens p.old }
    ensures peeks { Peeks 2 p.old p.new }
{
    if !p.at(SyntaxKind::BANG) {
        return false;
    }
    if p.at_second(SyntaxKind::L_CURLY) {
        return true;
    }
    false
}

/// Parses the `=>` of a match arm; emits an error if there is none.
// =>
pub fn expect_arrow(p: &mut Parser<'_>)
    ensures reads { (c : Condition) → Reads c (One '=>' !) p.old p.new }
    ensures asks { Asks 2 p.old p.new }
{
    if p.at_pair(SyntaxKind::EQ, SyntaxKind::R_ANGLE) {
        p.take_pair(SyntaxKind::FAT_ARROW);
        return;
    }
    p.error(Message::Expected(SyntaxKind::FAT_ARROW));
}
