//! Blocks.

ghost use Rattle.std.specs.Prelude.{◌≡◌, ◌≤◌, IsTrue, false};
ghost use Rattle.rust_grammar.specs.Rule as rules;
ghost use Rattle.rust_grammar.specs.Rule.{Call, Unless};
ghost use Rattle.rust_grammar.specs.Statements.{all_of};
ghost use Rattle.grammar_reader.specs.Told.{ends_of, listing_of};
ghost use Rattle.rust_productions.specs.Looks.{tokens, Takes, Asks};
ghost use Rattle.rust_productions.specs.Reads.{Gives, Reads};
ghost use Rattle.rust_productions.specs.Turns.{TakesTurn};
ghost use Rattle.rust_productions.specs.Moves.{Keeps};
ghost use Rattle.rust_productions.specs.declared.condition.Condition.{Condition};
ghost use Rattle.rust_productions.specs.declared.condition.Condition.TheVariants.{Off};

use crate::grammar::list_end::{ListEnd, at_end_of};
use crate::grammar::statements::statement;
use parser_input::syntax_kind::SyntaxKind;
use rust_productions::parser::Parser;

/// Parses a block expression.
// { f(); a }
#[cycle(grammar)]
pub(crate) fn block(p: &mut Parser<'_>)
    requires some { 1 ≤ tokens p.old }
    ensures gives { (c : Condition) → Gives rules.block c p.old p.new }
    ensures takes { Takes 2990 p.old p.new }
{
    let block = p.start();
    statement_list(p);
    block.complete(p, SyntaxKind::BLOCK_EXPR);
}

/// Parses the statements of a block, with their braces.
// { f(); a }
#[cycle(grammar)]
pub(crate) fn statement_list(p: &mut Parser<'_>)
    requires some { 1 ≤ tokens p.old }
    ensures gives { (c : Condition) → Gives rules.statement_list c p.old p.new }
    ensures takes { Takes 3000 p.old p.new }
{
    let list = p.start();
    p.take(SyntaxKind::L_CURLY);
    statements(p, ListEnd::Brace);
    p.expect(SyntaxKind::R_CURLY);
    list.complete(p, SyntaxKind::STMT_LIST);
}

/// Parses a statement. Returns `true` if the list may continue.
// f();
#[cycle(grammar)]
fn statement_turn(p: &mut Parser<'_>, end: ListEnd) -> bool
    ensures goes { IsTrue result
        → TakesTurn Off (Unless (ends_of end) (Call (listing_of end).one)) p.old p.new }
    ensures ends { result ≡ false → Reads Off (all_of (listing_of end)) p.old p.new }
    ensures keeps { Keeps p.old p.new }
    ensures asks { Asks 901 p.old p.new }
{
    if at_end_of(p, end) {
        return false;
    }
    let before = p.tokens_left();
    statement(p, end);
    p.tokens_left() < before
}

/// Parses statements up to the end of their list.
// f(); a
#[cycle(grammar)]
pub(crate) fn statements(p: &mut Parser<'_>, end: ListEnd)
    ensures reads { Reads Off (all_of (listing_of end)) p.old p.new }
    ensures asks { Asks 901 p.old p.new }
{
    'turns: while statement_turn(p, end) {}
}
