//! Token trees: tokens with brackets around them.

ghost use Rattle.std.specs.Prelude.{◌≢◌, ◌*◌, ◌≤◌, IsTrue};
ghost use Rattle.parser_input.specs.Kind.{raw_of};
ghost use Rattle.parser_input.specs.Kinds as kinds;
ghost use Rattle.parser_input.specs.Kinds.{TOKEN_TREE};
ghost use Rattle.parser_events.specs.Forest.{Expected};
ghost use Rattle.rust_productions.specs.Looks.{tokens, Takes, Asks, Peeks};
ghost use Rattle.rust_grammar.specs.Notation.{◌or◌, ◌▸◌, ◌*, ◌!, ◌⟨◌⟩};
ghost use Rattle.rust_grammar.specs.Words.{one};
ghost use Rattle.rust_grammar.specs.Calls.{TokenTree};
ghost use Rattle.rust_grammar.specs.Items.{inner_token};
ghost use Rattle.rust_grammar.specs.Rule as rules;
ghost use Rattle.rust_grammar.specs.Rule.{Either, Want, One};
ghost use Rattle.rust_grammar.specs.Items as rows;
ghost use Rattle.rust_productions.specs.Reads.{looks, Gives, Reads, Saw, Condition};

use crate::parser::Parser;
use parser_events::message::Message;
use parser_input::syntax_kind::SyntaxKind;

/// Returns `true` if a token tree starts here.
pub fn at_token_tree(p: &mut Parser<'_>) -> bool
    ensures sees { (c : Condition) → Saw c (looks rules.token_tree) p.old result }
    ensures some { IsTrue result → 1 ≤ tokens p.old }
    ensures peeks { Peeks 1 p.old p.new }
{
    match p.current() {
        SyntaxKind::L_PAREN | SyntaxKind::L_BRACK | SyntaxKind::L_CURLY => true,
        _ => false,
    }
}

/// Returns `true` if a token is next that is no closing delimiter.
fn at_inner(p: &mut Parser<'_>) -> bool
    ensures sees { (c : Condition) → Saw c
        (Either (looks rules.token_tree) rows.no_closing) p.old result }
    ensures some { IsTrue result → 1 ≤ tokens p.old }
    ensures peeks { Peeks 1 p.old p.new }
{
    match p.current() {
        SyntaxKind::R_PAREN | SyntaxKind::R_CURLY | SyntaxKind::R_BRACK | SyntaxKind::EOF => false,
        _ => true,
    }
}

/// Parses a token or a token tree, within a token tree.
// (a)
#[cycle(token_trees)]
fn inner(p: &mut Parser<'_>)
    requires { 1 ≤ tokens p.old }
    ensures reads { (c : Condition) → Reads c inner_token p.old p.new }
    ensures takes { Takes 4000 p.old p.new }
{
    if at_token_tree(p) {
        token_tree(p);
        return;
    }
    p.take_any();
}

/// Parses the tokens and the token trees within a token tree.
// a (b) c
#[cycle(token_trees)]
fn inner_tokens(p: &mut Parser<'_>)
    ensures reads { (c : Condition) → Reads c (inner_token *) p.old p.new }
    ensures asks { Asks 1 p.old p.new }
{
    'turns: while at_inner(p) {
        inner(p);
    }
}

/// Parses a token tree with these delimiters.
// (a b)
#[cycle(token_trees)]
fn bracketed(p: &mut Parser<'_>, opening: SyntaxKind, closing: SyntaxKind)
    requires some { 1 ≤ tokens p.old }
    requires closing { raw_of closing ≢ kinds.EOF }
    ensures reads { (c : Condition) → Reads c
        (TOKEN_TREE
        ⟨ One (one (raw_of opening))
        ▸ inner_token *
        ▸ Want (One (one (raw_of closing))) (Expected (raw_of closing)) ⟩) p.old p.new }
    ensures takes { Takes 4080 p.old p.new }
{
    let tree = p.start();
    p.take(opening);
    inner_tokens(p);
    p.expect(closing);
    tree.complete(p, SyntaxKind::TOKEN_TREE);
}

/// Parses a token tree.
// (a b)
#[cycle(token_trees)]
pub fn token_tree(p: &mut Parser<'_>)
    requires { 1 ≤ tokens p.old }
    ensures gives { (c : Condition) → Gives rules.token_tree c p.old p.new }
    ensures takes { Takes 4070 p.old p.new }
{
    match p.current() {
        SyntaxKind::L_PAREN => bracketed(p, SyntaxKind::L_PAREN, SyntaxKind::R_PAREN),
        SyntaxKind::L_BRACK => bracketed(p, SyntaxKind::L_BRACK, SyntaxKind::R_BRACK),
        _ => bracketed(p, SyntaxKind::L_CURLY, SyntaxKind::R_CURLY),
    }
}

/// Parses a token tree; emits an error if there is none.
// (a b)
pub fn expect_token_tree(p: &mut Parser<'_>)
    ensures reads { (c : Condition) → Reads c (TokenTree !) p.old p.new }
    ensures asks { Asks 1 p.old p.new }
{
    if at_token_tree(p) {
        token_tree(p);
        return;
    }
    p.error(Message::Expected(SyntaxKind::TOKEN_TREE));
}
