//! What a `use` names.

ghost use Rattle.std.specs.Prelude.{◌*◌, ◌≤◌, true, false, IsTrue, [], ◌∷◌};
ghost use Rattle.parser_input.specs.Kinds as kinds;
ghost use Rattle.parser_input.specs.Kinds.{USE_TREE, USE_TREE_LIST};
ghost use Rattle.rust_productions.specs.Looks.{tokens, Takes, Asks, Peeks};
ghost use Rattle.rust_grammar.specs.Notation.{⁅◌⁆, ◌*, ◌!, one_of, until, list_element, unexpected};
ghost use Rattle.rust_grammar.specs.Words.{'l_curly', 'r_curly', '*'};
ghost use Rattle.rust_grammar.specs.Calls.{UseTree};
ghost use Rattle.rust_grammar.specs.Items.{after_use};
ghost use Rattle.rust_grammar.specs.Shared.{colons_before_more, path_goes_on};
ghost use Rattle.rust_grammar.specs.Rule as rules;
ghost use Rattle.rust_grammar.specs.Rule.{Both, Either, Not, Unless};
ghost use Rattle.rust_grammar.specs.Items as rows;
ghost use Rattle.rust_productions.specs.Reads.{looks, Gives, Reads, Saw, Condition, Off};

use crate::grammar::lists::{at_list_end, at_unexpected, comma};
use crate::grammar::names::expect_name;
use crate::grammar::paths::{at_colons, at_path, path};
use crate::parser::Parser;
use parser_events::message::Message;
use parser_input::syntax_kind::SyntaxKind;

/// Returns `true` if `::` is next, and `*` or `{` after it.
fn at_colons_before_more(p: &mut Parser<'_>) -> bool
    ensures sees { (c : Condition) → Saw c colons_before_more p.old result }
    ensures some { IsTrue result → 3 ≤ tokens p.old }
    ensures peeks { Peeks 4 p.old p.new }
{
    if !at_colons(p) {
        return false;
    }
    if p.at_third(SyntaxKind::STAR) {
        return true;
    }
    if p.at_third(SyntaxKind::L_CURLY) {
        return true;
    }
    false
}

/// Returns `true` if a use tree starts here.
fn at_use_tree(p: &mut Parser<'_>) -> bool
    ensures sees { (c : Condition) → Saw c (looks rules.use_tree) p.old result }
    ensures some { IsTrue result → 1 ≤ tokens p.old }
    ensures peeks { Peeks 6 p.old p.new }
{
    if at_colons(p) {
        return true;
    }
    if at_path(p) {
        return true;
    }
    match p.current() {
        SyntaxKind::STAR | SyntaxKind::L_CURLY => true,
        _ => false,
    }
}

/// Parses a use tree; emits an error if there is none.
// a::b
pub(crate) fn expect_use_tree(p: &mut Parser<'_>)
    ensures reads { (c : Condition) → Reads c (UseTree !) p.old p.new }
    ensures asks { Asks 6 p.old p.new }
{
    if at_use_tree(p) {
        use_tree(p);
        return;
    }
    p.error(Message::Expected(SyntaxKind::USE_TREE));
}

/// Parses the rename of a use tree.
// as b
fn rename(p: &mut Parser<'_>)
    requires { 1 ≤ tokens p.old }
    ensures reads { (c : Condition) → Reads c rows.rename p.old p.new }
    ensures takes { Takes 4090 p.old p.new }
{
    let rename = p.start();
    p.take(SyntaxKind::AS_KW);
    underscore_or_name(p);
    rename.complete(p, SyntaxKind::RENAME);
}

/// Parses an optional rename.
// as b
pub(crate) fn opt_rename(p: &mut Parser<'_>)
    ensures reads { (c : Condition) → Reads c ⁅ rows.rename ⁆ p.old p.new }
    ensures asks { Asks 1 p.old p.new }
{
    if p.at(SyntaxKind::AS_KW) {
        rename(p);
    }
}

/// Parses `_` or a name; emits an error if there is neither.
// _
pub fn underscore_or_name(p: &mut Parser<'_>)
    ensures reads { (c : Condition) → Reads c rows.underscore_or_name p.old p.new }
    ensures asks { Asks 2 p.old p.new }
{
    if p.at(SyntaxKind::UNDERSCORE) {
        p.take(SyntaxKind::UNDERSCORE);
        return;
    }
    expect_name(p);
}

/// Parses a `*` or a use tree list.
// {a, b}
#[cycle(use_trees)]
fn star_or_list(p: &mut Parser<'_>)
    requires { 1 ≤ tokens p.old }
    ensures reads { (c : Condition) → Reads c rows.star_or_list p.old p.new }
    ensures takes { Takes 3900 p.old p.new }
{
    if p.at(SyntaxKind::STAR) {
        p.take(SyntaxKind::STAR);
        return;
    }
    use_list(p);
}

/// Parses the optional rest of a use tree after its path: a `*`, a use tree list or a rename.
// ::{a, b}
#[cycle(use_trees)]
fn after_path(p: &mut Parser<'_>)
    requires ends { (c : Condition) → Saw c path_goes_on p.old false }
    ensures reads { (c : Condition) → Reads c after_use p.old p.new }
    ensures asks { Asks 5 p.old p.new }
{
    if at_colons_before_more(p) {
        p.take_pair(SyntaxKind::COLON2);
        star_or_list(p);
        return;
    }
    if p.at(SyntaxKind::AS_KW) {
        rename(p);
    }
}

/// Parses a use tree that starts with a path.
// a::{b, c}
#[cycle(use_trees)]
fn path_tree(p: &mut Parser<'_>)
    requires begins { (c : Condition) → Saw c (looks rules.path) p.old true }
    requires some { 1 ≤ tokens p.old }
    ensures reads { (c : Condition) → Reads c rows.path_tree p.old p.new }
    ensures takes { Takes 3900 p.old p.new }
{
    path(p);
    after_path(p);
}

/// Parses a use tree after its leading `::`.
// {a, b}
#[cycle(use_trees)]
fn after_colons(p: &mut Parser<'_>)
    requires next { (c : Condition) → Saw c (one_of 0 ('*' ∷ 'l_curly' ∷ [])) p.old true }
    requires some { 1 ≤ tokens p.old }
    ensures reads { (c : Condition) → Reads c rows.after_colons p.old p.new }
    ensures takes { Takes 3900 p.old p.new }
{
    if p.at(SyntaxKind::STAR) {
        p.take(SyntaxKind::STAR);
        return;
    }
    use_list(p);
}

/// Parses a use tree, within its node.
// a::{b, c}
#[cycle(use_trees)]
fn inside(p: &mut Parser<'_>)
    requires begins { (c : Condition) → Saw c (looks rules.use_tree) p.old true }
    requires some { 1 ≤ tokens p.old }
    ensures reads { (c : Condition) → Reads c rows.in_use_tree p.old p.new }
    ensures takes { Takes 3890 p.old p.new }
{
    if at_colons_before_more(p) {
        p.take_pair(SyntaxKind::COLON2);
        after_colons(p);
        return;
    }
    match p.current() {
        SyntaxKind::STAR => p.take(SyntaxKind::STAR),
        SyntaxKind::L_CURLY => use_list(p),
        _ => path_tree(p),
    }
}

/// Parses a use tree.
// a::{b, c}
#[cycle(use_trees)]
pub fn use_tree(p: &mut Parser<'_>)
    requires begins { (c : Condition) → Saw c (looks rules.use_tree) p.old true }
    requires some { 1 ≤ tokens p.old }
    ensures gives { (c : Condition) → Gives rules.use_tree c p.old p.new }
    ensures takes { Takes 3880 p.old p.new }
{
    let tree = p.start();
    inside(p);
    tree.complete(p, SyntaxKind::USE_TREE);
}

/// Parses a use tree list.
// {a, b as c}
#[cycle(use_trees)]
pub fn use_list(p: &mut Parser<'_>)
    requires { 1 ≤ tokens p.old }
    ensures gives { (c : Condition) → Gives rules.use_list c p.old p.new }
    ensures takes { Takes 4000 p.old p.new }
{
    let list = p.start();
    p.take(SyntaxKind::L_CURLY);
    use_turns(p);
    p.expect(SyntaxKind::R_CURLY);
    list.complete(p, SyntaxKind::USE_TREE_LIST);
}

/// Returns `true` if a use tree list continues here.
fn at_use_turn(p: &mut Parser<'_>) -> bool
    ensures sees { (c : Condition) → Saw c
        (Both (Not (until 'r_curly')) (Either (looks rules.use_tree) unexpected)) p.old result }
    ensures some { IsTrue result → 1 ≤ tokens p.old }
    ensures peeks { Peeks 9 p.old p.new }
{
    if at_list_end(p, SyntaxKind::R_CURLY) {
        return false;
    }
    if at_use_tree(p) {
        return true;
    }
    if at_unexpected(p) {
        return true;
    }
    false
}

/// Parses a use tree and its comma, or skips a token into an error.
// a,
#[cycle(use_trees)]
fn use_turn(p: &mut Parser<'_>)
    requires { 1 ≤ tokens p.old }
    ensures reads { Reads Off (list_element USE_TREE_LIST UseTree 'r_curly') p.old p.new }
    ensures takes { Takes 3860 p.old p.new }
{
    if at_use_tree(p) {
        use_tree(p);
        comma(p, SyntaxKind::R_CURLY);
        return;
    }
    p.skip(Message::UnexpectedIn(SyntaxKind::USE_TREE_LIST));
}

/// Parses the use trees of a use tree list.
// a, b as c
#[cycle(use_trees)]
fn use_turns(p: &mut Parser<'_>)
    ensures reads { Reads Off
        ((Unless (until 'r_curly')
        (list_element USE_TREE_LIST UseTree 'r_curly')) *) p.old p.new }
    ensures asks { Asks 9 p.old p.new }
{
    'turns: while at_use_turn(p) {
        use_turn(p);
    }
}
