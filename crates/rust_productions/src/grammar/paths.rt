//! Paths.

ghost use Rattle.parser_events.specs.Stack.{IsInnermost};
ghost use Rattle.parser_input.specs.Kinds as kinds;
ghost use Rattle.rust_grammar.specs.Calls.{Path};
ghost use Rattle.rust_grammar.specs.Notation.{◌!, ◌before◌, row, wide};
ghost use Rattle.rust_grammar.specs.Paths as rows;
ghost use Rattle.rust_grammar.specs.Rule as rules;
ghost use Rattle.rust_grammar.specs.Rule.{Both, Joint, Kind, Nothing};
ghost use Rattle.rust_grammar.specs.Shared.{path_goes_on};
ghost use Rattle.rust_grammar.specs.Words.{'::', '<', 'dots', 'l_paren'};
ghost use Rattle.rust_productions.specs.Looks.{Asks, AsksIn, Peeks, Takes, TakesTwoIn, tokens};
ghost use Rattle.rust_productions.specs.Reads.{Condition, Gives, Reads, Saw, looks};
ghost use Rattle.rust_productions.specs.Starts.{Starts};
ghost use Rattle.std.specs.Prelude.{◌∷◌, ◌≤◌, IsTrue, [], false, true};

use crate::grammar::names::{at_name_ref, expect_name_ref, name_ref};
use crate::marker::Marker;
use crate::parser::Parser;
use parser_events::message::Message;
use parser_input::syntax_kind::SyntaxKind;

/// Returns `true` if `::` is next.
pub fn at_colons(p: &mut Parser<'_>) -> bool
    ensures sees { (c : Condition) → Saw c (Both (Kind 0 kinds.COLON)
        (Both (Joint 0) (Kind 1 kinds.COLON))) p.old result }
    ensures some { IsTrue result → 2 ≤ tokens p.old }
    ensures peeks { Peeks 2 p.old p.new }
{
    p.at_pair(SyntaxKind::COLON, SyntaxKind::COLON)
}

/// Returns `true` if a path starts here.
pub fn at_path(p: &mut Parser<'_>) -> bool
    ensures sees { (c : Condition) → Saw c (looks rules.path) p.old result }
    ensures some { IsTrue result → 1 ≤ tokens p.old }
    ensures peeks { Peeks 3 p.old p.new }
{
    if at_name_ref(p) {
        return true;
    }
    if at_colons(p) {
        return true;
    }
    false
}

/// Returns `true` if the arguments of `Fn` start here, in the whole language: `(` or `::(`.
pub fn at_fn_args(p: &mut Parser<'_>) -> bool
    ensures sees { (c : Condition) → Saw c (wide rows.fn_args_begin) p.old result }
    ensures some { IsTrue result → 1 ≤ tokens p.old }
    ensures peeks { Peeks 4 p.old p.new }
{
    if !p.at_whole() {
        return false;
    }
    if p.at(SyntaxKind::L_PAREN) {
        return true;
    }
    if !at_colons(p) {
        return false;
    }
    if !p.at_third(SyntaxKind::L_PAREN) {
        return false;
    }
    true
}

/// Returns `true` if `(..` is next.
pub fn at_dots_args(p: &mut Parser<'_>) -> bool
    ensures sees { (c : Condition) → Saw c ('l_paren' before 'dots') p.old result }
    ensures some { IsTrue result → 3 ≤ tokens p.old }
    ensures peeks { Peeks 3 p.old p.new }
{
    if !p.at(SyntaxKind::L_PAREN) {
        return false;
    }
    if !p.at_pair_after(SyntaxKind::DOT, SyntaxKind::DOT) {
        return false;
    }
    true
}

/// Returns `true` if `::(..` is next.
pub fn at_colons_dots_args(p: &mut Parser<'_>) -> bool
    ensures sees { (c : Condition) → Saw c (row 0 ('::' ∷ 'l_paren' ∷ 'dots' ∷ [])) p.old result }
    ensures some { IsTrue result → 5 ≤ tokens p.old }
    ensures peeks { Peeks 5 p.old p.new }
{
    if !at_colons(p) {
        return false;
    }
    if !p.at_third(SyntaxKind::L_PAREN) {
        return false;
    }
    if !p.at_fourth_pair(SyntaxKind::DOT, SyntaxKind::DOT) {
        return false;
    }
    true
}

/// Returns `true` if `!` is next, and no `!=`.
pub fn at_macro_call(p: &mut Parser<'_>) -> bool
    ensures sees { (c : Condition) → Saw c rows.macro_call_begins p.old result }
    ensures some { IsTrue result → 1 ≤ tokens p.old }
    ensures peeks { Peeks 3 p.old p.new }
{
    if !p.at(SyntaxKind::BANG) {
        return false;
    }
    if p.at_pair(SyntaxKind::BANG, SyntaxKind::EQ) {
        return false;
    }
    true
}

/// Parses the optional `::` and the first word of a path.
// ::a
pub fn first_word(p: &mut Parser<'_>)
    requires begins { (c : Condition) → Saw c (looks rules.path) p.old true }
    requires some { 1 ≤ tokens p.old }
    ensures reads { (c : Condition) → Reads c (rows.first_word Nothing) p.old p.new }
    ensures takes { Takes 4090 p.old p.new }
{
    if at_colons(p) {
        p.take_pair(SyntaxKind::COLON2);
        expect_name_ref(p);
        return;
    }
    name_ref(p);
}

/// Parses the first segment of a path without generic arguments.
// ::a
fn first_segment(p: &mut Parser<'_>)
    requires begins { (c : Condition) → Saw c (looks rules.path) p.old true }
    requires some { 1 ≤ tokens p.old }
    ensures reads { (c : Condition) → Reads c (rows.first_segment Nothing) p.old p.new }
    ensures takes { Takes 4090 p.old p.new }
{
    let path = p.start();
    let segment = p.start();
    first_word(p);
    segment.complete(p, SyntaxKind::PATH_SEGMENT);
    path.complete(p, SyntaxKind::PATH);
}

/// Returns `true` if a path continues here: at a `::` that is before neither `*` nor `{`.
pub fn at_next_segment(p: &mut Parser<'_>) -> bool
    ensures sees { (c : Condition) → Saw c path_goes_on p.old result }
    ensures some { IsTrue result → 2 ≤ tokens p.old }
    ensures peeks { Peeks 3 p.old p.new }
{
    if !at_colons(p) {
        return false;
    }
    match p.nth(2) {
        SyntaxKind::STAR | SyntaxKind::L_CURLY => false,
        _ => true,
    }
}

/// Parses a path segment without generic arguments; emits an error if there is none.
// a
fn expect_segment(p: &mut Parser<'_>)
    ensures reads { (c : Condition) → Reads c (rows.segment Nothing !) p.old p.new }
    ensures asks { Asks 1 p.old p.new }
{
    if at_name_ref(p) {
        let segment = p.start();
        name_ref(p);
        segment.complete(p, SyntaxKind::PATH_SEGMENT);
        return;
    }
    p.error(Message::Expected(SyntaxKind::PATH_SEGMENT));
}

/// Parses a `::` and a segment, and completes the path up to it.
// ::a
fn next_segment(p: &mut Parser<'_>, path: Marker) -> Marker
    requires innermost { IsInnermost path p.old.nodes }
    requires some { 2 ≤ tokens p.old }
    ensures reads { (c : Condition) → Reads c (rows.next_segment Nothing) p.old p.new }
    ensures takes { TakesTwoIn result 8000 p.old p.new }
{
    p.take_pair(SyntaxKind::COLON2);
    expect_segment(p);
    path.wrap(p, SyntaxKind::PATH)
}

/// Parses the further segments of a path.
// ::a::b
fn next_segments(p: &mut Parser<'_>, path: Marker) -> Marker
    requires { IsInnermost path p.old.nodes }
    ensures reads { (c : Condition) → Reads c (rows.next_segments Nothing) p.old p.new }
    ensures ends { (c : Condition) → Saw c path_goes_on p.new false }
    ensures asks { AsksIn result 3 p.old p.new }
{
    let mut path = path;
    'turns: while at_next_segment(p) {
        path = next_segment(p, path);
    }
    path
}

/// Parses a path without generic arguments.
// a::b
pub fn path(p: &mut Parser<'_>)
    requires begins { Starts (looks rules.path) p.old }
    ensures gives { (c : Condition) → Gives rules.path c p.old p.new }
    ensures ends { (c : Condition) → Saw c path_goes_on p.new false }
    ensures takes { Takes 4000 p.old p.new }
{
    let frame = p.start();
    first_segment(p);
    let frame = next_segments(p, frame);
    frame.abandon(p);
}

/// Parses a path without generic arguments; emits an error if there is none.
// a::b
pub fn expect_path(p: &mut Parser<'_>)
    ensures reads { (c : Condition) → Reads c (Path !) p.old p.new }
    ensures asks { Asks 3 p.old p.new }
{
    if at_path(p) {
        path(p);
        return;
    }
    p.error(Message::Expected(SyntaxKind::PATH));
}

/// Returns `true` if `::` is next, and `<` after it.
pub fn at_colons_before_args(p: &mut Parser<'_>) -> bool
    ensures sees { (c : Condition) → Saw c ('::' before '<') p.old result }
    ensures some { IsTrue result → 3 ≤ tokens p.old }
    ensures peeks { Peeks 3 p.old p.new }
{
    if !at_colons(p) {
        return false;
    }
    p.at_third(SyntaxKind::L_ANGLE)
}
