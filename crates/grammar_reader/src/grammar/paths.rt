//! Paths with arguments.

ghost use Rattle.std.specs.Prelude.{◌≤◌, true, IsTrue};
ghost use Rattle.parser_input.specs.Kinds.{PARENTHESIZED_ARG_LIST};
ghost use Rattle.parser_events.specs.Stack.{IsInnermost};
ghost use Rattle.rust_grammar.specs.Notation.{⁅◌⁆, ◌!, ◌before◌, wide};
ghost use Rattle.rust_grammar.specs.Words.{'::'};
ghost use Rattle.rust_grammar.specs.Rule as rules;
ghost use Rattle.rust_grammar.specs.Rule.{One};
ghost use Rattle.rust_grammar.specs.Paths as rows;
ghost use Rattle.grammar_reader.specs.Told.{angle, args_look, args_of, path_of};
ghost use Rattle.rust_productions.specs.Looks.{tokens, Takes, Asks, Peeks, TakesIn, TakesTwoIn, AsksIn};
ghost use Rattle.rust_productions.specs.Reads.{looks, Gives, Reads, Saw};
ghost use Rattle.rust_productions.specs.Starts.{Starts};
ghost use Rattle.rust_productions.specs.declared.condition.Condition.{Condition};

use crate::grammar::lists::{Element, rest_of_list};
use crate::grammar::parts::{Part, expect_part};
use crate::grammar::types::opt_ret_type;
use parser_events::message::Message;
use parser_input::syntax_kind::SyntaxKind;
use rust_productions::grammar::generic_args::{
    colons_dots_args, dots_args, opt_colons_before_paren,
};
use rust_productions::grammar::names::{at_name_ref, name_ref};
use rust_productions::grammar::paths::{
    at_colons, at_colons_before_args, at_colons_dots_args, at_dots_args, at_fn_args,
    at_next_segment, first_word,
};
use rust_productions::marker::Marker;
use rust_productions::parser::Parser;

/// The kind of a path with generic arguments, which decides where these start.
#[derive(Clone, Copy)]
pub(crate) enum Mode {
    Expr,
    Type,
}

/// Returns `true` if a `<` is next that starts no `<=`.
fn at_angle(p: &mut Parser<'_>) -> bool
    ensures sees { (c : Condition) → Saw c angle p.old result }
    ensures some { IsTrue result → 1 ≤ tokens p.old }
    ensures peeks { Peeks 2 p.old p.new }
{
    if !p.at(SyntaxKind::L_ANGLE) {
        return false;
    }
    !p.at_second(SyntaxKind::EQ)
}

/// Returns `true` if the generic arguments of a segment start here.
fn at_args(p: &mut Parser<'_>, mode: Mode) -> bool
    ensures sees { (c : Condition) → Saw c (args_look mode) p.old result }
    ensures some { IsTrue result → 1 ≤ tokens p.old }
    ensures peeks { Peeks 5 p.old p.new }
{
    if at_colons_before_args(p) {
        return true;
    }
    match mode {
        Mode::Expr => false,
        Mode::Type => at_angle(p),
    }
}

/// Parses the arguments of `Fn`, in the whole language.
// (u8, u8) -> u8
#[cycle(grammar)]
fn fn_args(p: &mut Parser<'_>)
    requires begins { Starts (wide rows.fn_args_begin) p.old }
    ensures reads { (c : Condition) → Reads c rows.fn_args p.old p.new }
    ensures takes { Takes 3200 p.old p.new }
{
    if at_dots_args(p) {
        dots_args(p);
        return;
    }
    if at_colons_dots_args(p) {
        colons_dots_args(p);
        return;
    }
    paren_args(p);
    opt_ret_type(p);
}

/// Parses types in parentheses as arguments.
// (u8, u8)
#[cycle(grammar)]
fn paren_args(p: &mut Parser<'_>)
    requires begins { Starts (wide rows.fn_args_begin) p.old }
    ensures reads { (c : Condition) → Reads c rows.paren_args p.old p.new }
    ensures takes { Takes 3300 p.old p.new }
{
    let list = p.start();
    opt_colons_before_paren(p);
    p.take(SyntaxKind::L_PAREN);
    rest_of_list(
        p,
        SyntaxKind::PARENTHESIZED_ARG_LIST,
        Element::TypeArg,
        SyntaxKind::R_PAREN,
    );
    list.complete(p, SyntaxKind::PARENTHESIZED_ARG_LIST);
}

/// Parses the optional arguments of a segment in a type.
// <u8>
#[cycle(grammar)]
pub(crate) fn opt_type_args(p: &mut Parser<'_>)
    ensures reads { (c : Condition) → Reads c rows.type_args p.old p.new }
    ensures asks { Asks 9 p.old p.new }
{
    if at_fn_args(p) {
        fn_args(p);
        return;
    }
    if at_args(p, Mode::Type) {
        generic_args(p);
    }
}

/// Parses the optional `::` of generic arguments.
// ::
fn opt_colons(p: &mut Parser<'_>)
    requires begins { Starts (looks rules.generic_args) p.old }
    ensures reads { (c : Condition) → Reads c ⁅ One '::' ⁆ p.old p.new }
    ensures some { 1 ≤ tokens p.new }
    ensures asks { Asks 3 p.old p.new }
{
    if at_colons_before_args(p) {
        p.take_pair(SyntaxKind::COLON2);
    }
}

/// Parses generic arguments.
// ::<'a, u8>
#[inline(never)]
#[cycle(grammar)]
pub(crate) fn generic_args(p: &mut Parser<'_>)
    requires begins { (c : Condition) → Saw c (looks rules.generic_args) p.old true }
    requires some { 1 ≤ tokens p.old }
    ensures gives { (c : Condition) → Gives rules.generic_args c p.old p.new }
    ensures takes { Takes 3300 p.old p.new }
{
    let list = p.start();
    opt_colons(p);
    p.take(SyntaxKind::L_ANGLE);
    rest_of_list(
        p,
        SyntaxKind::GENERIC_ARG_LIST,
        Element::GenericArg,
        SyntaxKind::R_ANGLE,
    );
    list.complete(p, SyntaxKind::GENERIC_ARG_LIST);
}

/// Returns `true` if generic arguments are next.
pub(crate) fn at_generic_args(p: &mut Parser<'_>) -> bool
    ensures sees { (c : Condition) → Saw c (looks rules.generic_args) p.old result }
    ensures some { IsTrue result → 1 ≤ tokens p.old }
    ensures peeks { Peeks 4 p.old p.new }
{
    if at_colons_before_args(p) {
        return true;
    }
    p.at(SyntaxKind::L_ANGLE)
}

/// Parses the optional generic arguments of a segment.
// ::<u8>
#[cycle(grammar)]
fn opt_args(p: &mut Parser<'_>, mode: Mode)
    ensures reads { (c : Condition) → Reads c (args_of mode) p.old p.new }
    ensures asks { Asks 9 p.old p.new }
{
    match mode {
        Mode::Expr => opt_expr_args(p),
        Mode::Type => opt_type_args(p),
    }
}

/// Parses the optional arguments of a segment in an expression.
// ::<u8>
#[cycle(grammar)]
fn opt_expr_args(p: &mut Parser<'_>)
    ensures reads { (c : Condition) → Reads c rows.expr_args p.old p.new }
    ensures asks { Asks 5 p.old p.new }
{
    if at_args(p, Mode::Expr) {
        generic_args(p);
    }
}

/// Parses the first segment of a path.
// ::a::<u8>
#[cycle(grammar)]
fn first_segment(p: &mut Parser<'_>, mode: Mode)
    requires begins { (c : Condition) → Saw c (looks rules.path) p.old true }
    requires some { 1 ≤ tokens p.old }
    ensures reads { (c : Condition) → Reads c (rows.first_segment (args_of mode)) p.old p.new }
    ensures takes { Takes 4080 p.old p.new }
{
    let path = p.start();
    let segment = p.start();
    first_word(p);
    opt_args(p, mode);
    segment.complete(p, SyntaxKind::PATH_SEGMENT);
    path.complete(p, SyntaxKind::PATH);
}

/// Parses a path segment; emits an error if there is none.
// a::<u8>
#[cycle(grammar)]
fn expect_segment(p: &mut Parser<'_>, mode: Mode)
    ensures reads { (c : Condition) → Reads c (rows.segment (args_of mode) !) p.old p.new }
    ensures asks { Asks 1 p.old p.new }
{
    if at_name_ref(p) {
        let segment = p.start();
        name_ref(p);
        opt_args(p, mode);
        segment.complete(p, SyntaxKind::PATH_SEGMENT);
        return;
    }
    p.error(Message::Expected(SyntaxKind::PATH_SEGMENT));
}

/// Parses a `::` and a segment, and completes the path up to it.
// ::a
#[cycle(grammar)]
fn next_segment(p: &mut Parser<'_>, path: Marker, mode: Mode) -> Marker
    requires innermost { IsInnermost path p.old.nodes }
    requires some { 2 ≤ tokens p.old }
    ensures reads { (c : Condition) → Reads c (rows.next_segment (args_of mode)) p.old p.new }
    ensures takes { TakesTwoIn result 8000 p.old p.new }
{
    p.take_pair(SyntaxKind::COLON2);
    expect_segment(p, mode);
    path.wrap(p, SyntaxKind::PATH)
}

/// Parses the further segments of a path.
// ::a::b
#[cycle(grammar)]
pub(crate) fn next_segments(p: &mut Parser<'_>, path: Marker, mode: Mode) -> Marker
    requires innermost { IsInnermost path p.old.nodes }
    ensures reads { (c : Condition) → Reads c (rows.next_segments (args_of mode)) p.old p.new }
    ensures asks { AsksIn result 3 p.old p.new }
{
    let mut path = path;
    'turns: while at_next_segment(p) {
        path = next_segment(p, path, mode);
    }
    path
}

/// Parses a path that starts with `<T as U>`, within `frame`.
// <T as A>::B
#[cycle(grammar)]
pub(crate) fn qualified_path(p: &mut Parser<'_>, frame: Marker, mode: Mode) -> Marker
    requires innermost { IsInnermost frame p.old.nodes }
    requires some { 1 ≤ tokens p.old }
    ensures reads { (c : Condition) → Reads c (rows.qualified_with (args_of mode)) p.old p.new }
    ensures takes { TakesIn result 4000 p.old p.new }
{
    qualifier(p);
    next_segments(p, frame, mode)
}

/// Parses `<T as U>`, as the first segment of a path.
// <T as A>
#[cycle(grammar)]
fn qualifier(p: &mut Parser<'_>)
    requires some { 1 ≤ tokens p.old }
    ensures reads { (c : Condition) → Reads c rows.qualifier p.old p.new }
    ensures takes { Takes 4040 p.old p.new }
{
    let path = p.start();
    let segment = p.start();
    anchor(p);
    segment.complete(p, SyntaxKind::PATH_SEGMENT);
    path.complete(p, SyntaxKind::PATH);
}

/// Parses `<T as U>`.
// <T as A>
#[cycle(grammar)]
fn anchor(p: &mut Parser<'_>)
    requires some { 1 ≤ tokens p.old }
    ensures reads { (c : Condition) → Reads c rows.anchor p.old p.new }
    ensures takes { Takes 4050 p.old p.new }
{
    let node = p.start();
    p.take(SyntaxKind::L_ANGLE);
    expect_part(p, Part::Type);
    opt_as_trait(p);
    p.expect(SyntaxKind::R_ANGLE);
    node.complete(p, SyntaxKind::TYPE_ANCHOR);
}

/// Parses an optional `as` and a trait's path.
// as A
#[cycle(grammar)]
fn opt_as_trait(p: &mut Parser<'_>)
    ensures reads { (c : Condition) → Reads c ⁅ rows.as_trait ⁆ p.old p.new }
    ensures asks { Asks 1 p.old p.new }
{
    if p.at(SyntaxKind::AS_KW) {
        p.take(SyntaxKind::AS_KW);
        expect_part(p, Part::PathType);
    }
}

/// Parses a path with generic arguments.
// a::<u8>::b
#[cycle(grammar)]
pub(crate) fn path_with_args(p: &mut Parser<'_>, mode: Mode)
    requires begins { (c : Condition) → Saw c (looks rules.path) p.old true }
    requires some { 1 ≤ tokens p.old }
    ensures gives { (c : Condition) → Gives (path_of mode) c p.old p.new }
    ensures takes { Takes 4000 p.old p.new }
{
    let frame = p.start();
    first_segment(p, mode);
    let frame = next_segments(p, frame, mode);
    frame.abandon(p);
}
