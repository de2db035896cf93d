//! Lists of elements with commas between them.

ghost use Rattle.std.specs.Prelude.{◌≡◌, ◌≢◌, ◌≤◌, ◌<◌, ◌+◌, IsTrue, true, false};
ghost use Rattle.parser_input.specs.Kind.{raw_of};
ghost use Rattle.parser_input.specs.Kinds as kinds;
ghost use Rattle.parser_events.specs.Stack.{IsInnermost};
ghost use Rattle.rust_grammar.specs.Notation.{◌*, rest_listed};
ghost use Rattle.rust_grammar.specs.Rule.{begins};
ghost use Rattle.rust_grammar.specs.Words.{one};
ghost use Rattle.rust_grammar.specs.Notation as rows;
ghost use Rattle.grammar_reader.specs.Lists.{closing_in, element_in, kind_in, left_by, list_of, opening_in};
ghost use Rattle.grammar_reader.specs.Told.{element_of, list_turn, looks_before, looks_in};
ghost use Rattle.rust_productions.specs.Looks.{tokens, spent, Takes, Asks, Peeks, AsksIn};
ghost use Rattle.rust_productions.specs.Reads.{looks, Reads, Saw};
ghost use Rattle.rust_productions.specs.Turns.{TakesTurn};
ghost use Rattle.rust_productions.specs.Moves.{Keeps};
ghost use Rattle.rust_productions.specs.declared.condition.Condition.{Condition};
ghost use Rattle.rust_productions.specs.declared.condition.Condition.TheVariants.{Off};

use crate::grammar::expressions::closures::closure_param;
use crate::grammar::expressions::expression;
use crate::grammar::fields::{field_value, pattern_field};
use crate::grammar::fn_pointers::fn_ptr_param;
use crate::grammar::generic_args::{generic_arg, type_arg};
use crate::grammar::generic_params::generic_param;
use crate::grammar::items::members::{
    at_record_field, at_tuple_field, record_field, tuple_field, variant,
};
use crate::grammar::or_patterns::pattern;
use crate::grammar::params::param;
use crate::grammar::types::any_type;
use parser_events::message::Message;
use parser_input::syntax_kind::SyntaxKind;
use rust_productions::condition::Condition;
use rust_productions::grammar::expressions::at_expression;
use rust_productions::grammar::fields::at_field_value;
use rust_productions::grammar::generic_args::at_generic_arg;
use rust_productions::grammar::generic_params::{at_captured, at_generic_param, captured};
use rust_productions::grammar::items::at_named_member;
use rust_productions::grammar::lists::{at_list_end, at_unexpected, comma};
use rust_productions::grammar::params::{at_closure_param, at_param};
use rust_productions::grammar::patterns::{at_pattern, at_pattern_field};
use rust_productions::grammar::types::{at_fn_ptr_param, at_type};
use rust_productions::marker::Marker;
use rust_productions::parser::Parser;

/// The elements of a list.
#[derive(Clone, Copy)]
pub(crate) enum Element {
    Captured,
    ClosureParam,
    Expression,
    FieldValue,
    FnPtrParam,
    GenericArg,
    GenericParam,
    Param,
    Pattern,
    PatternField,
    RecordField,
    TupleField,
    Type,
    TypeArg,
    Variant,
}

/// The lists that open with one token, each in a node of its own.
#[derive(Clone, Copy)]
pub(crate) enum ListKind {
    Arguments,
    Captures,
    ClosureParams,
    FieldValues,
    FnPtrParams,
    GenericParams,
    Params,
    PatternFields,
    RecordFields,
    SlicePattern,
    TupleFields,
    TuplePattern,
    Variants,
}

/// Returns the kind of a list's node.
fn kind_of(list: ListKind) -> SyntaxKind
    ensures is { raw_of result ≡ kind_in list }
{
    match list {
        ListKind::Arguments => SyntaxKind::ARG_LIST,
        ListKind::Captures => SyntaxKind::GENERIC_ARG_LIST,
        ListKind::ClosureParams => SyntaxKind::PARAM_LIST,
        ListKind::FieldValues => SyntaxKind::RECORD_EXPR_FIELD_LIST,
        ListKind::FnPtrParams => SyntaxKind::PARAM_LIST,
        ListKind::GenericParams => SyntaxKind::GENERIC_PARAM_LIST,
        ListKind::Params => SyntaxKind::PARAM_LIST,
        ListKind::PatternFields => SyntaxKind::RECORD_PAT_FIELD_LIST,
        ListKind::RecordFields => SyntaxKind::RECORD_FIELD_LIST,
        ListKind::SlicePattern => SyntaxKind::SLICE_PAT,
        ListKind::TupleFields => SyntaxKind::TUPLE_FIELD_LIST,
        ListKind::TuplePattern => SyntaxKind::TUPLE_PAT,
        ListKind::Variants => SyntaxKind::VARIANT_LIST,
    }
}

/// Returns the token that opens a list.
fn opening(list: ListKind) -> SyntaxKind
    ensures is { raw_of result ≡ opening_in list }
{
    match list {
        ListKind::Arguments => SyntaxKind::L_PAREN,
        ListKind::Captures => SyntaxKind::L_ANGLE,
        ListKind::ClosureParams => SyntaxKind::PIPE,
        ListKind::FieldValues => SyntaxKind::L_CURLY,
        ListKind::FnPtrParams => SyntaxKind::L_PAREN,
        ListKind::GenericParams => SyntaxKind::L_ANGLE,
        ListKind::Params => SyntaxKind::L_PAREN,
        ListKind::PatternFields => SyntaxKind::L_CURLY,
        ListKind::RecordFields => SyntaxKind::L_CURLY,
        ListKind::SlicePattern => SyntaxKind::L_BRACK,
        ListKind::TupleFields => SyntaxKind::L_PAREN,
        ListKind::TuplePattern => SyntaxKind::L_PAREN,
        ListKind::Variants => SyntaxKind::L_CURLY,
    }
}

/// Returns what the elements of a list are.
fn kind_of_element(list: ListKind) -> Element
    ensures is { result ≡ element_in list }
{
    match list {
        ListKind::Arguments => Element::Expression,
        ListKind::Captures => Element::Captured,
        ListKind::ClosureParams => Element::ClosureParam,
        ListKind::FieldValues => Element::FieldValue,
        ListKind::FnPtrParams => Element::FnPtrParam,
        ListKind::GenericParams => Element::GenericParam,
        ListKind::Params => Element::Param,
        ListKind::PatternFields => Element::PatternField,
        ListKind::RecordFields => Element::RecordField,
        ListKind::SlicePattern => Element::Pattern,
        ListKind::TupleFields => Element::TupleField,
        ListKind::TuplePattern => Element::Pattern,
        ListKind::Variants => Element::Variant,
    }
}

/// Returns the token that closes a list.
fn closing(list: ListKind) -> SyntaxKind
    ensures is { raw_of result ≡ closing_in list }
{
    match list {
        ListKind::Arguments => SyntaxKind::R_PAREN,
        ListKind::Captures => SyntaxKind::R_ANGLE,
        ListKind::ClosureParams => SyntaxKind::PIPE,
        ListKind::FieldValues => SyntaxKind::R_CURLY,
        ListKind::FnPtrParams => SyntaxKind::R_PAREN,
        ListKind::GenericParams => SyntaxKind::R_ANGLE,
        ListKind::Params => SyntaxKind::R_PAREN,
        ListKind::PatternFields => SyntaxKind::R_CURLY,
        ListKind::RecordFields => SyntaxKind::R_CURLY,
        ListKind::SlicePattern => SyntaxKind::R_BRACK,
        ListKind::TupleFields => SyntaxKind::R_PAREN,
        ListKind::TuplePattern => SyntaxKind::R_PAREN,
        ListKind::Variants => SyntaxKind::R_CURLY,
    }
}

/// Returns `true` if an element starts here.
fn at_element(p: &mut Parser<'_>, element: Element) -> bool
    ensures sees { Saw Off (begins looks (element_of element)) p.old result }
    ensures peeks { Peeks (looks_before element) p.old p.new }
{
    match element {
        Element::Captured => at_captured(p),
        Element::ClosureParam => at_closure_param(p),
        Element::Expression => at_expression(p, Condition::Off),
        Element::FieldValue => at_field_value(p),
        Element::FnPtrParam => at_fn_ptr_param(p),
        Element::GenericArg => at_generic_arg(p),
        Element::GenericParam => at_generic_param(p),
        Element::Param => at_param(p),
        Element::Pattern => at_pattern(p),
        Element::PatternField => at_pattern_field(p),
        Element::RecordField => at_record_field(p),
        Element::TupleField => at_tuple_field(p),
        Element::Type => at_type(p),
        Element::TypeArg => at_type(p),
        Element::Variant => at_named_member(p),
    }
}

/// Parses an element.
#[cycle(grammar)]
fn read_element(p: &mut Parser<'_>, element: Element)
    requires begins { Saw Off (begins looks (element_of element)) p.old true }
    ensures reads { Reads Off (element_of element) p.old p.new }
    ensures asks { Asks (looks_in element) p.old p.new }
    ensures pays { tokens p.new < tokens p.old → spent p.new + 1000 ≤ spent p.old }
{
    match element {
        Element::Captured => captured(p),
        Element::ClosureParam => closure_param(p),
        Element::Expression => expression(p, Condition::Off),
        Element::FieldValue => field_value(p, Condition::Off),
        Element::FnPtrParam => fn_ptr_param(p),
        Element::GenericArg => generic_arg(p),
        Element::GenericParam => generic_param(p),
        Element::Param => param(p, Condition::Off),
        Element::Pattern => pattern(p),
        Element::PatternField => pattern_field(p),
        Element::RecordField => record_field(p),
        Element::TupleField => tuple_field(p),
        Element::Type => any_type(p),
        Element::TypeArg => type_arg(p),
        Element::Variant => variant(p),
    }
}

/// Parses an element and its comma, or skips a token into an error. Returns `true` if the list may
/// continue.
// a,
#[inline(always)]
#[cycle(grammar)]
fn turn(p: &mut Parser<'_>, list: SyntaxKind, element: Element, closing: SyntaxKind) -> bool
    ensures goes { IsTrue result → TakesTurn Off
        (list_turn (raw_of list) (element_of element) (raw_of closing)) p.old p.new }
    ensures ends { result ≡ false → Reads Off
        ((list_turn (raw_of list) (element_of element) (raw_of closing)) *) p.old p.new }
    ensures keeps { Keeps p.old p.new }
    ensures asks { Asks (looks_before element + looks_in element + 10) p.old p.new }
{
    if at_list_end(p, closing) {
        return false;
    }
    let before = p.tokens_left();
    if at_element(p, element) {
        read_element(p, element);
        comma(p, closing);
        return p.tokens_left() < before;
    }
    if at_unexpected(p) {
        p.skip(Message::UnexpectedIn(list));
        return true;
    }
    false
}

/// Parses the elements of a list.
// a, b
#[inline(always)]
#[cycle(grammar)]
fn elements(p: &mut Parser<'_>, list: SyntaxKind, element: Element, closing: SyntaxKind)
    ensures reads { Reads Off
        ((list_turn (raw_of list) (element_of element) (raw_of closing)) *) p.old p.new }
    ensures asks { Asks (looks_before element + looks_in element + 10) p.old p.new }
{
    'turns: while turn(p, list, element, closing) {}
}

/// Parses the rest of a list after its opening token.
// a, b)
#[inline(always)]
#[cycle(grammar)]
pub(crate) fn rest_of_list(
    p: &mut Parser<'_>,
    list: SyntaxKind,
    element: Element,
    closing: SyntaxKind,
)
    requires closing { raw_of closing ≢ kinds.EOF }
    ensures reads { (c : Condition) → Reads c (rest_listed (raw_of list) (element_of element)
        (one (raw_of closing))) p.old p.new }
    ensures asks { Asks (looks_before element + looks_in element + 11) p.old p.new }
{
    elements(p, list, element, closing);
    p.expect(closing);
}

/// Parses a tuple or a parenthesized element after its first element: the rest of the tuple if a
/// comma is next, otherwise the `)`. Completes `frame` as `tuple` or as `paren`.
// , b)
#[cycle(grammar)]
pub(crate) fn tuple_tail(
    p: &mut Parser<'_>,
    frame: Marker,
    tuple: SyntaxKind,
    element: Element,
    paren: SyntaxKind,
) -> Marker
    requires innermost { IsInnermost frame p.old.nodes }
    ensures reads { (c : Condition) → Reads c
        (rows.tuple_tail (raw_of tuple) (raw_of paren) (element_of element)) p.old p.new }
    ensures asks { AsksIn result 2 p.old p.new }
{
    if p.at(SyntaxKind::COMMA) {
        p.take(SyntaxKind::COMMA);
        rest_of_list(p, tuple, element, SyntaxKind::R_PAREN);
        return frame.wrap(p, tuple);
    }
    p.expect(SyntaxKind::R_PAREN);
    frame.wrap(p, paren)
}

/// Parses a list.
// (a, b)
#[inline(never)]
#[cycle(grammar)]
pub(crate) fn list(p: &mut Parser<'_>, which: ListKind)
    requires some { 1 ≤ tokens p.old }
    ensures reads { (c : Condition) → Reads c (list_of which) p.old p.new }
    ensures takes { Takes (left_by (element_in which)) p.old p.new }
{
    let node = p.start();
    p.take(opening(which));
    let kind = kind_of(which);
    rest_of_list(p, kind, kind_of_element(which), closing(which));
    node.complete(p, kind);
}
