//! Parts that are expected, or optional, in several places.

ghost use Rattle.std.specs.Prelude.{◌≡◌, ◌≤◌, IsTrue};
ghost use Rattle.parser_events.specs.Seen.{message_of};
ghost use Rattle.rust_grammar.specs.Notation.{⁅◌⁆};
ghost use Rattle.grammar_reader.specs.Parts.{expected, looks_of, missing, part_begins, part_of};
ghost use Rattle.rust_productions.specs.Looks.{tokens, Takes, Asks, Peeks};
ghost use Rattle.rust_productions.specs.Reads.{Reads, Saw};
ghost use Rattle.rust_productions.specs.Starts.{Starts};
ghost use Rattle.rust_productions.specs.declared.condition.Condition.{Condition};

use crate::grammar::expressions::blocks::{block, statement_list};
use crate::grammar::expressions::control::match_arms;
use crate::grammar::generic_params::{where_clause, where_pred};
use crate::grammar::items::item_list;
use crate::grammar::lists::{ListKind, list};
use crate::grammar::or_patterns::pattern;
use crate::grammar::paths::{at_generic_args, generic_args};
use crate::grammar::patterns::single_pattern;
use crate::grammar::types::{any_type, path_type, type_no_bounds};
use parser_events::message::Message;
use parser_input::syntax_kind::SyntaxKind;
use rust_productions::grammar::generic_params::at_where_pred;
use rust_productions::grammar::paths::at_path;
use rust_productions::grammar::patterns::{at_pattern, at_single_pattern};
use rust_productions::grammar::types::{at_type, at_type_no_bounds};
use rust_productions::parser::Parser;

/// The parts that are expected, or optional, in several places.
#[derive(Clone, Copy)]
pub(crate) enum Part {
    Arguments,
    AssocItems,
    Block,
    ClosureParams,
    FnPtrParams,
    GenericArgs,
    GenericParams,
    MatchArms,
    NewGenericParams,
    NewWhereClause,
    Params,
    PathType,
    Pattern,
    RecordFields,
    SinglePattern,
    StatementList,
    Type,
    TypeNoBounds,
    Variants,
    WhereClause,
    WherePred,
}

/// Returns the message where a part is missing.
fn missing_part(part: Part) -> Message
    ensures is { message_of result ≡ missing part }
{
    match part {
        Part::Arguments => Message::Expected(SyntaxKind::ARG_LIST),
        Part::AssocItems => Message::Expected(SyntaxKind::ASSOC_ITEM_LIST),
        Part::Block => Message::Expected(SyntaxKind::BLOCK_EXPR),
        Part::ClosureParams => Message::Expected(SyntaxKind::PARAM_LIST),
        Part::FnPtrParams => Message::Expected(SyntaxKind::PARAM_LIST),
        Part::GenericArgs => Message::Expected(SyntaxKind::GENERIC_ARG_LIST),
        Part::GenericParams => Message::Expected(SyntaxKind::GENERIC_PARAM_LIST),
        Part::MatchArms => Message::Expected(SyntaxKind::MATCH_ARM_LIST),
        Part::NewGenericParams => Message::Expected(SyntaxKind::GENERIC_PARAM_LIST),
        Part::NewWhereClause => Message::Expected(SyntaxKind::WHERE_CLAUSE),
        Part::Params => Message::Expected(SyntaxKind::PARAM_LIST),
        Part::PathType => Message::Expected(SyntaxKind::PATH_TYPE),
        Part::Pattern => Message::ExpectedPattern,
        Part::RecordFields => Message::Expected(SyntaxKind::RECORD_FIELD_LIST),
        Part::SinglePattern => Message::ExpectedPattern,
        Part::StatementList => Message::Expected(SyntaxKind::STMT_LIST),
        Part::Type => Message::ExpectedType,
        Part::TypeNoBounds => Message::ExpectedType,
        Part::Variants => Message::Expected(SyntaxKind::VARIANT_LIST),
        Part::WhereClause => Message::Expected(SyntaxKind::WHERE_CLAUSE),
        Part::WherePred => Message::Expected(SyntaxKind::WHERE_PRED),
    }
}

/// Returns `true` if a part starts here.
fn at_part(p: &mut Parser<'_>, part: Part) -> bool
    ensures sees { (c : Condition) → Saw c (part_begins part) p.old result }
    ensures some { IsTrue result → 1 ≤ tokens p.old }
    ensures peeks { Peeks (looks_of part) p.old p.new }
{
    match part {
        Part::Arguments | Part::FnPtrParams | Part::Params => p.at(SyntaxKind::L_PAREN),
        Part::AssocItems
        | Part::Block
        | Part::MatchArms
        | Part::RecordFields
        | Part::StatementList
        | Part::Variants => p.at(SyntaxKind::L_CURLY),
        Part::ClosureParams => p.at(SyntaxKind::PIPE),
        Part::GenericArgs => at_generic_args(p),
        Part::GenericParams => p.at(SyntaxKind::L_ANGLE),
        Part::NewGenericParams => p.at_new(SyntaxKind::L_ANGLE),
        Part::NewWhereClause => p.at_new(SyntaxKind::WHERE_KW),
        Part::PathType => at_path(p),
        Part::Pattern => at_pattern(p),
        Part::SinglePattern => at_single_pattern(p),
        Part::Type => at_type(p),
        Part::TypeNoBounds => at_type_no_bounds(p),
        Part::WhereClause => p.at(SyntaxKind::WHERE_KW),
        Part::WherePred => at_where_pred(p),
    }
}

/// Parses a part.
#[cycle(grammar)]
fn read_part(p: &mut Parser<'_>, part: Part)
    requires begins { Starts (part_begins part) p.old }
    ensures reads { (c : Condition) → Reads c (part_of part) p.old p.new }
    ensures takes { Takes 0 p.old p.new }
{
    match part {
        Part::Arguments => list(p, ListKind::Arguments),
        Part::AssocItems => item_list(p, SyntaxKind::ASSOC_ITEM_LIST),
        Part::Block => block(p),
        Part::ClosureParams => list(p, ListKind::ClosureParams),
        Part::FnPtrParams => list(p, ListKind::FnPtrParams),
        Part::GenericArgs => generic_args(p),
        Part::GenericParams | Part::NewGenericParams => list(p, ListKind::GenericParams),
        Part::MatchArms => match_arms(p),
        Part::NewWhereClause | Part::WhereClause => where_clause(p),
        Part::Params => list(p, ListKind::Params),
        Part::PathType => path_type(p),
        Part::Pattern => pattern(p),
        Part::RecordFields => list(p, ListKind::RecordFields),
        Part::SinglePattern => single_pattern(p),
        Part::StatementList => statement_list(p),
        Part::Type => any_type(p),
        Part::TypeNoBounds => type_no_bounds(p),
        Part::Variants => list(p, ListKind::Variants),
        Part::WherePred => where_pred(p),
    }
}

/// Parses a part; emits an error if there is none.
// { f(); a }
#[cycle(grammar)]
pub(crate) fn expect_part(p: &mut Parser<'_>, part: Part)
    ensures reads { (c : Condition) → Reads c (expected part) p.old p.new }
    ensures asks { Asks (looks_of part) p.old p.new }
{
    if at_part(p, part) {
        read_part(p, part);
        return;
    }
    p.error(missing_part(part));
}

/// Parses an optional part.
// where T: A
#[cycle(grammar)]
pub(crate) fn opt_part(p: &mut Parser<'_>, part: Part)
    ensures reads { (c : Condition) → Reads c ⁅ part_of part ⁆ p.old p.new }
    ensures asks { Asks (looks_of part) p.old p.new }
{
    if at_part(p, part) {
        read_part(p, part);
    }
}
