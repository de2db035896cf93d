//! The request that a JSON value holds.
ghost use Rattle.std.specs.Prelude.{◌≡◌, map, option_and_then, option_map, IfOk};
ghost use Rattle.serde_json.specs.Find.{as_array, as_str};
ghost use Rattle.serde_json.specs.View.{view, items_view};
ghost use Rattle.parser_input.specs.Kind.{raw_of};
ghost use Rattle.document_requests.specs.Words.{grammar_named, op_named, entry_named, is_known, is_of_whole_language, kind_named};
ghost use Rattle.document_requests.specs.Request.{whole_number, target_in, payload_in, put_named, change_of, all_in, edit_of, commit_of, command_by, grammar_in, grammar_of, request_by, request_of};
ghost use Rattle.document_requests.specs.Asked.{change, command, request};

use crate::request::{Change, Command, Entry, Format, Op, Request, Target};
use parser_input::edition::Edition;
use parser_input::syntax_kind::SyntaxKind;
use ra_parser::Grammar;
use serde_json::Value;
use std::alloc::{AllocError, Global};

// The kinds of the whole language stand side by side, by their raw numbers.
const FIRST_OF_WHOLE: u16 = SyntaxKind::EXTERN_CRATE as u16;

const LAST_OF_WHOLE: u16 = SyntaxKind::UNDERSCORE_EXPR as u16;

fn grammar_named(word: &str) -> Option<Grammar>
    ensures { result ≡ grammar_named word.now }
{
    match word {
        "profile" => Some(Grammar::Profile),
        "whole" => Some(Grammar::Whole),
        _ => None,
    }
}

fn op_named(word: &str) -> Option<Op>
    ensures { result ≡ op_named word.now }
{
    match word {
        "replace" => Some(Op::Replace),
        "before" => Some(Op::Before),
        "after" => Some(Op::After),
        _ => None,
    }
}

fn entry_named(word: &str) -> Option<Entry>
    ensures { result ≡ entry_named word.now }
{
    match word {
        "token" => Some(Entry::Token),
        "expr" => Some(Entry::Expr),
        "type" => Some(Entry::Ty),
        "pattern" => Some(Entry::Pattern),
        "item" => Some(Entry::Item),
        "stmt" => Some(Entry::Stmt),
        _ => None,
    }
}

// Returns `true` for a kind that only the grammar of the whole language makes.
fn is_of_whole_language(kind: SyntaxKind) -> bool
    ensures { result ≡ is_of_whole_language (raw_of kind) }
{
    let raw = kind.to_raw();
    FIRST_OF_WHOLE <= raw && raw <= LAST_OF_WHOLE
}

// Returns `true` if a request that is read by `grammar` may name `kind`.
fn is_known(grammar: Grammar, kind: SyntaxKind) -> bool
    ensures { result ≡ is_known grammar (raw_of kind) }
{
    match grammar {
        Grammar::Profile => !is_of_whole_language(kind),
        Grammar::Whole => true,
    }
}

// Returns the kind of a name that a request may use.
fn kind_named(grammar: Grammar, word: &str) -> Option<SyntaxKind>
    ensures { result ≡ kind_named grammar word.now }
{
    let kind = SyntaxKind::from_name(word)?;
    if is_known(grammar, kind) {
        return Some(kind);
    }
    None
}

fn target_in(grammar: Grammar, values: &[Value]) -> Option<Target>
    ensures { result ≡ target_in grammar (items_view values.now) }
{
    let [kind, start, stop] = values else {
        return None;
    };
    let kind = kind_named(grammar, kind.as_str()?)?;
    let start = start.as_u64()?;
    let stop = stop.as_u64()?;
    Some(Target { kind, start, stop })
}

fn payload_in(values: &[Value]) -> Option<(Entry, &str)>
    ensures { option_map (λ p. (p.0, p.1.now)) result ≡ payload_in (items_view values.now) }
{
    let [entry, text] = values else {
        return None;
    };
    let entry = entry_named(entry.as_str()?)?;
    Some((entry, text.as_str()?))
}

/// What is to be put, and how.
fn put_of<'a>(word: &str, target: Target, value: &'a Value) -> Option<Change<'a>>
    ensures { option_map change result ≡ put_named word.now target (view value.now) }
{
    let op = op_named(word)?;
    let (entry, text) = payload_in(value.get("with")?.as_array()?)?;
    Some(Change::Put {
        op,
        target,
        entry,
        text,
    })
}

fn change_of(grammar: Grammar, value: &Value) -> Option<Change<'_>>
    ensures { option_map change result ≡ change_of grammar (view value.now) }
{
    let word = value.get("op")?.as_str()?;
    let target = target_in(grammar, value.get("at")?.as_array()?)?;
    match word {
        "delete" => Some(Change::Delete { target }),
        _ => put_of(word, target, value),
    }
}

fn changes_in(
    alloc: Global,
    grammar: Grammar,
    values: &[Value],
) -> Result<Option<Vec<Change<'_>>>, AllocError>
    ensures { IfOk result (λ found. option_map (λ changes. map change changes.items) found
        ≡ all_in (change_of grammar) (items_view values.now)) }
{
    let mut changes = Vec::with_capacity(alloc, values.len())?;
    for value in values {
        let Some(change) = change_of(grammar, value) else {
            return Ok(None);
        };
        changes.push(change)?;
    }
    Ok(Some(changes))
}

fn edit_of(value: &Value) -> Option<Command<'_>>
    ensures { option_map command result ≡ edit_of (view value.now) }
{
    let start = value.get("start")?.as_u64()?;
    let stop = value.get("end")?.as_u64()?;
    let text = value.get("text")?.as_str()?;
    Some(Command::Edit { start, stop, text })
}

fn commit_of(
    alloc: Global,
    grammar: Grammar,
    value: &Value,
) -> Result<Option<Command<'_>>, AllocError>
    ensures { IfOk result (λ found. option_map command found ≡ commit_of grammar (view value.now)) }
{
    let Some(values) = value.get("changes").and_then(Value::as_array) else {
        return Ok(None);
    };
    match changes_in(alloc, grammar, values)? {
        Some(changes) => Ok(Some(Command::Commit { changes })),
        None => Ok(None),
    }
}

fn command_by(
    alloc: Global,
    grammar: Grammar,
    value: &Value,
) -> Result<Option<Command<'_>>, AllocError>
    ensures { IfOk result
        (λ found. option_map command found ≡ command_by grammar (view value.now)) }
{
    let Some(word) = value.get("do").and_then(Value::as_str) else {
        return Ok(None);
    };
    match word {
        "edit" => Ok(edit_of(value)),
        "commit" => commit_of(alloc, grammar, value),
        "tree" => Ok(Some(Command::Tree)),
        "errors" => Ok(Some(Command::Errors)),
        _ => Ok(None),
    }
}

fn commands_in(
    alloc: Global,
    grammar: Grammar,
    values: &[Value],
) -> Result<Option<Vec<Command<'_>>>, AllocError>
    ensures { IfOk result (λ found. option_map (λ commands. map command commands.items) found
        ≡ all_in (command_by grammar) (items_view values.now)) }
{
    let mut commands = Vec::with_capacity(alloc, values.len())?;
    for value in values {
        let Some(command) = command_by(alloc, grammar, value)? else {
            return Ok(None);
        };
        commands.push(command)?;
    }
    Ok(Some(commands))
}

/// Returns the commands that a value lists, on a document that is read by `grammar`; `None` if it is no
/// list of such commands.
///
/// # Errors
///
/// Out of memory.
pub fn commands_of(
    alloc: Global,
    grammar: Grammar,
    value: &Value,
) -> Result<Option<Vec<Command<'_>>>, AllocError>
    ensures { IfOk result (λ found. option_map (λ commands. map command commands.items) found
        ≡ option_and_then (all_in (command_by grammar)) (as_array (view value.now))) }
{
    match value.as_array() {
        Some(values) => commands_in(alloc, grammar, values),
        None => Ok(None),
    }
}

/// Returns the grammar that the value of a member names; that of the whole language if there is no
/// member.
fn grammar_in(member: Option<&Value>) -> Option<Grammar>
    ensures { result ≡ grammar_in (option_map (λ value. view value.now) member.entry) }
{
    match member {
        None => Some(Grammar::Whole),
        Some(value) => grammar_named(value.as_str()?),
    }
}

/// Returns the grammar that a request is read by.
fn grammar_of(format: Format, value: &Value) -> Option<Grammar>
    ensures { result ≡ grammar_of format (view value.now) }
{
    match format {
        Format::Single => Some(Grammar::Profile),
        Format::Line => grammar_in(value.get("grammar")),
    }
}

/// Returns the request that `value` holds, if it holds one that is read by `grammar`.
fn request_by(
    alloc: Global,
    grammar: Grammar,
    value: &Value,
) -> Result<Option<Request<'_>>, AllocError>
    ensures { IfOk result
        (λ found. option_map request found ≡ request_by grammar (view value.now)) }
{
    let word = value.get("edition").and_then(Value::as_str);
    let Some(edition) = word.and_then(Edition::from_name) else {
        return Ok(None);
    };
    let Some(text) = value.get("text").and_then(Value::as_str) else {
        return Ok(None);
    };
    let Some(values) = value.get("commands").and_then(Value::as_array) else {
        return Ok(None);
    };
    match commands_in(alloc, grammar, values)? {
        Some(commands) => Ok(Some(Request {
            grammar,
            edition,
            text,
            commands,
        })),
        None => Ok(None),
    }
}

/// Returns the request of a format that `value` holds, if it holds one. Further members are ignored.
pub fn request_of(
    alloc: Global,
    format: Format,
    value: &Value,
) -> Result<Option<Request<'_>>, AllocError>
    ensures { IfOk result (λ found. option_map request found ≡ request_of format (view value.now)) }
{
    match grammar_of(format, value) {
        Some(grammar) => request_by(alloc, grammar, value),
        None => Ok(None),
    }
}
