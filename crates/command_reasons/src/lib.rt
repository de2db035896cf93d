//! Why a value in JSON is no command.
#![tactic(auto)]

use parser_input::SyntaxKind;
use serde_json::Value;
use std::alloc::{AllocError, Global};

/// The members of an edit that are to be offsets of bytes.
const OFFSETS: [&str; 2] = ["start", "end"];

/// Returns the first member of an object that is none of `names`.
fn unknown_member<'a>(value: &'a Value, names: &[&str]) -> Option<&'a str> {
    let members = value.as_object()?;
    for (name, _) in members.iter() {
        let mut is_known = false;
        for known in names {
            is_known |= name.as_str() == *known;
        }
        if !is_known {
            return Some(name.as_str());
        }
    }
    None
}

/// Returns the words for a member that is missing: a member that is none names it, if there is one.
fn missing(
    alloc: Global,
    value: &Value,
    thing: &str,
    member: &str,
    names: &[&str],
) -> Result<String, AllocError> {
    match unknown_member(value, names) {
        Some(name) => format!(in alloc; "`{name}` is no member of {thing}, which wants `{member}`"),
        None => format!(in alloc; "{thing} wants a member `{member}`"),
    }
}

/// Returns why a value is no edit.
fn why_no_edit(alloc: Global, value: &Value) -> Result<String, AllocError> {
    let names = ["do", "start", "end", "text"];
    for member in OFFSETS {
        match value.get(member) {
            None => return missing(alloc, value, "an edit", member, names.as_slice()),
            Some(offset) => {
                if offset.as_u64().is_none() {
                    return format!(in alloc; "`{member}` is no offset in bytes");
                }
            }
        }
    }
    match value.get("text") {
        None => missing(alloc, value, "an edit", "text", names.as_slice()),
        Some(_) => format!(in alloc; "`text` is no text"),
    }
}

/// Returns `true` if a value is a kind and two offsets.
fn is_place(place: &Value) -> bool {
    match place.as_array().map(|values| values.as_slice()) {
        Some([kind, start, end]) => {
            kind.as_str().and_then(SyntaxKind::from_name).is_some()
                && start.as_u64().is_some()
                && end.as_u64().is_some()
        }
        _ => false,
    }
}

/// Returns why a value is no place of an element.
fn why_no_place(alloc: Global, place: &Value) -> Result<String, AllocError> {
    let name = match place.as_array().map(|values| values.as_slice()) {
        Some([kind, _, _]) => kind.as_str(),
        _ => None,
    };
    match name {
        Some(name) if SyntaxKind::from_name(name).is_none() => {
            format!(in alloc; "`{name}` is no kind")
        }
        _ => format!(in alloc; "`at` is no list of a kind and two offsets"),
    }
}

/// Returns why a value does not say what is put.
fn why_nothing_put(alloc: Global, put: &Value) -> Result<String, AllocError> {
    let entry = match put.as_array().map(|values| values.as_slice()) {
        Some([entry, _]) => entry.as_str(),
        _ => None,
    };
    match entry {
        None => format!(in alloc; "`with` is no list of an entry and a text"),
        Some("token" | "expr" | "type" | "pattern" | "item" | "stmt") => {
            format!(in alloc; "the second item of `with` is no text")
        }
        Some(name) => {
            format!(in alloc; "`{name}` is no entry: token, expr, type, pattern, item or stmt")
        }
    }
}

/// Returns `true` if a value says what is put.
fn is_put(put: &Value) -> bool {
    match put.as_array().map(|values| values.as_slice()) {
        Some([entry, text]) => {
            let entry = entry.as_str();
            matches!(
                entry,
                Some("token" | "expr" | "type" | "pattern" | "item" | "stmt")
            ) && text.as_str().is_some()
        }
        _ => false,
    }
}

/// Returns `true` if a value is a change, whatever the grammar of its kind.
fn is_change(change: &Value) -> bool {
    if !change.get("at").is_some_and(is_place) {
        return false;
    }
    match change.get("op").and_then(Value::as_str) {
        Some("delete") => true,
        Some("replace" | "before" | "after") => change.get("with").is_some_and(is_put),
        _ => false,
    }
}

/// Returns why a value is no change of a commit.
fn why_no_change(alloc: Global, change: &Value) -> Result<String, AllocError> {
    let names = ["op", "at", "with"];
    let op = change.get("op").and_then(Value::as_str);
    if !matches!(op, Some("replace" | "before" | "after" | "delete")) {
        return match op {
            Some(name) => {
                format!(in alloc; "`{name}` is no change: replace, before, after or delete")
            }
            None => missing(alloc, change, "a change", "op", names.as_slice()),
        };
    }
    let Some(place) = change.get("at") else {
        return missing(alloc, change, "a change", "at", names.as_slice());
    };
    if !is_place(place) {
        return why_no_place(alloc, place);
    }
    match change.get("with") {
        _ if matches!(op, Some("delete")) => {
            format!(in alloc; "its kind is one of the whole language")
        }
        None => missing(alloc, change, "a change", "with", names.as_slice()),
        Some(put) => why_nothing_put(alloc, put),
    }
}

/// Returns why a value is no commit.
fn why_no_commit(alloc: Global, value: &Value) -> Result<String, AllocError> {
    let names = ["do", "changes"];
    let Some(changes) = value.get("changes") else {
        return missing(alloc, value, "a commit", "changes", names.as_slice());
    };
    let Some(changes) = changes.as_array() else {
        return format!(in alloc; "`changes` is no list");
    };
    for (index, change) in changes.as_slice().iter().enumerate() {
        if !is_change(change) {
            let why = why_no_change(alloc, change)?;
            return format!(in alloc; "change {index}: {why}");
        }
    }
    format!(in alloc; "a kind of it is one of the whole language")
}

/// Returns why a value is no command, in words that name the member.
///
/// # Errors
///
/// [`AllocError`] if an allocation fails.
pub fn why_no_command(alloc: Global, value: &Value) -> Result<String, AllocError> {
    if value.as_object().is_none() {
        return format!(in alloc; "is no object");
    }
    match value.get("do").and_then(Value::as_str) {
        Some("edit") => why_no_edit(alloc, value),
        Some("commit") => why_no_commit(alloc, value),
        Some(name) => format!(in alloc; "`{name}` is no command: edit, commit, tree or errors"),
        None => missing(alloc, value, "a command", "do", ["do"].as_slice()),
    }
}
