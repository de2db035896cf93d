//! The matches of a pattern in a document as JSON.

ghost use Rattle.std.specs.Prelude.{◌≡◌, ◌+◌, ◌<◌, ◌≤◌, ◌^◌, ◌++◌, [], map, drop, take, if◌then◌else◌, IfOk, OnOk, length, string_bytes};
ghost use Rattle.std.specs.List.{flat_map, list_any};
ghost use Rattle.std.specs.Str.{bytes_eq};
ghost use Rattle.tree_patterns.specs.Patterns.{places};
ghost use Rattle.tree_patterns.specs.Places.{place_of};
ghost use Rattle.match_rows.specs.Objects.{IsObject, file_object, fragment_word, is_shown, json_string, match_item, member_item, members, object_head, place_members, runs, span_item, spans, value};

use line_index::{Encoding, LineCol, LineIndex};
use rowan_green::GreenTokenRef;
use rust_document::Document;
use serde_json::Value;
use std::alloc::{AllocError, Global};
use syntax_tree::SyntaxElement;
use tree_patterns::{Fragment, Pattern, Place};
use tree_search::{Binding, Match, search};

/// Returns `text` as a string in JSON.
fn json_string(alloc: Global, text: &str) -> Result<String, AllocError>
    ensures { IfOk result (λ written. string_bytes written ≡ json_string text.now) }
{
    let value = Value::String(String::from_str(alloc, text)?);
    value.to_string(alloc)
}

/// Returns items without the comma of the first one.
fn without_comma(items: &[u8]) -> &[u8]
    ensures { result.now ≡ drop 1 items.now }
{
    match items {
        [] => items,
        [_, rest @ ..] => rest,
    }
}

/// Appends the bytes of an element, behind a comma.
fn push_span(alloc: Global, element: &SyntaxElement, items: &mut Vec<u8>) -> Result<(), AllocError>
    ensures { OnOk result (items.new.items ≡ items.old.items ++ span_item element.now) }
{
    let range = element.text_range();
    let start = range.start().0;
    let end = range.end().0;
    let item = format!(in alloc; ",{{\"start\":{start},\"end\":{end}}}")?;
    items.extend_from_slice(item.as_str().as_bytes())
}

/// Returns the bytes of elements, a comma between two of them.
fn spans(alloc: Global, elements: &[SyntaxElement]) -> Result<Vec<u8>, AllocError>
    ensures { IfOk result (λ v. v.items ≡ spans elements.now) }
{
    let mut items = Vec::new(alloc);
    for element in elements {
        push_span(alloc, element, &mut items)?;
    }
    let mut spans = Vec::new(alloc);
    spans.extend_from_slice(without_comma(items.as_slice()))?;
    Ok(spans)
}

/// Returns `true` if a leaf of this kind stands for any number of elements.
fn is_run(kind: u16) -> bool
    ensures { result ≡ runs (place_of kind) }
{
    match Place::from_raw(kind) {
        Some(place) => place.is_sequence(),
        None => false,
    }
}

/// Returns what a place stands for: the bytes of its element, or those of a run as a list.
fn value(alloc: Global, is_run: bool, elements: &[SyntaxElement]) -> Result<Vec<u8>, AllocError>
    ensures { IfOk result (λ v. v.items ≡ value is_run elements.now) }
{
    let spans = spans(alloc, elements)?;
    if !is_run {
        return Ok(spans);
    }
    let mut list = Vec::new(alloc);
    list.extend_from_slice("[".as_bytes())?;
    list.extend_from_slice(spans.as_slice())?;
    list.extend_from_slice("]".as_bytes())?;
    Ok(list)
}

/// Appends the member of a place, behind a comma.
fn push_member(
    alloc: Global,
    place: &GreenTokenRef<'_>,
    binding: &Binding,
    out: &mut Vec<u8>,
) -> Result<(), AllocError>
    ensures { OnOk result (out.new.items ≡ out.old.items ++ member_item place.now binding.now) }
{
    let name = json_string(alloc, place.text())?;
    let value = value(alloc, is_run(place.kind().0), binding.elements())?;
    out.extend_from_slice(",".as_bytes())?;
    out.extend_from_slice(name.as_str().as_bytes())?;
    out.extend_from_slice(":".as_bytes())?;
    out.extend_from_slice(value.as_slice())
}

/// Returns `true` if a place of a name is among places.
fn is_seen(seen: &[GreenTokenRef<'_>], name: &str) -> bool
    ensures { result ≡ list_any (λ l. bytes_eq l.text name.now) seen.now }
{
    seen.iter().any(|place| place.text() == name)
}

/// Returns `true` if a place has a name, and is the first one of it behind others.
#[tactic(auto, using(tree_search::proofs::Bindings::seen_names))]
fn is_shown(seen: &[GreenTokenRef<'_>], name: &str) -> bool
    ensures { result ≡ is_shown (map (λ l. l.text) seen.now) name.now }
{
    name != "_" && !is_seen(seen, name)
}

/// Appends the member of a place, unless it has no name, or one that was seen.
fn push_shown(
    alloc: Global,
    seen: &[GreenTokenRef<'_>],
    place: &GreenTokenRef<'_>,
    binding: &Binding,
    out: &mut Vec<u8>,
) -> Result<(), AllocError>
    ensures { OnOk result (out.new.items ≡ out.old.items
        ++ (if is_shown (map (λ l. l.text) seen.now) place.now.text
        then member_item place.now binding.now else [])) }
{
    if is_shown(seen, place.text()) {
        return push_member(alloc, place, binding, out);
    }
    Ok(())
}

/// Returns the first places.
fn front<'a, 'b>(places: &'b [GreenTokenRef<'a>], count: usize) -> &'b [GreenTokenRef<'a>]
    requires { count ≤ length places.now }
    ensures { result.now ≡ take count places.now }
{
    &places[..count]
}

/// Returns what the places of a pattern stand for: a member for each name, behind a comma.
fn members(
    alloc: Global,
    places: &[GreenTokenRef<'_>],
    bindings: &[Binding],
) -> Result<Vec<u8>, AllocError>
    ensures { IfOk result (λ v. v.items ≡ members [] places.now bindings.now) }
{
    let mut out = Vec::new(alloc);
    let mut at = 0usize;
    'places: while at < places.len() {
        if at >= bindings.len() {
            return Ok(out);
        }
        let seen = front(places, at);
        push_shown(alloc, seen, &places[at], &bindings[at], &mut out)?;
        at += 1;
    }
    Ok(out)
}

/// Returns where a match is: its bytes, and its line and column, counted from 1.
fn place_members(
    alloc: Global,
    start: usize,
    end: usize,
    place: LineCol,
) -> Result<String, AllocError>
    requires line { place.line + 1 < 2 ^ 64 }
    requires col { place.col + 1 < 2 ^ 64 }
    ensures { IfOk result (λ text. string_bytes text ≡ place_members start end place) }
{
    let line = place.line + 1;
    let column = place.col + 1;
    format!(in alloc; "{{\"start\":{start},\"end\":{end},\"line\":{line},\"column\":{column}")
}

/// Appends a match in the text of `index`, behind a comma.
fn push_match(
    alloc: Global,
    places: &[GreenTokenRef<'_>],
    index: &LineIndex<'_>,
    found: &Match,
    items: &mut Vec<u8>,
) -> Result<(), AllocError>
    requires { length index.now < 2 ^ 32 }
    ensures { OnOk result (items.new.items
        ≡ items.old.items ++ match_item places.now index.now found.now) }
{
    let range = found.element().text_range();
    let start = range.start().0 as usize;
    let end = range.end().0 as usize;
    let place = index.line_col(Encoding::Utf32, start);
    let place = place_members(alloc, start, end, place)?;
    let members = members(alloc, places, found.bindings())?;
    let head = format!(in alloc; ",{place},\"bindings\":{{")?;
    items.extend_from_slice(head.as_str().as_bytes())?;
    items.extend_from_slice(without_comma(members.as_slice()))?;
    items.extend_from_slice(b"}}")
}

/// Returns the word for a fragment.
fn fragment_word(fragment: Fragment) -> &'static str
    ensures { result.now ≡ fragment_word fragment }
{
    match fragment {
        Fragment::Expression => "expression",
        Fragment::Type => "type",
        Fragment::Pattern => "pattern",
        Fragment::Statement => "statement",
        Fragment::Item => "item",
    }
}

/// Returns what the object of a file begins with.
fn object_head(alloc: Global, path: &str, fragment: Fragment) -> Result<String, AllocError>
    ensures { IfOk result (λ head. string_bytes head ≡ object_head path.now fragment) }
{
    let path = json_string(alloc, path)?;
    let word = fragment_word(fragment);
    format!(in alloc; "{{\"path\":{path},\"fragment\":\"{word}\",\"matches\":[")
}

/// Appends the object of a file.
fn push_object(
    alloc: Global,
    path: &str,
    fragment: Fragment,
    items: &[u8],
    rows: &mut Vec<u8>,
) -> Result<(), AllocError>
    ensures { OnOk result (rows.new.items
        ≡ rows.old.items ++ file_object path.now fragment items.now) }
{
    let head = object_head(alloc, path, fragment)?;
    rows.extend_from_slice(head.as_str().as_bytes())?;
    rows.extend_from_slice(without_comma(items))?;
    rows.extend_from_slice(b"]}\n")
}

/// Appends the object of matches in the text of `index`.
fn push_matches(
    alloc: Global,
    path: &str,
    pattern: &Pattern,
    index: &LineIndex<'_>,
    matches: &[Match],
    rows: &mut Vec<u8>,
) -> Result<(), AllocError>
    requires { length index.now < 2 ^ 32 }
    ensures { OnOk result (rows.new.items ≡ rows.old.items
        ++ file_object path.now pattern.now.fragment
        (flat_map (match_item (places pattern.now.tree) index.now) matches.now)) }
{
    let places = pattern.places(alloc)?;
    let mut items = Vec::new(alloc);
    for found in matches {
        push_match(alloc, places.as_slice(), index, found, &mut items)?;
    }
    push_object(alloc, path, pattern.fragment(), items.as_slice(), rows)
}

/// Appends the matches of `pattern` in the tree of `document` as an object in JSON on a line of its own, if there are some:
/// `path`, what the pattern was read as, and for each match its bytes, its line and column, counted from 1 in characters,
/// and the bytes of what its metavariables stand for, of a run a list. Returns the number of matches.
///
/// # Errors
///
/// [`AllocError`] if an allocation fails or a reference count overflows.
pub fn push_match_object(
    alloc: Global,
    path: &str,
    document: &Document,
    pattern: &Pattern,
    rows: &mut Vec<u8>,
) -> Result<usize, AllocError>
    ensures { IfOk result (λ count. IsObject path.now document.now pattern.now
        rows.old.items rows.new.items count) }
{
    let matches = search(alloc, pattern, document.root())?;
    if !matches.is_empty() {
        let index = LineIndex::try_new(alloc, document.text())?;
        push_matches(alloc, path, pattern, &index, matches.as_slice(), rows)?;
    }
    Ok(matches.len())
}
