//! A tree as lines of text.
ghost use Rattle.std.specs.Prelude.{◌≡◌, ◌+◌, ◌<◌, ◌^◌, [], ◌∷◌, ◌++◌, map, string_bytes, IfOk, OnOk};
ghost use Rattle.rowan_green.specs.Forest.{tree_text};
ghost use Rattle.rowan_green.specs.Term.{forest_of, kind_of, term_len};
ghost use Rattle.document_requests.specs.Lines.{kind_name, line_of, lines_from, tree_lines};

use parser_input::syntax_kind::SyntaxKind;
use rowan_green::{GreenElementRef, GreenNode, NodeOrToken};
use std::alloc::{AllocError, Global};

/// The name of the kind that a raw number stands for; a number of no kind is shown as an error.
fn kind_name(raw: rowan_green::SyntaxKind) -> &'static str
    ensures { result.now ≡ kind_name raw.0 }
{
    match SyntaxKind::from_raw(raw.0) {
        Some(kind) => kind.name(),
        None => "ERROR",
    }
}

/// The line of an element that starts at this byte.
fn line(
    alloc: Global,
    margin: &str,
    start: u32,
    element: &GreenElementRef<'_>,
) -> Result<String, AllocError>
    requires fits { start + term_len element.now < 2 ^ 32 }
    ensures { IfOk result (λ text. string_bytes text
        ≡ line_of margin.now (kind_of element.now) start (start + term_len element.now)) }
{
    let kind = kind_name(element.kind());
    let end = start + u32::from(element.text_len());
    format!(in alloc; "{margin}{kind}@{start}..{end}")
}

/// Appends the lines of an element that starts at this byte, and of all below it.
fn push_lines(
    alloc: Global,
    margin: &str,
    start: u32,
    element: &GreenElementRef<'_>,
    lines: &mut Vec<String>,
) -> Result<(), AllocError>
    requires fits { start + term_len element.now < 2 ^ 32 }
    ensures { OnOk result (map string_bytes lines.new.items
        ≡ map string_bytes lines.old.items
        ++ lines_from margin.now start (forest_of (element.now ∷ []))) }
{
    lines.push(line(alloc, margin, start, element)?)?;
    let NodeOrToken::Node(node) = element else {
        return Ok(());
    };
    let inner = format!(in alloc; "{margin}  ")?;
    let mut place = start;
    'children: for child in node.children() {
        push_lines(alloc, &inner, place, &child, lines)?;
        place += u32::from(child.text_len());
    }
    Ok(())
}

/// The lines of a tree, one for each element, a node before what it holds.
pub fn tree_lines(alloc: Global, root: &GreenNode) -> Result<Vec<String>, AllocError>
    ensures { IfOk result (λ lines. map string_bytes lines.items ≡ tree_lines root.now) }
{
    let mut lines = Vec::new(alloc);
    // (this shows that the text's length fits)
    let _fits = root.text_len();
    push_lines(alloc, "", 0, &NodeOrToken::Node(root.as_ref()), &mut lines)?;
    Ok(lines)
}
