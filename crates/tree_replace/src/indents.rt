//! Indents of texts that are moved.

use parser_input::SyntaxKind;
use pattern_parser::reading::opened;
use pattern_parser::{Dialect, PatternError};
use std::alloc::{AllocError, Global};
use tree_patterns::leaves::leaves_of;

/// Adds whitespace: behind its last line feed, `old` becomes `new` if the rest begins with it.
fn push_blank(out: &mut String, blank: &str, old: &str, new: &str) -> Result<(), AllocError> {
    let Some((lines, rest)) = blank.rsplit_once('\n') else {
        return out.push_str(blank);
    };
    out.push_str(lines)?;
    out.push_str("\n")?;
    match rest.strip_prefix(old) {
        Some(rest) => {
            out.push_str(new)?;
            out.push_str(rest)
        }
        None => out.push_str(rest),
    }
}

/// Returns a text of tokens whose lines begin with the indent `new` where they began with `old`. The first
/// line, strings and comments stay.
pub fn reindented(
    alloc: Global,
    dialect: Dialect,
    text: &str,
    old: &str,
    new: &str,
) -> Result<String, PatternError> {
    if old == new || !text.as_bytes().contains(&b'\n') {
        return Ok(String::from_str(alloc, text)?);
    }
    let document = opened(alloc, dialect, text)?;
    let mut out = String::new(alloc);
    let root = document.root().cursor().green().as_ref();
    for leaf in leaves_of(alloc, &root)? {
        if leaf.kind().0 == SyntaxKind::WHITESPACE.to_raw() {
            push_blank(&mut out, leaf.text(), old, new)?;
        } else {
            out.push_str(leaf.text())?;
        }
    }
    Ok(out)
}
