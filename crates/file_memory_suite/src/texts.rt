//! Calls on texts: their lines, differences, names and mentions of one, levels, patterns of paths, and lines as
//! they are shown.
use anyhow::bail;
use line_index::LineIndex;
use memory_table::row::{Ask, Row};
use name_mentions::mentions_of;
use parser_input::{Edition, SyntaxKind};
use path_globs::is_excluded;
use shown_lines::push_excerpt;
use std::alloc::Global;
use text_diff::{byte_changes, line_changes, unified_diff};
use text_levels::{is_too_deep, levels_of};
use token_names::has_name;

/// The calls on texts.
#[derive(Clone, Copy)]
pub(crate) enum TextCall {
    Lines,
    Changes,
    Bytes,
    Diff,
    Mentions,
    Name,
    Excluded,
    Excerpt,
    Levels,
    IsTooDeep,
}

const OLD: &str = "a\nb\nc\n";

const NEW: &str = "a\nx\nc\n";

/// Returns a text of bytes that are one.
fn text_of(alloc: Global, bytes: &[u8]) -> anyhow::Result<String> {
    match str::from_utf8(bytes) {
        Ok(text) => Ok(String::from_str(alloc, text)?),
        Err(_) => bail!("no text"),
    }
}

/// Returns the changed lines of both texts.
fn changes(alloc: Global) -> anyhow::Result<String> {
    let mut shown = String::new(alloc);
    for change in line_changes(alloc, OLD.as_bytes(), NEW.as_bytes())? {
        let (start, end) = (change.old_start, change.old_end);
        let (new_start, new_end) = (change.new_start, change.new_end);
        let row = format!(in alloc; "{start}..{end} {new_start}..{new_end};")?;
        shown.push_str(row.as_str())?;
    }
    Ok(shown)
}

/// Returns the changed bytes of both texts.
fn bytes(alloc: Global) -> anyhow::Result<String> {
    let mut shown = String::new(alloc);
    for change in byte_changes(alloc, OLD.as_bytes(), NEW.as_bytes())? {
        let (start, end) = (change.old_start, change.old_end);
        let (new_start, new_end) = (change.new_start, change.new_end);
        let row = format!(in alloc; "{start}..{end} {new_start}..{new_end};")?;
        shown.push_str(row.as_str())?;
    }
    Ok(shown)
}

/// Returns where a text spells a name, in words.
fn mentions(alloc: Global) -> anyhow::Result<String> {
    let text = "fn a() { \"{a}\" } // a";
    let mentions = mentions_of(alloc, Edition::Edition2021, text, "a")?;
    let mut shown = format!(in alloc; "{};", mentions.identifiers)?;
    for mention in &mentions.others {
        let words = mention.words(alloc, "a")?;
        let row = format!(in alloc; "{}: {words};", mention.offset)?;
        shown.push_str(row.as_str())?;
    }
    Ok(shown)
}

/// Returns a line with a caret.
fn excerpt(alloc: Global) -> anyhow::Result<String> {
    let mut rows = Vec::new(alloc);
    push_excerpt(alloc, "let x = ;", 8, &mut rows)?;
    text_of(alloc, rows.as_slice())
}

impl Ask for TextCall {
    fn answer(self, alloc: Global, _refused: &mut u32) -> anyhow::Result<String> {
        match self {
            TextCall::Lines => {
                let index = LineIndex::try_new(alloc, OLD)?;
                Ok(format!(in alloc; "{}", index.line_count())?)
            }
            TextCall::Changes => changes(alloc),
            TextCall::Bytes => bytes(alloc),
            TextCall::Diff => {
                let diff = unified_diff(alloc, "a.rs", OLD.as_bytes(), NEW.as_bytes())?;
                text_of(alloc, diff.as_slice())
            }
            TextCall::Mentions => mentions(alloc),
            TextCall::Name => {
                let is = has_name(alloc, "caf\u{e9}", SyntaxKind::IDENT, "r#cafe\u{301}")?;
                Ok(format!(in alloc; "{is}")?)
            }
            TextCall::Excluded => {
                let globs = ["*/gen/*", "*_pb.rs"];
                let is = is_excluded(alloc, globs.as_slice(), "./src/a_pb.rs", "a_pb.rs")?;
                Ok(format!(in alloc; "{is}")?)
            }
            TextCall::Excerpt => excerpt(alloc),
            TextCall::Levels => {
                let levels = levels_of(alloc, Edition::Edition2021, "((a))")?;
                Ok(format!(in alloc; "{levels}")?)
            }
            TextCall::IsTooDeep => {
                let is_deep = is_too_deep(alloc, Edition::Edition2021, "fn f() { g((1)); }")?;
                Ok(format!(in alloc; "{is_deep}")?)
            }
        }
    }
}

pub(crate) const ROWS: &[Row<TextCall>] = &[
    ("line_index::LineIndex::try_new", TextCall::Lines, "4"),
    ("text_diff::line_changes", TextCall::Changes, "1..2 1..2;"),
    ("text_diff::byte_changes", TextCall::Bytes, "2..4 2..4;"),
    (
        "text_diff::unified_diff",
        TextCall::Diff,
        "--- a/a.rs\t\n+++ b/a.rs\t\n@@ -1,3 +1,3 @@\n a\n-b\n+x\n c\n",
    ),
    (
        "name_mentions::mentions_of, name_mentions::Mention::words",
        TextCall::Mentions,
        "1;11: a in a string;20: a in a comment;",
    ),
    ("token_names::has_name", TextCall::Name, "true"),
    ("path_globs::is_excluded", TextCall::Excluded, "true"),
    (
        "shown_lines::push_excerpt",
        TextCall::Excerpt,
        "let x = ;\n        ^\n",
    ),
    ("text_levels::levels_of", TextCall::Levels, "2"),
    ("text_levels::is_too_deep", TextCall::IsTooDeep, "false"),
];
