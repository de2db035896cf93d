//! Calls of a source that read one node or insert on lines, and the tools over a source.
use crate::differences::range;
use anyhow::bail;
use extract_tool::extract;
use memory_table::row::{Ask, Row};
use must_use_tool::add_must_use;
use rust_source::{
    Edition, NodeError, Side, Source, SourceError, SyntaxEditor, SyntaxElement, SyntaxKind,
    SyntaxNode, TopEntryPoint, ancestor_below,
};
use std::alloc::Global;

/// The calls that read a text as one node.
#[derive(Clone, Copy)]
pub(crate) enum NodeCall {
    Item,
    Statement,
    Expression,
    Attribute,
}

/// The calls that change a text.
#[derive(Clone, Copy)]
pub(crate) enum Tool {
    Rename,
    RenameUnlessTaken,
    MustUse,
    Extract,
}

/// The calls on a source, and those of tools.
#[derive(Clone, Copy)]
pub(crate) enum ToolCall {
    /// Reads a text as one node.
    Node(NodeCall),
    /// Inserts an item before or after another one, on a line of its own.
    OnLine(Side),
    /// Finds the statement that an expression is in.
    Ancestor,
    /// Changes a text.
    Change(Tool, &'static str),
}

/// Makes a call that reads a text as one node.
fn read_node(source: &mut Source, call: NodeCall) -> Result<SyntaxNode, NodeError> {
    match call {
        NodeCall::Item => source.payload_item("struct T;"),
        NodeCall::Statement => source.payload_statement("let a = 1;"),
        NodeCall::Expression => {
            source.payload_node(TopEntryPoint::Expr, SyntaxKind::LITERAL, "a + 1")
        }
        NodeCall::Attribute => source.payload_attribute("#[must_use]"),
    }
}

/// Returns the text of a node and the number of its tree. A call that fails is made again: it took no
/// number.
fn node(alloc: Global, call: NodeCall, refused: &mut u32) -> anyhow::Result<String> {
    let mut source = Source::open(alloc, Edition::Edition2021, "struct S;")?;
    let node = match read_node(&mut source, call) {
        Ok(node) => node,
        Err(_) => {
            *refused = refused.saturating_add(1);
            read_node(&mut source, call)?
        }
    };
    Ok(format!(in alloc; "{} {}", node.cursor(), node.tree())?)
}

/// Records that an item comes before or after another one, on a line of its own.
fn insert_on_line(
    source: &mut Source,
    editor: &mut SyntaxEditor,
    side: Side,
    element: &SyntaxElement,
    new: &SyntaxElement,
) -> Result<(), SourceError> {
    match side {
        Side::Before => source.insert_on_line_before(editor, element, new),
        Side::After => source.insert_on_line_after(editor, element, new),
    }
}

/// Returns the text in which an item is inserted on a line of its own. A call that fails is made again on
/// the editor that it left.
fn on_line(alloc: Global, side: Side, refused: &mut u32) -> anyhow::Result<String> {
    let text = "mod m {\n    fn f() {}\n}";
    let mut source = Source::open(alloc, Edition::Edition2021, text)?;
    let Some(function) = source.find(SyntaxKind::FN, range(12, 21))? else {
        bail!("not found");
    };
    let item = SyntaxElement::Node(source.payload_item("struct T;")?);
    let mut editor = source.editor()?;
    if insert_on_line(&mut source, &mut editor, side, &function, &item).is_err() {
        *refused = refused.saturating_add(1);
        insert_on_line(&mut source, &mut editor, side, &function, &item)?;
    }
    Ok(source.try_commit(&editor)?)
}

/// Returns the text of the statement that an expression is in.
fn statement(alloc: Global) -> anyhow::Result<String> {
    let source = Source::open(alloc, Edition::Edition2021, "fn f() { g(1 + 2); }")?;
    let Some(SyntaxElement::Node(sum)) = source.find(SyntaxKind::BIN_EXPR, range(11, 16))? else {
        bail!("not found");
    };
    match ancestor_below(&sum, SyntaxKind::STMT_LIST)? {
        Some(statement) => Ok(format!(in alloc; "{}", statement.cursor())?),
        None => bail!("no statement"),
    }
}

/// Makes a call that changes a text.
fn change(source: &mut Source, tool: Tool) -> anyhow::Result<()> {
    match tool {
        Tool::Rename => source.rename("S", "Tee")?,
        Tool::RenameUnlessTaken => {
            rename_tool::rename(source, "S", "Tee")?;
        }
        Tool::MustUse => {
            add_must_use(source)?;
        }
        Tool::Extract => {
            extract(source, 0, "b")?;
        }
    }
    Ok(())
}

/// Returns the text that a call makes of another. A call that fails is made again on the source that it
/// left.
fn changed(
    alloc: Global,
    tool: Tool,
    text: &'static str,
    refused: &mut u32,
) -> anyhow::Result<String> {
    let mut source = Source::open(alloc, Edition::Edition2021, text)?;
    if change(&mut source, tool).is_err() {
        *refused = refused.saturating_add(1);
        if source.text() != text {
            bail!("the text has changed");
        }
        change(&mut source, tool)?;
    }
    Ok(String::from_str(alloc, source.text())?)
}

impl Ask for ToolCall {
    fn answer(self, alloc: Global, refused: &mut u32) -> anyhow::Result<String> {
        match self {
            ToolCall::Node(call) => node(alloc, call, refused),
            ToolCall::OnLine(side) => on_line(alloc, side, refused),
            ToolCall::Ancestor => statement(alloc),
            ToolCall::Change(tool, text) => changed(alloc, tool, text, refused),
        }
    }
}

pub(crate) const ROWS: &[Row<ToolCall>] = &[
    (
        "rust_source::Source::payload_item",
        ToolCall::Node(NodeCall::Item),
        "struct T; 2",
    ),
    (
        "rust_source::Source::payload_statement",
        ToolCall::Node(NodeCall::Statement),
        "let a = 1; 2",
    ),
    (
        "rust_source::Source::payload_node",
        ToolCall::Node(NodeCall::Expression),
        "1 2",
    ),
    (
        "rust_source::Source::payload_attribute",
        ToolCall::Node(NodeCall::Attribute),
        "#[must_use] 2",
    ),
    (
        "rust_source::Source::insert_on_line_before",
        ToolCall::OnLine(Side::Before),
        "mod m {\n    struct T;\n    fn f() {}\n}",
    ),
    (
        "rust_source::Source::insert_on_line_after",
        ToolCall::OnLine(Side::After),
        "mod m {\n    fn f() {}\n    struct T;\n}",
    ),
    (
        "rust_source::ancestor_below",
        ToolCall::Ancestor,
        "g(1 + 2);",
    ),
    (
        "rust_source::Source::rename",
        ToolCall::Change(Tool::Rename, "struct S; fn f(x: S) {}"),
        "struct Tee; fn f(x: Tee) {}",
    ),
    (
        "rename_tool::rename",
        ToolCall::Change(Tool::RenameUnlessTaken, "struct S; fn f(x: S) {}"),
        "struct Tee; fn f(x: Tee) {}",
    ),
    (
        "must_use_tool::add_must_use",
        ToolCall::Change(Tool::MustUse, "pub fn f() -> u8 { 1 }"),
        "#[must_use]\npub fn f() -> u8 { 1 }",
    ),
    (
        "extract_tool::extract",
        ToolCall::Change(Tool::Extract, "fn f() {\n    g(a * 2);\n}"),
        "fn f() {\n    let b = a * 2;\n    g(b);\n}",
    ),
];
