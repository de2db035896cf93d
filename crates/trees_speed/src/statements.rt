//! A tree of a million tokens: blocks of statements `let NAME = NAME+1;`.

use rowan::Language;
use rowan_green::{GreenError, GreenNode, GreenNodeBuilder, SyntaxKind};
use std::alloc::{AllocError, Global};
use std::fmt::Write;

pub(crate) const ROOT: SyntaxKind = SyntaxKind(1);

const BLOCK: SyntaxKind = SyntaxKind(2);

const STATEMENT: SyntaxKind = SyntaxKind(3);

const NAME: SyntaxKind = SyntaxKind(4);

const EXPRESSION: SyntaxKind = SyntaxKind(5);

const KEYWORD: SyntaxKind = SyntaxKind(6);

const SPACE: SyntaxKind = SyntaxKind(7);

pub(crate) const IDENTIFIER: SyntaxKind = SyntaxKind(8);

const SIGN: SyntaxKind = SyntaxKind(9);

const NUMBER: SyntaxKind = SyntaxKind(10);

const STATEMENTS: u32 = 10;

/// The language of the tree: its kinds are the raw ones.
#[derive(Clone, Copy, PartialEq, Eq, PartialOrd, Ord, Hash, Debug)]
pub struct Statements;

/// The kind of an element, by its raw number.
#[derive(Clone, Copy, PartialEq, Eq, PartialOrd, Ord, Hash, Debug)]
pub struct Kind(u16);

impl Language for Statements {
    type Kind = Kind;

    ghost use Rattle.std.specs.Prelude.{refl};

    ghost from_raw = { λ n. record { 0 = n } };

    ghost to_raw = { λ k. k.0 };

    ghost use lib.Chars.{codes};

    ghost name_of = { λ _. codes "KIND" };

    ghost undoes = { λ k. refl };

    fn kind_from_raw(raw: SyntaxKind) -> Kind {
        Kind(raw.0)
    }

    fn kind_to_raw(kind: Kind) -> SyntaxKind {
        SyntaxKind(kind.0)
    }

    fn kind_name(_kind: Kind) -> &'static str {
        "KIND"
    }
}

fn name(
    builder: &mut GreenNodeBuilder<'_>,
    kind: SyntaxKind,
    text: &str,
) -> Result<(), GreenError> {
    builder.start_node(kind)?;
    builder.token(IDENTIFIER, text)?;
    builder.finish_node()
}

// Adds the ten tokens of `let NAME = NAME+1;`, with its three spaces.
fn statement(builder: &mut GreenNodeBuilder<'_>, text: &str) -> Result<(), GreenError> {
    builder.start_node(STATEMENT)?;
    builder.token(KEYWORD, "let")?;
    builder.token(SPACE, " ")?;
    name(builder, NAME, text)?;
    builder.token(SPACE, " ")?;
    builder.token(SIGN, "=")?;
    builder.token(SPACE, " ")?;
    name(builder, EXPRESSION, text)?;
    builder.token(SIGN, "+")?;
    builder.token(NUMBER, "1")?;
    builder.token(SIGN, ";")?;
    builder.finish_node()
}

// Writes the name of a statement: one of `names` names, which recur in turn; if 0, a new one.
fn write_name(text: &mut String, number: u32, names: u32) -> Result<(), AllocError> {
    text.clear();
    let name = number.checked_rem(names).unwrap_or(number);
    write!(text, "name_{name}")
}

fn block(
    builder: &mut GreenNodeBuilder<'_>,
    text: &mut String,
    first: u32,
    names: u32,
) -> Result<(), GreenError> {
    builder.start_node(BLOCK)?;
    for i in 0..STATEMENTS {
        write_name(text, first.wrapping_add(i), names)?;
        statement(builder, text.as_str())?;
    }
    builder.finish_node()
}

/// Returns the tree of `blocks` blocks, with `names` names that recur in turn; if 0, with a new one
/// in each statement.
pub(crate) fn tree(alloc: Global, blocks: u32, names: u32) -> Result<GreenNode, GreenError> {
    let mut builder = GreenNodeBuilder::new(alloc);
    let mut text = String::new(alloc);
    builder.start_node(ROOT)?;
    for i in 0..blocks {
        block(&mut builder, &mut text, i.wrapping_mul(STATEMENTS), names)?;
    }
    builder.finish_node()?;
    Ok(builder.finish()?)
}
