//! A text, read.
ghost use Rattle.std.specs.Prelude.{◌≡◌, IfOk, chars};
ghost use Rattle.parser_input.specs.Stored.{whole_of};
ghost use Rattle.ra_parser.specs.Entries.{production_of};
ghost use Rattle.ra_parser.specs.Grammars.{is_whole};
ghost use Rattle.tree_lines.specs.Reading.{IsTreeOf, tree_of};

use crate::rows::{Row, Rows, Said};
use parser_events::shortcuts::intersperse_trivia;
use parser_input::edition::Edition;
use parser_input::lexed_str::LexedStr;
use ra_parser::{Grammar, ParseError, TopEntryPoint};
use std::alloc::Global;
use std::io;
use std::io::Write;

/// What a text was read as: its leaves, and the elements and messages of its tree.
#[derive(Drop)]
pub struct Reading<'a> {
    pub lexed: LexedStr<'a>,
    /// The elements of the tree, each node before what it holds.
    pub rows: Vec<Row>,
    /// The messages of the parser, in the order of the tree.
    pub said: Vec<Said>,
}

/// Writes two spaces for each node around an element.
fn write_indent<W: Write>(out: &mut W, depth: usize) -> io::Result<()> {
    for _ in 0..depth {
        out.write_all(b"  ")?;
    }
    Ok(())
}

/// Writes the line of an element.
fn write_row<W: Write>(out: &mut W, row: Row) -> io::Result<()> {
    write_indent(out, row.depth)?;
    writeln!(out, "{}@{}..{}", row.kind.name(), row.start, row.end)
}

impl<'a> Reading<'a> {
    /// Reads a text as what is asked, by a grammar.
    ///
    /// # Errors
    ///
    /// A text of too many tokens, or out of memory.
    pub fn new(
        alloc: Global,
        edition: Edition,
        grammar: Grammar,
        entry_point: TopEntryPoint,
        text: &'a str,
    ) -> Result<Reading<'a>, ParseError>
        ensures lexed { IfOk result (λ reading. reading.lexed ≡ whole_of edition (chars text.now)) }
        ensures tree { IfOk result (λ reading.
            IsTreeOf (tree_of (is_whole grammar) (production_of entry_point) edition
            (chars text.now))
            reading.rows.items reading.said.items) }
    {
        let lexed = LexedStr::new(alloc, edition, text)?;
        let input = grammar.input(alloc, &lexed)?;
        let output = entry_point.parse(alloc, &input)?;
        let mut tree = Rows::new(alloc);
        intersperse_trivia(&lexed, &output, &mut tree)?;
        let Rows {
            rows,
            said,
            entered: _,
            offset: _,
        } = tree;
        Ok(Reading { lexed, rows, said })
    }

    /// Writes the lines of the tree, a line for each element.
    pub fn write_tree<W: Write>(&self, out: &mut W) -> io::Result<()> {
        for row in &self.rows {
            write_row(out, *row)?;
        }
        Ok(())
    }

    /// Writes the messages, a line `! OFFSET MESSAGE` for each: the parser's, and then the lexer's.
    pub fn write_messages<W: Write>(&self, out: &mut W) -> io::Result<()> {
        for said in &self.said {
            writeln!(out, "! {} {}", said.offset, said.message)?;
        }
        for leaf in 0..self.lexed.len() {
            if let Some(message) = self.lexed.error(leaf) {
                writeln!(out, "! {} {message}", self.lexed.text_start(leaf))?;
            }
        }
        Ok(())
    }

    /// Writes the lines of the tree, and then those of the messages.
    pub fn write<W: Write>(&self, out: &mut W) -> io::Result<()> {
        self.write_tree(out)?;
        self.write_messages(out)
    }
}
