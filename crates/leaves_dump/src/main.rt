//! Prints the leaves of texts, their errors, and the input of the parser.
//!
//! Standard input is a list of records: the last character of an edition's name, the text, and the
//! character U+001E. For each text there is a line for each leaf, with its kind and its end in
//! bytes. For a leaf in the parser's input the line has more: the kind of its token if that is
//! another one, its contextual kind if that is a keyword's or an operator's, and `joint`. The
//! number of tokens follows, then the indices of the leaves with an error and the errors, and an
//! empty line.
#![tactic(auto)]

use parser_input::{Edition, Input, LexedStr, SyntaxKind};
use std::alloc::Global;
use std::io;
use std::io::{BufWriter, Write};

#[cfg(test)]
mod tests;

// Writes what the token of a leaf has beyond the kind of the leaf.
fn dump_token<W: Write>(out: &mut W, leaf: SyntaxKind, input: &Input, n: usize) -> io::Result<()> {
    let kind = input.kind(n);
    if kind != leaf {
        write!(out, " input {}", kind.name())?;
    }
    let usual = match kind {
        SyntaxKind::IDENT => SyntaxKind::IDENT,
        _ => SyntaxKind::EOF,
    };
    let contextual = input.contextual_kind(n);
    if contextual != usual {
        write!(out, " {}", contextual.name())?;
    }
    if input.is_joint(n) {
        write!(out, " joint")?;
    }
    Ok(())
}

fn dump_leaves<W: Write>(out: &mut W, lexed: &LexedStr<'_>, input: &Input) -> io::Result<()> {
    let mut n = 0usize;
    for i in 0..lexed.len() {
        let kind = lexed.kind(i);
        write!(out, "{} {}", kind.name(), lexed.text_range(i).end)?;
        if !kind.is_trivia() {
            dump_token(out, kind, input, n)?;
            n = n.saturating_add(1);
        }
        writeln!(out)?;
    }
    writeln!(out, "{} tokens", input.len())
}

fn dump_errors<W: Write>(out: &mut W, lexed: &LexedStr<'_>) -> io::Result<()> {
    for (leaf, message) in lexed.errors() {
        writeln!(out, "{leaf} {message}")?;
    }
    writeln!(out)
}

fn dump<W: Write>(alloc: Global, out: &mut W, edition: Edition, text: &str) -> io::Result<()> {
    let lexed = LexedStr::new(alloc, edition, text)?;
    let input = lexed.to_input(alloc)?;
    dump_leaves(out, &lexed, &input)?;
    dump_errors(out, &lexed)
}

// Returns an edition by the last character of its name: a year, or `next`.
fn edition_of(last: Option<char>) -> Edition {
    match last {
        Some('5') => Edition::Edition2015,
        Some('8') => Edition::Edition2018,
        Some('1') => Edition::Edition2021,
        Some('t') => Edition::EditionNext,
        _ => Edition::Edition2024,
    }
}

fn main(rt: HostRuntime) -> io::Result<()> {
    let alloc = rt.alloc();
    let records = io::read_to_string(alloc, rt.reader())?;
    let mut out = BufWriter::new(alloc, io::writer(&rt))?;
    for record in records.as_str().split_terminator('\u{1E}') {
        let mut text = record.chars();
        let edition = edition_of(text.next());
        dump(alloc, &mut out, edition, text.as_str())?;
    }
    out.flush()
}
