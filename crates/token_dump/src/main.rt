//! Prints the tokens of the text on standard input, a line each: the kind, a space and the length
//! in bytes.
//!
//! With the argument `records` the input is a list of texts, each ended by the character U+001E,
//! and an empty line follows the lines of each.
#![tactic(auto)]

use rustc_lexer::tokenize;
use std::io::{BufWriter, Write};
use std::{env, io};

#[cfg(test)]
mod tests;

fn dump<W: Write>(out: &mut W, text: &str) -> io::Result<()> {
    for token in tokenize(text) {
        writeln!(out, "{:?} {}", token.kind, token.len)?;
    }
    Ok(())
}

fn dump_records<W: Write>(out: &mut W, texts: &str) -> io::Result<()> {
    for text in texts.split_terminator('\u{1E}') {
        dump(out, text)?;
        writeln!(out)?;
    }
    Ok(())
}

fn wants_records(rt: &HostRuntime) -> io::Result<bool> {
    let mut records = false;
    for word in env::args(rt)? {
        records = word.as_str() == "records";
    }
    Ok(records)
}

fn main(rt: HostRuntime) -> io::Result<()> {
    let alloc = rt.alloc();
    let text = io::read_to_string(alloc, rt.reader())?;
    let mut out = BufWriter::new(alloc, io::writer(&rt))?;
    if wants_records(&rt)? {
        dump_records(&mut out, text.as_str())?;
    } else {
        dump(&mut out, text.as_str())?;
    }
    out.flush()
}
