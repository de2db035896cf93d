//! Files in memory, rewritten by commands.

use document_requests::{CommitRule, Refusal};
use file_target::{Memory, Target};
use line_index::LineCol;
use parser_input::Edition;
use rust_document::Grammar;
use serde_json::Value;
use source_rewrites::{
    RefusedCommand, Rewrite, RewriteFault, RewriteStop, commands_of_files, rewrite_files,
};
use source_tools::{Dialect, Source};
use std::alloc::Global;
use std::test::Fail;

/// Reads a file of commands, and rewrites `a.rs` and `b.rs`. Returns what stopped that.
fn rewrite(
    alloc: Global,
    memory: &mut Memory,
    rule: CommitRule,
    commands: &str,
) -> Result<Option<RewriteStop>, Fail> {
    let value = Value::from_str(alloc, commands)?;
    let Some(files) = commands_of_files(alloc, Grammar::Whole, &value)? else {
        return Err(Fail::new("no file of commands"));
    };
    let mut rewrites = Vec::new(alloc);
    for file in files {
        rewrites.push(Rewrite {
            source: Source {
                path: String::from_str(alloc, file.path)?,
                dialect: Dialect {
                    edition: Edition::Edition2021,
                    grammar: Grammar::Whole,
                },
            },
            commands: file.commands,
        })?;
    }
    Ok(rewrite_files(alloc, rule, memory, rewrites.as_slice()).err())
}

/// An edit and a commit of `a.rs`, and an edit of `b.rs`.
const COMMANDS: &str = "{\"a.rs\":[{\"do\":\"edit\",\"start\":3,\"end\":4,\"text\":\"x\"},\
    {\"do\":\"commit\",\"changes\":[{\"op\":\"after\",\"at\":[\"FN\",0,9],\"with\":[\"item\",\"//!\"]}]}],\
    \"b.rs\":[{\"do\":\"edit\",\"start\":0,\"end\":0,\"text\":\"// b\\n\"}]}";

/// A commit of `b.rs` that names no element, on the second line, behind an edit of `a.rs`.
const REFUSED: &str = "{\"a.rs\":[{\"do\":\"edit\",\"start\":3,\"end\":4,\"text\":\"x\"}],\
    \"b.rs\":[{\"do\":\"tree\"},{\"do\":\"commit\",\"changes\":[{\"op\":\"delete\",\"at\":[\"FN\",10,11]}]}]}";

/// Returns two files.
fn files(alloc: Global) -> Result<Memory, Fail> {
    let mut memory = Memory::new(alloc);
    memory.add(alloc, "a.rs", b"\xef\xbb\xbffn a() {}")?;
    memory.add(alloc, "b.rs", b"struct B;\n struct C;")?;
    Ok(memory)
}

/// Returns `true` if the files have these bytes.
fn have(alloc: Global, memory: &Memory, a: &[u8], b: &[u8]) -> Result<bool, Fail> {
    let is_a = memory.read(alloc, "a.rs")?.bytes.as_slice() == a;
    let is_b = memory.read(alloc, "b.rs")?.bytes.as_slice() == b;
    Ok(is_a & is_b)
}

#[test]
fn all_files_are_rewritten(rt: HostRuntime) -> Result<(), Fail> {
    let alloc = rt.alloc();
    let mut memory = files(alloc)?;
    let stop = rewrite(alloc, &mut memory, CommitRule::WithoutMessages, COMMANDS)?;
    assert!(rt; stop.is_none());
    let a = b"\xef\xbb\xbffn x() {}//!";
    let b = b"// b\nstruct B;\n struct C;";
    assert!(rt; have(alloc, &memory, a, b)?);
    Ok(())
}

#[test]
fn a_refused_command_writes_nothing(rt: HostRuntime) -> Result<(), Fail> {
    let alloc = rt.alloc();
    let mut memory = files(alloc)?;
    let stop = rewrite(alloc, &mut memory, CommitRule::Faithful, REFUSED)?;
    let expected = RefusedCommand {
        index: 1,
        refusal: Refusal::NoTarget,
        place: LineCol { line: 1, col: 0 },
        difference: None,
    };
    let is_right = match stop {
        Some(RewriteStop::RefusedFile(failure)) => match failure.fault {
            RewriteFault::Refused(refused) => (failure.index == 1) & (refused == expected),
            RewriteFault::File(_) => false,
        },
        _ => false,
    };
    assert!(rt; is_right);
    assert!(rt;
        have(
            alloc,
            &memory,
            b"\xef\xbb\xbffn a() {}",
            b"struct B;\n struct C;"
        )?
    );
    Ok(())
}

/// A commit of `a.rs` that puts a sum for a factor.
const UNFAITHFUL: &str = "{\"a.rs\":[{\"do\":\"commit\",\"changes\":\
    [{\"op\":\"replace\",\"at\":[\"PATH_EXPR\",9,10],\"with\":[\"expr\",\"1 + 2\"]}]}]}";

#[test]
fn a_reason_is_the_first_difference(rt: HostRuntime) -> Result<(), Fail> {
    let alloc = rt.alloc();
    let mut memory = Memory::new(alloc);
    memory.add(alloc, "a.rs", b"fn f() { a * 2 }")?;
    let stop = rewrite(alloc, &mut memory, CommitRule::Faithful, UNFAITHFUL)?;
    let text = match stop {
        Some(RewriteStop::RefusedFile(failure)) => format!(in alloc; "{}", failure.fault)?,
        _ => String::new(alloc),
    };
    let expected = "1:10: command 0 is refused: Unfaithful: bytes 9..14 of the new text are \
        BIN_EXPR, but read as LITERAL";
    assert!(rt; text.as_str() == expected);
    Ok(())
}

/// A commit of `a.rs` that names a node which only the whole language has.
const OF_WHOLE: &str = "{\"a.rs\":[{\"do\":\"commit\",\"changes\":\
    [{\"op\":\"delete\",\"at\":[\"UNION\",0,16]}]}]}";

#[test]
fn a_kind_of_the_whole_language_is_named_there_alone(rt: HostRuntime) -> Result<(), Fail> {
    let alloc = rt.alloc();
    let mut memory = Memory::new(alloc);
    memory.add(alloc, "a.rs", b"union U { a: u }")?;
    let stop = rewrite(alloc, &mut memory, CommitRule::WithoutMessages, OF_WHOLE)?;
    assert!(rt; stop.is_none());
    assert!(rt; memory.read(alloc, "a.rs")?.bytes.is_empty());
    let value = Value::from_str(alloc, OF_WHOLE)?;
    assert!(rt; commands_of_files(alloc, Grammar::Profile, &value)?.is_none());
    Ok(())
}
