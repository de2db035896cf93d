//! Tests what contracts leave open: that the lines are the intended ones, by values written by
//! hand.

use crate::{dump, dump_records};
use parser_input::edition::Edition;
use ra_parser::{Grammar, TopEntryPoint};
use std::alloc::Global;

/// Returns the output for a source file of edition 2021.
fn lines_of(alloc: Global, text: &str) -> anyhow::Result<Vec<u8>> {
    let mut out = Vec::new(alloc);
    dump(
        alloc,
        &mut out,
        Edition::Edition2021,
        Grammar::Profile,
        TopEntryPoint::SourceFile,
        text,
    )?;
    Ok(out)
}

/// Returns the output for records.
fn lines_of_records(alloc: Global, records: &str) -> anyhow::Result<Vec<u8>> {
    let mut out = Vec::new(alloc);
    dump_records(alloc, &mut out, records)?;
    Ok(out)
}

#[test]
fn a_struct(rt: HostRuntime) -> anyhow::Result<()> {
    let wanted = "\
SOURCE_FILE@0..9
  STRUCT@0..9
    STRUCT_KW@0..6
    WHITESPACE@6..7
    NAME@7..8
      IDENT@7..8
    SEMICOLON@8..9
";
    let lines = lines_of(rt.alloc(), "struct S;")?;
    assert!(rt; lines.as_slice() == wanted.as_bytes());
    Ok(())
}

#[test]
fn messages_of_the_parser_come_first(rt: HostRuntime) -> anyhow::Result<()> {
    let wanted = "\
SOURCE_FILE@0..12
  CONST@0..12
    CONST_KW@0..5
    WHITESPACE@5..6
    UNDERSCORE@6..7
    COLON@7..8
    EQ@8..9
    LITERAL@9..11
      INT_NUMBER@9..11
    SEMICOLON@11..12
! 8 expected a type
! 9 no digits
";
    let lines = lines_of(rt.alloc(), "const _:=0x;")?;
    assert!(rt; lines.as_slice() == wanted.as_bytes());
    Ok(())
}

#[test]
fn records_of_two_entries(rt: HostRuntime) -> anyhow::Result<()> {
    let wanted = "\
NEVER_TYPE@0..1
  BANG@0..1

WILDCARD_PAT@0..1
  UNDERSCORE@0..1

";
    let records = "2015 Type\n!\u{1E}2024 Pattern\n_\u{1E}";
    let lines = lines_of_records(rt.alloc(), records)?;
    assert!(rt; lines.as_slice() == wanted.as_bytes());
    Ok(())
}

#[test]
fn records_that_are_none(rt: HostRuntime) {
    for records in [
        "2021 Type",
        "2021\n!",
        "2020 Type\n!",
        "2021 Ty\n!",
        "2021  Type\n!",
    ] {
        let lines = lines_of_records(rt.alloc(), records);
        assert!(rt; lines.is_err(), "at {records}");
    }
}
