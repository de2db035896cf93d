//! A text is opened, and identifiers or lifetimes are renamed in it.
use parser_input::edition::Edition;
use renamer::{RenameError, rename, rename_but_macro_names};
use rust_document::{CommitError, Document, Grammar};
use std::alloc::Global;
use std::test::Fail;
use syntax_tree::TreeIds;

#[test]
fn a_keyword_and_a_name(rt: HostRuntime) -> Result<(), Fail> {
    let alloc = rt.alloc();
    let mut ids = TreeIds::new();
    let text = "struct S;\n\nfn f(s: S) -> S { s }\n";
    let mut document = Document::open(alloc, Edition::Edition2021, text, &mut ids)?;
    let refused = rename(alloc, &mut document, "S", "struct", &mut ids);
    let is_kept = document.text() == text;
    let renamed = rename(alloc, &mut document, "S", "Point", &mut ids);
    let is_right = document.text() == "struct Point;\n\nfn f(s: Point) -> Point { s }\n";
    drop(document);
    assert!(rt;
        (refused == Err(RenameError::Refused(CommitError::Unfaithful)))
            & is_kept
            & renamed.is_ok()
            & is_right
    );
    Ok(())
}

#[test]
fn a_macro_call_and_a_comment(rt: HostRuntime) -> Result<(), Fail> {
    let alloc = rt.alloc();
    let mut ids = TreeIds::new();
    let text = "fn a() { a!(a, r#a) } // a";
    let mut document = Document::open(alloc, Edition::Edition2021, text, &mut ids)?;
    let renamed = rename(alloc, &mut document, "a", "b", &mut ids);
    let is_right = document.text() == "fn b() { b!(b, r#a) } // a";
    drop(document);
    assert!(rt; renamed.is_ok() & is_right);
    Ok(())
}

/// Returns a text of the edition 2021, read by the whole language, after a renaming that leaves macro names.
fn without_macro_names(alloc: Global, text: &str, old: &str, new: &str) -> Result<String, Fail> {
    let mut ids = TreeIds::new();
    let edition = Edition::Edition2021;
    let mut document = Document::open_by(alloc, edition, Grammar::Whole, text, &mut ids)?;
    rename_but_macro_names(alloc, &mut document, old, new, &mut ids)?;
    Ok(String::from_str(alloc, document.text())?)
}

#[test]
fn metavariables_and_fragment_specifiers_stay(rt: HostRuntime) -> Result<(), Fail> {
    let alloc: Global = rt.alloc();
    let text = "macro_rules! m { ($x:expr, $ /* x */ y : expr) => { x::expr($x, expr) }; }";
    let new = without_macro_names(alloc, text, "expr", "e")?;
    let wanted = "macro_rules! m { ($x:expr, $ /* x */ y : expr) => { x::e($x, e) }; }";
    assert!(rt; new.as_str() == wanted);
    let new = without_macro_names(alloc, text, "x", "z")?;
    let wanted = "macro_rules! m { ($x:expr, $ /* x */ y : expr) => { z::expr($x, expr) }; }";
    assert!(rt; new.as_str() == wanted);
    let new = without_macro_names(alloc, text, "y", "z")?;
    assert!(rt; new.as_str() == text);
    Ok(())
}

#[test]
fn no_fragment_specifier_is_made(rt: HostRuntime) -> Result<(), Fail> {
    let alloc: Global = rt.alloc();
    let text = "macro_rules! m { ($x:ident) => { let $x: u = u; $(u)* } }";
    let new = without_macro_names(alloc, text, "u", "ty")?;
    let wanted = "macro_rules! m { ($x:ident) => { let $x: u = ty; $(ty)* } }";
    assert!(rt; new.as_str() == wanted);
    let new = without_macro_names(alloc, text, "u", "v")?;
    let wanted = "macro_rules! m { ($x:ident) => { let $x: v = v; $(v)* } }";
    assert!(rt; new.as_str() == wanted);
    Ok(())
}

#[test]
fn lifetimes_and_labels_are_renamed(rt: HostRuntime) -> Result<(), Fail> {
    let alloc: Global = rt.alloc();
    let text = "fn f<'a>(a: &'a u8) -> char { 'a: loop { break 'a } 'a' }";
    let new = without_macro_names(alloc, text, "'a", "'b")?;
    let wanted = "fn f<'b>(a: &'b u8) -> char { 'b: loop { break 'b } 'a' }";
    assert!(rt; new.as_str() == wanted);
    let new = without_macro_names(alloc, text, "a", "b")?;
    let wanted = "fn f<'a>(b: &'a u8) -> char { 'a: loop { break 'a } 'a' }";
    assert!(rt; new.as_str() == wanted);
    Ok(())
}
