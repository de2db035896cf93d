//! Calls each export once.
use document_rows::{ElementRow, MessageRow, RangeRow, TokenRow};
use kept_document::Handle;
use std::io;

const TEXT: &[u8] = b"fn f() { 1 + ; }";

const COMMIT: &[u8] = b"[{\"do\":\"commit\",\"changes\":[]}]";

/// Writes the codes that the exports return, a call after another.
pub fn codes(rt: HostRuntime) -> io::Result<()> {
    let alloc = rt.alloc();
    let (mut status, mut n, mut m) = (0u8, 0usize, 0usize);
    let mut out = [0u8; 256];
    let mut tokens = [TokenRow {
        kind: 0,
        start: 0,
        end: 0,
    }; 40];
    let mut elements = [ElementRow {
        kind: 0,
        depth: 0,
        start: 0,
        end: 0,
    }; 40];
    let mut messages = [MessageRow {
        offset: 0,
        words_start: 0,
        words_end: 0,
    }; 4];
    let mut ranges = [RangeRow { start: 0, end: 0 }; 4];
    let mut handle = Handle::closed(alloc);
    let run = crate::tevondimby_run(alloc, b"{}", &mut out, &mut n, &mut status);
    println!(rt; "run {run}, status {status}")?;
    let check = crate::tevondimby_check(alloc, TEXT, 2021, 0, &mut n);
    println!(rt; "check {check}, messages {n}")?;
    let name = crate::tevondimby_kind_name(3, &mut out, &mut n);
    let open = crate::tevondimby_open(alloc, &mut handle, TEXT, 2021, 0);
    let edit = crate::tevondimby_edit(alloc, &mut handle, 13, 13, b"2");
    println!(rt; "kind_name {name}, open {open}, edit {edit}")?;
    let text = crate::tevondimby_text(alloc, &mut handle, &mut out, &mut n);
    let of_tokens = crate::tevondimby_tokens(alloc, &mut handle, &mut tokens, &mut n);
    let tree = crate::tevondimby_tree(alloc, &mut handle, &mut elements, &mut n);
    println!(rt; "text {text}, tokens {of_tokens}, tree {tree}")?;
    let errors = crate::tevondimby_errors(
        alloc,
        &mut handle,
        &mut messages,
        &mut n,
        &mut out,
        &mut m,
    );
    let commit = crate::tevondimby_commit(alloc, &mut handle, COMMIT);
    let changed = crate::tevondimby_changed(alloc, &mut handle, &mut ranges, &mut n);
    println!(rt; "errors {errors}, commit {commit}, changed {changed}")?;
    let rename = crate::tevondimby_rename(alloc, &mut handle, b"f", b"g");
    let free = crate::tevondimby_free(alloc, &mut handle);
    let again = crate::tevondimby_free(alloc, &mut handle);
    println!(rt; "rename {rename}, free {free}, again {again}")?;
    Ok(())
}
