//! Opens a text of short structs and does one kind of work on all of them, once: calls of the
//! library that no request makes. Prints the number of results and the number of bytes of the text.
//!
//! The arguments are the number of structs and then works, each done on a text that is opened for
//! it. [`Work`] lists them. Nothing is timed here: the time of a work is what its run takes more than
//! a run that only opens the text (`bench/edits.py`).
#![tactic(auto)]

use anyhow::Context;
use rust_document::{Document, Edition, TreeIds};
use std::alloc::{AllocError, Global};
use std::env;

mod changes;
mod slices;

/// What is done once the text is open.
#[derive(Clone, Copy)]
enum Work {
    /// Nothing.
    Open,
    /// Each struct is annotated, and the editor is finished.
    Annotations,
    /// Each struct is annotated, and the editor is committed.
    CommittedAnnotations,
    /// Each struct is replaced by a module that holds it, and gets another name; a commit.
    Wraps,
    /// Each struct gets another name by an editor of its own; all are merged and committed.
    Merges,
    /// Each child of the root is compared, as a slice of the root's text.
    Slices,
}

impl Work {
    /// Returns the work with this name.
    fn named(name: &str) -> Option<Work> {
        match name {
            "open" => Some(Work::Open),
            "annotations" => Some(Work::Annotations),
            "committed_annotations" => Some(Work::CommittedAnnotations),
            "wraps" => Some(Work::Wraps),
            "merges" => Some(Work::Merges),
            "slices" => Some(Work::Slices),
            _ => None,
        }
    }

    /// Does the work, and returns the number of its results.
    fn results(
        self,
        alloc: Global,
        document: &mut Document,
        ids: &mut TreeIds,
    ) -> anyhow::Result<usize> {
        match self {
            Work::Open => Ok(0),
            Work::Annotations => changes::finish_annotations(alloc, document, ids),
            Work::CommittedAnnotations => changes::commit_annotations(alloc, document, ids),
            Work::Wraps => changes::commit_wraps(alloc, document, ids),
            Work::Merges => changes::commit_merges(alloc, document, ids),
            Work::Slices => slices::equal(alloc, document),
        }
    }
}

/// Returns a text of `count` structs.
fn structs(alloc: Global, count: usize) -> Result<String, AllocError> {
    let mut text = String::new(alloc);
    for _ in 0..count {
        text.push_str("struct S;\n")?;
    }
    Ok(text)
}

/// Opens a text of `count` structs, does the work, and prints its number of results.
fn run(rt: &HostRuntime, count: usize, work: Work) -> anyhow::Result<()> {
    let alloc = rt.alloc();
    let mut ids = TreeIds::new();
    let text = structs(alloc, count)?;
    let mut document = Document::open(alloc, Edition::Edition2021, text.as_str(), &mut ids)?;
    let results = work.results(alloc, &mut document, &mut ids)?;
    println!(rt; "{results} {}", document.text().len())?;
    Ok(())
}

fn main(rt: HostRuntime) -> anyhow::Result<()> {
    let mut words = env::args(&rt)?;
    let _program = words.next();
    let count = words.next().context("the number of structs is missing")?;
    let count = count.as_str().parse::<usize>()?;
    for word in words {
        let work = Work::named(word.as_str()).context("no work has this name")?;
        run(&rt, count, work)?;
    }
    Ok(())
}
