//! The files that are renamed in and rewritten, and what is in them.
use anyhow::bail;
use file_target::{Memory, Target};
use parser_input::Edition;
use rust_document::Grammar;
use source_tools::{Dialect, Source};
use std::alloc::{AllocError, Global};

/// The files: path, bytes, bytes afterwards. The second file stays as it is.
pub(crate) const FILES: [(&str, &str, &str); 3] = [
    ("a.rs", "fn old() {}", "fn new() {}"),
    ("b.rs", "fn other() {}", "fn other() {}"),
    ("c.rs", "mod old;", "mod new;"),
];

/// How the files are read.
pub(crate) const DIALECT: Dialect = Dialect {
    edition: Edition::Edition2021,
    grammar: Grammar::Whole,
};

/// Returns a source.
pub(crate) fn source(alloc: Global, path: &str) -> Result<Source, AllocError> {
    Ok(Source {
        path: String::from_str(alloc, path)?,
        dialect: DIALECT,
    })
}

/// Returns the files' sources.
pub(crate) fn sources(alloc: Global) -> Result<Vec<Source>, AllocError> {
    let mut sources = Vec::new(alloc);
    for (path, _, _) in FILES {
        sources.push(source(alloc, path)?)?;
    }
    Ok(sources)
}

/// Returns the files in memory.
pub(crate) fn memory(alloc: Global) -> Result<Memory, AllocError> {
    let mut memory = Memory::new(alloc);
    for (path, old, _) in FILES {
        memory.add(alloc, path, old.as_bytes())?;
    }
    Ok(memory)
}

/// Returns how many of the two files that change are written.
///
/// # Errors
///
/// A file has neither its old bytes nor the new ones, or a later file is written and an earlier one is
/// not; or a read fails.
pub(crate) fn written(alloc: Global, memory: &Memory) -> anyhow::Result<u32> {
    let mut count = 0u32;
    let mut is_over = false;
    for (path, old, new) in FILES {
        let bytes = memory.read(alloc, path)?.bytes;
        if bytes.as_slice() == old.as_bytes() {
            is_over |= old != new;
        } else if bytes.as_slice() != new.as_bytes() || is_over {
            bail!("{path} has other bytes");
        } else {
            count = count.saturating_add(1);
        }
    }
    Ok(count)
}
