//! What a renaming renames: pairs of names, and the identifiers that are spelled as one.

use anyhow::{Result, anyhow};
use clap::ArgMatches;
use command_inputs::{Inputs, usage_error};
use command_report::Outcome;
use file_target::Target;
use rename_pairs::{NamePair, is_wrong, leading_pairs, pair_of};
use source_tools::text_of;
use std::alloc::{AllocError, Global};
use token_names::{is_given, is_lifetime};

/// The pairs of names that are renamed, and the paths of the files.
#[derive(Drop)]
pub(crate) struct Names<'a> {
    pub(crate) pairs: Vec<NamePair<'a>>,
    pub(crate) paths: &'a [&'a str],
}

/// Returns the text of the file of pairs; empty if none is given.
pub(crate) fn pairs_text(rt: &HostRuntime, matches: &ArgMatches<'_>) -> Result<String> {
    let alloc: Global = rt.alloc();
    let Some(path) = matches.get_str("pairs") else {
        return Ok(String::new(alloc));
    };
    let contents = match Inputs::new(rt).read(alloc, path) {
        Ok(contents) => contents,
        Err(error) => return Err(anyhow!("{path}: {error}")),
    };
    match text_of(contents.bytes.as_slice()) {
        Some(text) => Ok(String::from_str(alloc, text)?),
        None => Err(anyhow!("{path}: is not UTF-8")),
    }
}

/// Adds the pairs of the lines of a text, or returns the number of the first line that is none.
fn add_lines<'a>(
    text: &'a str,
    pairs: &mut Vec<NamePair<'a>>,
) -> Result<Option<usize>, AllocError> {
    for (index, line) in text.lines().enumerate() {
        let line = line.trim();
        if line.is_empty() || line.starts_with('#') {
            continue;
        }
        match pair_of(line) {
            Some(pair) => pairs.push(pair)?,
            None => return Ok(Some(index.saturating_add(1))),
        }
    }
    Ok(None)
}

/// Returns the words from an index on, as far as there are any.
fn words_from<'a>(words: &'a [&'a str], index: usize) -> &'a [&'a str] {
    let index = index.min(words.len());
    &words[index..]
}

/// Adds the pairs that words begin with, or if there is no pair and no file of pairs the first two words,
/// and returns the words after them.
fn add_words<'a>(
    words: &'a [&'a str],
    has_file: bool,
    pairs: &mut Vec<NamePair<'a>>,
) -> Result<&'a [&'a str], AllocError> {
    let count = leading_pairs(words);
    for word in words.iter().take(count) {
        if let Some(pair) = pair_of(word) {
            pairs.push(pair)?;
        }
    }
    if has_file || !pairs.is_empty() {
        return Ok(words_from(words, count));
    }
    match words {
        [old, new, rest @ ..] => {
            pairs.push(NamePair { old, new })?;
            Ok(rest)
        }
        _ => Ok(words_from(words, words.len())),
    }
}

/// Returns why pairs cannot be renamed together, if they cannot.
fn fault_of(alloc: Global, pairs: &[NamePair<'_>]) -> Result<Option<String>, AllocError> {
    for (index, pair) in pairs.iter().enumerate() {
        let (old, new) = (pair.old, pair.new);
        if is_lifetime(old) != is_lifetime(new) {
            let words = format!(in alloc;
                "`{old}` to `{new}`: both names are identifiers, or both begin with a quote, as lifetimes and labels do"
            )?;
            return Ok(Some(words));
        }
        for name in [old, new] {
            if !is_given(name) {
                let words = format!(in alloc; "`{name}` is no name that a program can give")?;
                return Ok(Some(words));
            }
        }
        if is_wrong(pairs, index) {
            let words = format!(in alloc;
                "`{old}` to `{new}`: an old name is not empty, is given once, and is no new name"
            )?;
            return Ok(Some(words));
        }
    }
    Ok(None)
}

/// Returns what the words of a command line and the text of its file of pairs name, or says what is wrong
/// with them.
pub(crate) fn names_of<'a>(
    rt: &HostRuntime,
    words: &'a [&'a str],
    file: Option<&str>,
    text: &'a str,
) -> Result<Result<Names<'a>, Outcome>> {
    let mut pairs = Vec::new(rt.alloc());
    if let Some(line) = add_lines(text, &mut pairs)? {
        let path = file.unwrap_or("");
        return Err(anyhow!("{path}:{line}: is no pair OLD=NEW"));
    }
    let paths = add_words(words, file.is_some(), &mut pairs)?;
    if let Some(words) = fault_of(rt.alloc(), pairs.as_slice())? {
        return Ok(Err(usage_error(rt, words.as_str())));
    }
    if pairs.is_empty() || paths.is_empty() {
        return Ok(Err(usage_error(rt, "OLD, NEW and a FILE are wanted, or OLD=NEW and a FILE")));
    }
    Ok(Ok(Names { pairs, paths }))
}
