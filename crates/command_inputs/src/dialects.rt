//! The Rust that the files of a command are read as.

use crate::editions::Editions;
use clap::ArgMatches;
use parser_input::Edition;
use rust_document::Grammar;
use source_tools::Dialect;
use std::alloc::AllocError;

/// The Rust that the files of a command are read as.
#[derive(Drop)]
pub struct Dialects<'a> {
    /// The edition of all files, if the command line names one.
    edition: Option<Edition>,
    /// The grammar of all files.
    pub grammar: Grammar,
    editions: Editions<'a>,
}

impl<'a> Dialects<'a> {
    /// Returns what a command line says.
    pub fn new(rt: &'a HostRuntime, matches: &ArgMatches<'_>) -> Dialects<'a> {
        Dialects {
            edition: matches.get_str("edition").and_then(Edition::from_name),
            grammar: match matches.get_str("grammar") {
                Some("profile") => Grammar::Profile,
                _ => Grammar::Whole,
            },
            editions: Editions::new(rt),
        }
    }

    /// Returns the Rust that the file at `path` is read as.
    ///
    /// # Errors
    ///
    /// [`AllocError`] if an allocation fails.
    pub fn dialect(&mut self, path: &str) -> Result<Dialect, AllocError> {
        Ok(Dialect {
            edition: match self.edition {
                Some(edition) => edition,
                None => self.editions.edition_of(path)?,
            },
            grammar: self.grammar,
        })
    }
}
