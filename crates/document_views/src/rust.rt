//! Rust as the language of a session.

use crate::listing::diagnostics;
use language_session::Language;
use rust_source::{Edition, OpenError, Source};
use session_words::{Diagnostic, Facts};
use std::alloc::{AllocError, Global};

/// Rust, read by the grammar of the whole language.
#[derive(Clone, Copy, Drop)]
pub struct Rust {
    /// The edition of texts if the client asks for none.
    pub edition: Edition,
}

impl Language for Rust {
    ghost use Rattle.document_views.specs.Listings.{listing};

    ghost messages = { λ rust. listing rust.edition };

    fn messages(
        &self,
        alloc: Global,
        facts: &Facts,
        text: &str,
    ) -> Result<Vec<Diagnostic>, AllocError> {
        let edition = facts.edition.unwrap_or(self.edition);
        match Source::open(alloc, edition, text) {
            Ok(source) => diagnostics(alloc, facts.encoding, &source),
            Err(OpenError::NoMemory) => Err(AllocError),
            Err(OpenError::TooLong | OpenError::NoTreeNumber) => unreachable!(),
        }
    }
}
