//! What files say of a name: which tokens are it, and where they spell it otherwise.

use crate::left_names::{LeftName, named_tokens};
use command_inputs::Inputs;
use command_report::{MAX_ROWS, place_row, push_row, rest_row};
use file_target::Target;
use line_index::{Encoding, LineIndex};
use name_mentions::{Mention, MentionPlace, mentions_of};
use parser_input::LexedStr;
use rename_pairs::NamePair;
use source_tools::{Source, text_of};
use std::alloc::{AllocError, Global};
use token_names::{is_lifetime, word_of};

/// What files say of the old name of a pair.
#[derive(Drop)]
pub(crate) struct Survey {
    /// The tokens that have the name and are renamed.
    pub(crate) names: usize,
    /// How these are spelled, each spelling once.
    pub(crate) spellings: Vec<String>,
    /// The places that spell it otherwise, and the tokens that are left.
    pub(crate) left: usize,
    /// A row for each of the first of these places.
    rows: String,
}

/// Returns the row of a place.
fn row_of(
    alloc: Global,
    path: &str,
    lines: &LineIndex<'_>,
    offset: usize,
    words: &str,
) -> Result<String, AllocError> {
    let place = lines.line_col(Encoding::Utf32, offset);
    let line = place.line.saturating_add(1);
    let column = place.col.saturating_add(1);
    place_row(alloc, path, line, column, words)
}

/// Returns how other tokens spell a name: without the mark of a raw one, a lifetime with its quote.
fn spelled(alloc: Global, name: &str) -> Result<String, AllocError> {
    let word = word_of(name);
    if is_lifetime(name) {
        format!(in alloc; "'{word}")
    } else {
        String::from_str(alloc, word)
    }
}

/// Returns `true` if a place spells the name but is not the token that has it. A character is no
/// lifetime.
fn is_other(name: &str, mention: Mention) -> bool {
    match mention.place {
        MentionPlace::RawIdentifier => false,
        MentionPlace::Lifetime | MentionPlace::CharLiteral => !is_lifetime(name),
        MentionPlace::StringLiteral | MentionPlace::Comment | MentionPlace::Other => true,
    }
}

impl Survey {
    /// Returns what nothing says of a name.
    fn new(alloc: Global) -> Survey {
        Survey {
            names: 0,
            spellings: Vec::new(alloc),
            left: 0,
            rows: String::new(alloc),
        }
    }

    /// Adds a token that is renamed.
    fn add_spelling(&mut self, alloc: Global, text: &str) -> Result<(), AllocError> {
        self.names = self.names.saturating_add(1);
        for spelling in self.spellings.as_slice() {
            if spelling.as_str() == text {
                return Ok(());
            }
        }
        self.spellings.push(String::from_str(alloc, text)?)?;
        Ok(())
    }

    /// Adds a place where the name is left. Past the last row places are only counted.
    fn add_place(
        &mut self,
        alloc: Global,
        path: &str,
        lines: &LineIndex<'_>,
        offset: usize,
        words: &str,
    ) -> Result<(), AllocError> {
        if self.left < MAX_ROWS {
            let row = row_of(alloc, path, lines, offset, words)?;
            push_row(row.as_str(), self.left, &mut self.rows)?;
        }
        self.left = self.left.saturating_add(1);
        Ok(())
    }

    /// Adds the first of these tokens, as far as they are before an offset, and returns how many these
    /// are.
    fn add_left(
        &mut self,
        alloc: Global,
        path: &str,
        lines: &LineIndex<'_>,
        names: &[LeftName],
        end: usize,
    ) -> Result<usize, AllocError> {
        let mut count = 0usize;
        for name in names {
            if name.offset >= end {
                break;
            }
            self.add_place(alloc, path, lines, name.offset, name.words.as_str())?;
            count = count.saturating_add(1);
        }
        Ok(count)
    }

    /// Adds the places of a text that are left, in order: tokens, and other places that spell the name.
    fn add_places(
        &mut self,
        alloc: Global,
        source: &Source,
        text: &str,
        name: &str,
        left: &[LeftName],
    ) -> Result<(), AllocError> {
        let path = source.path.as_str();
        let lines = LineIndex::try_new(alloc, text)?;
        let word = spelled(alloc, name)?;
        let mentions = mentions_of(alloc, source.dialect.edition, text, word.as_str())?;
        let mut added = 0usize;
        for mention in mentions.others.as_slice() {
            if !is_other(name, *mention) {
                continue;
            }
            let rest = &left[added.min(left.len())..];
            let more = self.add_left(alloc, path, &lines, rest, mention.offset)?;
            added = added.saturating_add(more);
            let words = mention.words(alloc, word.as_str())?;
            self.add_place(alloc, path, &lines, mention.offset, words.as_str())?;
        }
        let rest = &left[added.min(left.len())..];
        self.add_left(alloc, path, &lines, rest, usize::MAX)?;
        Ok(())
    }

    /// Adds what a text says of the old name of a pair.
    fn add(
        &mut self,
        alloc: Global,
        source: &Source,
        text: &str,
        pair: &NamePair<'_>,
    ) -> Result<(), AllocError> {
        let tokens = LexedStr::new(alloc, source.dialect.edition, text)?;
        let found = named_tokens(alloc, &tokens, pair)?;
        for name in found.renamed.as_slice() {
            self.add_spelling(alloc, name)?;
        }
        self.add_places(alloc, source, text, pair.old, found.left.as_slice())
    }

    /// Says where the name is left, on standard error.
    pub(crate) fn report(&self, rt: &HostRuntime) -> Result<(), AllocError> {
        let rest = rest_row(rt.alloc(), self.left)?;
        let rows = self.rows.as_str();
        let _ = eprint!(rt; "{rows}{rest}");
        Ok(())
    }
}

/// Returns what the bytes of a file say of the old name of each pair; if they are no text, nothing.
pub(crate) fn survey_bytes(
    rt: &HostRuntime,
    source: &Source,
    bytes: &[u8],
    pairs: &[NamePair<'_>],
) -> Result<Vec<Survey>, AllocError> {
    let alloc: Global = rt.alloc();
    let mut surveys = Vec::new(alloc);
    for pair in pairs {
        let mut survey = Survey::new(alloc);
        if let Some(text) = text_of(bytes) {
            survey.add(alloc, source, text, pair)?;
        }
        surveys.push(survey)?;
    }
    Ok(surveys)
}

/// Returns what the files say of the old name of each pair as they are now. A file that cannot be read says nothing.
pub(crate) fn survey_files(
    rt: &HostRuntime,
    sources: &[Source],
    pairs: &[NamePair<'_>],
) -> Result<Vec<Survey>, AllocError> {
    let alloc: Global = rt.alloc();
    let mut surveys = Vec::new(alloc);
    for _pair in pairs {
        surveys.push(Survey::new(alloc))?;
    }
    for source in sources {
        let Ok(contents) = Inputs::new(rt).read(alloc, source.path.as_str()) else {
            continue;
        };
        let Some(text) = text_of(contents.bytes.as_slice()) else {
            continue;
        };
        for (survey, pair) in surveys.iter_mut().zip(pairs) {
            survey.add(alloc, source, text, pair)?;
        }
    }
    Ok(surveys)
}
