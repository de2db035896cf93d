//! Words that each match of a pattern has.

use memchr::memmem;
use std::alloc::{AllocError, Global};
use tree_patterns::leaves::leaves_of;
use tree_patterns::{Pattern, Place};

/// Tokens of fewer bytes are in nearly each text.
const FEWEST_BYTES: usize = 2;

/// Returns `false` if the bytes of a text lack a token of a pattern: then the text has no match, since each token of the
/// pattern is one of the match.
pub fn may_match(alloc: Global, pattern: &Pattern, text: &[u8]) -> Result<bool, AllocError> {
    for leaf in leaves_of(alloc, &pattern.tree().as_ref())? {
        if Place::from_raw(leaf.kind().0).is_some() {
            continue;
        }
        let word = leaf.text().as_bytes();
        if word.len() >= FEWEST_BYTES && memmem::find(text, word).is_none() {
            return Ok(false);
        }
    }
    Ok(true)
}
