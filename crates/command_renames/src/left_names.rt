//! Names that a renaming leaves, since they belong to macro definitions.

use parser_input::{LexedStr, SyntaxKind};
use rename_pairs::NamePair;
use std::alloc::{AllocError, Global};
use token_names::{has_name, is_macro_name};

/// A token that has the old name of a pair and is left.
#[derive(Drop)]
pub(crate) struct LeftName {
    /// The offset of the token in bytes.
    pub(crate) offset: usize,
    /// What it is.
    pub(crate) words: String,
}

/// The kinds of the tokens before one, the nearest first, without trivia and only from its own brackets
/// on: what is in brackets before it counts as one token tree.
#[derive(Clone, Copy)]
struct Before([SyntaxKind; 3]);

impl Before {
    /// Returns the kinds behind one more token.
    fn with(self, kind: SyntaxKind) -> Before {
        if kind.is_trivia() {
            return self;
        }
        if kind.is_l_delimiter() {
            return Before([kind, SyntaxKind::EOF, SyntaxKind::EOF]);
        }
        if kind.is_r_delimiter() {
            return Before([SyntaxKind::TOKEN_TREE, SyntaxKind::EOF, SyntaxKind::EOF]);
        }
        let [nearest, second, _] = self.0;
        Before([kind, nearest, second])
    }

    /// Returns `true` directly behind a `$`.
    fn is_dollar(self) -> bool {
        let [nearest, _, _] = self.0;
        matches!(nearest, SyntaxKind::DOLLAR)
    }
}

/// Returns what a token is that a renaming leaves: a metavariable, a fragment specifier, or what would
/// become one; `None` if it is renamed.
fn words_for(
    alloc: Global,
    text: &str,
    new: &str,
    before: Before,
) -> Result<Option<String>, AllocError> {
    let kinds = before.0;
    if before.is_dollar() {
        return Ok(Some(format!(in alloc; "${text}")?));
    }
    if is_macro_name(text, kinds.as_slice()) {
        return Ok(Some(format!(in alloc; "{text} as a fragment specifier")?));
    }
    if is_macro_name(new, kinds.as_slice()) {
        let words = format!(in alloc; "{text} where {new} would be a fragment specifier")?;
        return Ok(Some(words));
    }
    Ok(None)
}

/// The tokens of a text that have the old name of a pair.
#[derive(Drop)]
pub(crate) struct NamedTokens<'a> {
    /// The texts of those that are renamed.
    pub(crate) renamed: Vec<&'a str>,
    /// Those that are left, in order.
    pub(crate) left: Vec<LeftName>,
}

/// Returns the tokens that have the old name of a pair.
pub(crate) fn named_tokens<'a>(
    alloc: Global,
    tokens: &'a LexedStr<'a>,
    pair: &NamePair<'_>,
) -> Result<NamedTokens<'a>, AllocError> {
    let mut renamed = Vec::new(alloc);
    let mut left = Vec::new(alloc);
    let mut before = Before([SyntaxKind::EOF, SyntaxKind::EOF, SyntaxKind::EOF]);
    for i in 0..tokens.len() {
        let (kind, text) = (tokens.kind(i), tokens.text(i));
        if has_name(alloc, pair.old, kind, text)? {
            match words_for(alloc, text, pair.new, before)? {
                None => renamed.push(text)?,
                Some(words) => {
                    let offset = tokens.text_start(i);
                    left.push(LeftName { offset, words })?;
                }
            }
        }
        before = before.with(kind);
    }
    Ok(NamedTokens { renamed, left })
}
