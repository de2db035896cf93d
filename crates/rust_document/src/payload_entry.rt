//! New elements that are parsed from texts.
ghost use Rattle.std.specs.Prelude.{◌≡◌, ◌+◌, ◌<◌, ◌^◌, ℕ, nat_lt, chars, length, IfOk, IfErr, OnOk};
ghost use Rattle.syntax_tree.specs.Handle.{element_of};
ghost use Rattle.ra_parser.specs.Entries.{production_of};
ghost use Rattle.rust_document.specs.Payload.{entry_payload, lexer_messages, payload_in, payload_of, token_payload, One, Whole, IsDetached, RefusesPayload};
ghost use Rattle.rust_document.specs.Seen.{seen};

use crate::document::MAX_TEXT;
use crate::error::PayloadError;
use crate::leaf::Leaf;
use crate::read::read;
use parser_input::edition::Edition;
use parser_input::lexed_str::LexedStr;
use ra_parser::{Grammar, TopEntryPoint};
use rowan_green::GreenNode;
use std::alloc::{AllocError, Global};
use syntax_tree::elements::token;
use syntax_tree::{SyntaxElement, SyntaxNode, SyntaxToken, TreeIds};

/// What a text is to be read as.
#[derive(Clone, Copy, Debug, PartialEq, Eq)]
pub enum PayloadEntry {
    /// What an entry of the parser reads: the tree's root is given.
    Top(TopEntryPoint),
    /// One token.
    Token,
}

/// A text with what it is read by.
#[derive(Clone, Copy)]
pub(crate) struct PayloadText<'a> {
    pub grammar: Grammar,
    pub edition: Edition,
    pub text: &'a str,
}

/// Parses `text` as a new element for an editor, by the profile: the tree of an entry, or a token
/// as the only child of a new root. The new tree has the next number of `ids`. In a token no
/// shebang and no frontmatter is read.
///
/// # Errors
///
/// - [`PayloadError::TooLong`] if `text` has more than [`MAX_TEXT`] bytes.
/// - [`PayloadError::Message`] if the lexer or the parser has a message about `text`.
/// - [`PayloadError::NotOneToken`] if `entry` is a token and `text` is not one.
/// - [`PayloadError::NoTreeNumber`] if no tree number is left.
/// - [`PayloadError::NoMemory`] if an allocation fails.
///
/// On error, `ids` is unchanged.
pub fn payload(
    alloc: Global,
    entry: PayloadEntry,
    edition: Edition,
    text: &str,
    ids: &mut TreeIds,
) -> Result<SyntaxElement, PayloadError>
    ensures given { IfOk result
        (λ e. IsDetached ids.old (payload_of entry edition text.now) (element_of e)) }
    ensures number { OnOk result (ids.new ≡ ids.old + 1) }
    ensures refused { IfErr result (RefusesPayload ids.old (payload_of entry edition text.now)) }
    ensures kept { IfErr result (λ _. ids.new ≡ ids.old) }
{
    let text = PayloadText {
        grammar: Grammar::Profile,
        edition,
        text,
    };
    payload_by(alloc, entry, text, ids)
}

/// Parses `text` as a new element for an editor, as [`payload`] does, by its own grammar.
///
/// # Errors
///
/// As of [`payload`].
pub(crate) fn payload_by(
    alloc: Global,
    entry: PayloadEntry,
    text: PayloadText<'_>,
    ids: &mut TreeIds,
) -> Result<SyntaxElement, PayloadError>
    ensures given { IfOk result (λ e. IsDetached ids.old
        (payload_in entry text.entry.grammar text.entry.edition text.entry.text.now)
        (element_of e)) }
    ensures number { OnOk result (ids.new ≡ ids.old + 1) }
    ensures refused { IfErr result (RefusesPayload ids.old
        (payload_in entry text.entry.grammar text.entry.edition text.entry.text.now)) }
    ensures kept { IfErr result (λ _. ids.new ≡ ids.old) }
{
    match entry {
        PayloadEntry::Top(top) => {
            let root = whole_tree(alloc, top, text)?;
            let node = SyntaxNode::new_root(alloc, root, ids)?;
            Ok(SyntaxElement::Node(node))
        }
        PayloadEntry::Token => {
            let leaf = only_leaf(alloc, text.edition, text.text)?;
            let green = token(alloc, leaf.kind, leaf.text)?;
            let token = SyntaxToken::detached(alloc, green, ids)?;
            Ok(SyntaxElement::Token(token))
        }
    }
}

/// The tree of a text that an entry reads without a message.
fn whole_tree(
    alloc: Global,
    top: TopEntryPoint,
    text: PayloadText<'_>,
) -> Result<GreenNode, PayloadError>
    ensures given { IfOk result (λ t. entry_payload (production_of top)
        text.entry.grammar text.entry.edition text.entry.text.now ≡ Whole t) }
    ensures refused { IfErr result (λ e. (number : ℕ)
        → RefusesPayload number (entry_payload (production_of top)
        text.entry.grammar text.entry.edition text.entry.text.now) e) }
{
    let PayloadText {
        grammar,
        edition,
        text,
    } = text;
    if text.len() > MAX_TEXT {
        return Err(PayloadError::TooLong);
    }
    let reading = read(alloc, top, grammar, edition, text)?;
    if reading.errors.len() > 0 {
        return Err(PayloadError::Message);
    }
    Ok(reading.root)
}

/// Whether the lexer has a message about a text. No shebang and no frontmatter is read.
fn has_messages(alloc: Global, edition: Edition, text: &str) -> Result<bool, AllocError>
    ensures { IfOk result (λ b. b ≡ nat_lt 0 (length (lexer_messages edition (chars text.now)))) }
{
    // What follows a `;` is no first line.
    let content = format!(in alloc; ";{text}")?;
    let lexed = LexedStr::new(alloc, edition, content.as_str())?;
    Ok(lexed.errors().next().is_some())
}

/// The leaf that a text is.
fn only_leaf<'a>(alloc: Global, edition: Edition, text: &'a str) -> Result<Leaf<'a>, PayloadError>
    ensures given { IfOk result (λ l. token_payload edition text.now ≡ One (seen l)) }
    ensures fits { IfOk result (λ l. length l.text.now < 2 ^ 32) }
    ensures refused { IfErr result (λ e. (number : ℕ)
        → RefusesPayload number (token_payload edition text.now) e) }
{
    if text.len() > MAX_TEXT {
        return Err(PayloadError::TooLong);
    }
    match LexedStr::single_token(edition, text) {
        Some((kind, None)) => Ok(Leaf { kind, text }),
        Some((_, Some(_))) => Err(PayloadError::Message),
        None => {
            if has_messages(alloc, edition, text)? {
                return Err(PayloadError::Message);
            }
            Err(PayloadError::NotOneToken)
        }
    }
}
