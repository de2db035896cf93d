//! The leaves of a text.

ghost use Rattle.std.specs.Prelude.{◌≡◌, ◌≢◌, true, false, ℕ, List, drop, ◌<◌, ◌≤◌, ◌+◌, ◌==◌, length, chars, [], IfOk, OnOk, map, option_map, slice_range};
ghost use Rattle.std.specs.List.{All, flat_map};
ghost use Rattle.parser_input.specs.Preface.{source};
ghost use Rattle.rustc_lexer.specs.Characters.{size};
ghost use Rattle.rustc_lexer.specs.Tokens as lexer;
ghost use Rattle.parser_input.specs.Kind.{raw_of};
ghost use Rattle.parser_input.specs.Input.{input, is_before_angle, touches};
ghost use Rattle.parser_input.specs.Kinds.{EOF};
ghost use Rattle.parser_input.specs.Lexed.{content, is_split, leaves_of};
ghost use Rattle.parser_input.specs.Faults.{faults};
ghost use Rattle.parser_input.specs.Messages.{wording};
ghost use Rattle.parser_input.specs.Single.{read, single, kind_and_message};
ghost use Rattle.parser_input.specs.Stored.{AreSpans, Begun, Found, Opened, bytes_of, frontmatter_end, leaf_at, leaf_next, offset, seen_from, whole_of};

use crate::edition::Edition;
use crate::errors::Errors;
use crate::frontmatter::ScriptSource;
use crate::input::Input;
use crate::leaves::{kind_of, message_of};
use crate::message::Message;
use crate::parser_token::{contextual_kind, is_joint};
use crate::syntax_kind::SyntaxKind;
use rustc_lexer::{Cursor, Token, TokenKind, strip_shebang};
use std::alloc::{AllocError, Global};
use std::marker::Model;
use std::ops::Range;

/// A stored leaf. It starts at the end of the previous leaf.
#[derive(Clone, Copy)]
pub(crate) struct StoredLeaf {
    kind: SyntaxKind,
    pub(crate) message: Option<Message>,
    /// The offset of its end, in bytes.
    end: usize,
}

// Returns `true` if the token is a guarded prefix that is split: before edition 2024, its first `#`
// is a leaf by itself.
#[tactic(auto, unfolding(crate::specs::Lexed::is_split))]
fn is_split(edition: Edition, kind: TokenKind) -> bool
    ensures { result ≡ is_split edition kind }
{
    match kind {
        TokenKind::GuardedStrPrefix => !edition.is_from(Edition::Edition2024),
        _ => false,
    }
}

// Returns the text of an optional error message.
fn words(message: Option<Message>) -> Option<&'static str>
    ensures { option_map bytes_of result ≡ option_map wording message }
{
    match message {
        Some(message) => Some(message.text()),
        None => None,
    }
}

// The leaf at the front of a text, with its length in bytes.
#[derive(Drop)]
struct NextLeaf {
    kind: SyntaxKind,
    message: Option<Message>,
    len: usize,
}

// Returns the leaf of `token`, the first token of `rest`, which is not split.
fn leaf_of(edition: Edition, token: Token, rest: &str) -> NextLeaf
    requires token { token ≡ lexer.token (lexer.first_lexeme (chars rest.now)) }
    requires whole { is_split edition token.kind ≡ false }
    ensures kind { raw_of result.kind ≡ (leaf_next edition (chars rest.now)).leaf.kind }
    ensures message { result.message ≡ (leaf_next edition (chars rest.now)).message }
    ensures len { result.len ≡ size (leaf_next edition (chars rest.now)).leaf.text }
{
    let text = &rest[..token.len];
    NextLeaf {
        kind: kind_of(edition, token.kind, text),
        message: message_of(edition, token.kind, text),
        len: token.len,
    }
}

fn next_leaf(edition: Edition, rest: &str) -> NextLeaf
    requires { 0 < length rest.now }
    ensures kind { raw_of result.kind ≡ (leaf_next edition (chars rest.now)).leaf.kind }
    ensures message { result.message ≡ (leaf_next edition (chars rest.now)).message }
    ensures len { result.len ≡ size (leaf_next edition (chars rest.now)).leaf.text }
{
    let token = Cursor::new(rest).advance_token();
    if is_split(edition, token.kind) {
        return NextLeaf {
            kind: SyntaxKind::POUND,
            message: None,
            len: Cursor::new(rest).first().len_utf8(),
        };
    }
    leaf_of(edition, token, rest)
}

// Appends the leaves of `text` from the offset `start` on.
fn push_content(
    edition: Edition,
    text: &str,
    start: usize,
    leaves: &mut Vec<StoredLeaf>,
) -> Result<(), AllocError>
    requires { Found edition text.now start leaves.old.items }
    ensures { OnOk result (Found edition text.now (length text.now) leaves.new.items) }
{
    let mut place = start;
    'leaves: while place < text.len() {
        let next = next_leaf(edition, &text[place..]);
        place += next.len;
        let leaf = StoredLeaf {
            kind: next.kind,
            message: next.message,
            end: place,
        };
        leaves.push(leaf)?;
    }
    Ok(())
}

// Appends the leaves of `text` from the offset `start` on, whose tokens are `tokens`.
fn push_tokens(
    edition: Edition,
    text: &str,
    start: usize,
    tokens: &[Token],
    leaves: &mut Vec<StoredLeaf>,
) -> Result<(), AllocError>
    requires found { Found edition text.now start leaves.old.items }
    requires tokens { tokens.now ≡ lexer.token_list (chars (drop start text.now)) }
    requires whole { All (λ t. is_split edition t.kind ≡ false) tokens.now }
    ensures { OnOk result (Found edition text.now (length text.now) leaves.new.items) }
{
    let mut place = start;
    for i in 0..tokens.len() {
        let next = leaf_of(edition, tokens[i], &text[place..]);
        place += next.len;
        let leaf = StoredLeaf {
            kind: next.kind,
            message: next.message,
            end: place,
        };
        leaves.push(leaf)?;
    }
    Ok(())
}

// Returns the offset of the end of the frontmatter, in bytes; `None` if `text` has no valid one.
fn frontmatter_end(text: &str) -> Option<usize>
    ensures { result ≡ frontmatter_end (source (chars text.now)) }
{
    match ScriptSource::parse(text) {
        Ok(source) => source.frontmatter_end(),
        Err(_) => None,
    }
}

// Appends the shebang of `text`, if any. Returns the offset of its end, in bytes.
fn push_shebang(text: &str, leaves: &mut Vec<StoredLeaf>) -> Result<usize, AllocError>
    requires { leaves.old.items ≡ [] }
    ensures { IfOk result (λ place. Begun text.now place leaves.new.items) }
{
    match strip_shebang(text) {
        Some(end) => {
            let leaf = StoredLeaf {
                kind: SyntaxKind::SHEBANG,
                message: None,
                end,
            };
            leaves.push(leaf)?;
            Ok(end)
        }
        None => Ok(0),
    }
}

// Appends the frontmatter of `text`, if any; the shebang before it ends at offset `start`. Returns
// the offset of the content, in bytes.
fn push_frontmatter(
    text: &str,
    start: usize,
    leaves: &mut Vec<StoredLeaf>,
) -> Result<usize, AllocError>
    requires { Begun text.now start leaves.old.items }
    ensures { IfOk result (λ place. Opened text.now place leaves.new.items) }
{
    match frontmatter_end(text) {
        Some(end) => {
            let leaf = StoredLeaf {
                kind: SyntaxKind::FRONTMATTER,
                message: None,
                end,
            };
            leaves.push(leaf)?;
            Ok(end)
        }
        None => Ok(start),
    }
}

// Returns `true` if there is a leaf at index `i` and it is not trivia.
fn is_solid(leaves: &[StoredLeaf], i: usize) -> bool
    ensures { (text : List ℕ) (place : ℕ) → result
        ≡ touches (leaves_of (seen_from text place (drop i leaves.now))) }
{
    match leaves.get(i) {
        Some(leaf) => !leaf.kind.is_trivia(),
        None => false,
    }
}

// Returns `true` if there is a leaf at index `i` and it is a `>`.
fn is_angle(leaves: &[StoredLeaf], i: usize) -> bool
    ensures { (text : List ℕ) (place : ℕ) → result
        ≡ is_before_angle (leaves_of (seen_from text place (drop i leaves.now))) }
{
    match leaves.get(i) {
        Some(leaf) => leaf.kind == SyntaxKind::R_ANGLE,
        None => false,
    }
}

// Returns the input tokens of the leaves, without trivia. If `whole`, the grammar of the whole
// language reads them.
fn tokens(
    alloc: Global,
    whole: bool,
    edition: Edition,
    text: &str,
    leaves: &[StoredLeaf],
) -> Result<Input, AllocError>
    requires spans { AreSpans text.now 0 leaves.now }
    requires kinds { All (λ p. raw_of p.kind ≢ EOF) leaves.now }
    ensures { IfOk result (λ tokens. tokens
        ≡ input whole edition (leaves_of (seen_from text.now 0 leaves.now))) }
{
    let mut tokens = Input::with_capacity(alloc, leaves.len())?;
    let mut place = 0;
    for i in 0..leaves.len() {
        let leaf = leaves[i];
        let start = place;
        place = leaf.end;
        if leaf.kind.is_trivia() {
            continue;
        }
        let own = &text[start..leaf.end];
        let before_angle = is_angle(leaves, i + 1);
        let contextual = contextual_kind(edition, leaf.kind, own, before_angle);
        let joint = is_joint(leaf.kind, own, is_solid(leaves, i + 1));
        tokens.push_token(leaf.kind, contextual, joint, whole)?;
    }
    Ok(tokens)
}

/// A text with its leaves: the shebang, the frontmatter, and then each token, with its error, if
/// any.
#[derive(Drop)]
pub struct LexedStr<'a> {
    edition: Edition,
    text: &'a str,
    leaves: Vec<StoredLeaf>,
}

impl<'a> Model for LexedStr<'a> {
    ghost use Rattle.std.specs.Prelude.{◌≡◌, ◌≢◌, chars, length, IsUtf8};
    ghost use Rattle.std.specs.List.{All};
    ghost use Rattle.parser_input.specs.Kind.{raw_of};
    ghost use Rattle.parser_input.specs.Kinds.{EOF};
    ghost use Rattle.parser_input.specs.Stored.{AreSpans, Whole, end_from, seen_from};

    ghost Value = { Whole };

    ghost view = { λ s. record { edition = s.edition; text = chars s.text.now; leaves = seen_from s.text.now 0 s.leaves.items } };

    ghost invariant = { λ s. AreSpans s.text.now 0 s.leaves.items
        × (end_from 0 s.leaves.items ≡ length s.text.now)
        × IsUtf8 s.text.now
        × All (λ p. raw_of p.kind ≢ EOF) s.leaves.items };
}

impl<'a> LexedStr<'a> {
    /// Creates the leaves of `text`: parses its shebang and frontmatter, and lexes the content.
    ///
    /// # Errors
    ///
    /// [`AllocError`] if an allocation fails.
    pub fn new(alloc: Global, edition: Edition, text: &'a str) -> Result<LexedStr<'a>, AllocError>
        ensures { IfOk result (λ whole. whole ≡ whole_of edition (chars text.now)) }
    {
        let mut leaves = Vec::new(alloc);
        let start = push_shebang(text, &mut leaves)?;
        let start = push_frontmatter(text, start, &mut leaves)?;
        push_content(edition, text, start, &mut leaves)?;
        Ok(LexedStr {
            edition,
            text,
            leaves,
        })
    }

    /// Creates the leaves of `text`, as [`LexedStr::new`] does, from the tokens of its content: the
    /// text after the shebang and the frontmatter. Before edition 2024, none of the tokens may be a
    /// guarded prefix, which is not one leaf there.
    ///
    /// # Errors
    ///
    /// [`AllocError`] if an allocation fails.
    pub fn from_tokens(
        alloc: Global,
        edition: Edition,
        text: &'a str,
        tokens: &[Token],
    ) -> Result<LexedStr<'a>, AllocError>
        requires tokens { tokens.now ≡ lexer.token_list (content (chars text.now)) }
        requires whole { All (λ t. is_split edition t.kind ≡ false) tokens.now }
        ensures { IfOk result (λ whole. whole ≡ whole_of edition (chars text.now)) }
    {
        let mut leaves = Vec::new(alloc);
        let start = push_shebang(text, &mut leaves)?;
        let start = push_frontmatter(text, start, &mut leaves)?;
        push_tokens(edition, text, start, tokens, &mut leaves)?;
        Ok(LexedStr {
            edition,
            text,
            leaves,
        })
    }

    /// Returns the kind and the error, if any, of a text that is one token. Returns `None` if it is
    /// empty, or has several tokens or leaves. A shebang or a frontmatter is not parsed.
    pub fn single_token(edition: Edition, text: &str) -> Option<(SyntaxKind, Option<&'static str>)>
        ensures { option_map read result
            ≡ option_map kind_and_message (single edition (chars text.now)) }
    {
        if text.is_empty() {
            return None;
        }
        let next = next_leaf(edition, text);
        if next.len < text.len() {
            return None;
        }
        Some((next.kind, words(next.message)))
    }

    /// Returns the text.
    pub fn as_str(&self) -> &'a str
        ensures { chars result.now ≡ self.now.text }
    {
        self.text
    }

    /// Returns the number of leaves.
    pub fn len(&self) -> usize
        ensures { result ≡ length self.now.leaves }
    {
        self.leaves.len()
    }

    /// Returns `true` if there is no leaf, as in an empty text.
    pub fn is_empty(&self) -> bool
        ensures { result ≡ (length self.now.leaves == 0) }
    {
        self.leaves.is_empty()
    }

    /// Returns the kind of the leaf `i`.
    pub fn kind(&self, i: usize) -> SyntaxKind
        requires { i < length self.now.leaves }
        ensures { raw_of result ≡ (leaf_at self.now.leaves i).leaf.kind }
    {
        self.leaves[i].kind
    }

    /// Returns the error of the leaf `i`, if any.
    pub fn error(&self, i: usize) -> Option<&'static str>
        requires { i < length self.now.leaves }
        ensures { option_map bytes_of result
            ≡ option_map wording (leaf_at self.now.leaves i).message }
    {
        words(self.leaves[i].message)
    }

    /// Returns the errors of the leaves, in source order, each with the index of its leaf.
    pub fn errors(&self) -> Errors<'_>
        ensures { result ≡ faults 0 (map (λ l. l.message) self.now.leaves) }
    {
        Errors::of(&self.leaves)
    }

    /// Returns the offset of the start of the leaf `i`, in bytes; the length of the text if `i` is
    /// the number of leaves.
    pub fn text_start(&self, i: usize) -> usize
        requires { i ≤ length self.now.leaves }
        ensures { result ≡ offset self.now.leaves i }
    {
        if i == 0 {
            return 0;
        }
        self.leaves[i - 1].end
    }

    /// Returns the length of the leaf `i`, in bytes.
    pub fn text_len(&self, i: usize) -> usize
        requires { i < length self.now.leaves }
        ensures { result ≡ size (leaf_at self.now.leaves i).leaf.text }
    {
        let range = self.text_range(i);
        range.end - range.start
    }

    /// Returns the range of the leaf `i`, in bytes.
    pub fn text_range(&self, i: usize) -> Range<usize>
        requires { i < length self.now.leaves }
        ensures start { result.start ≡ offset self.now.leaves i }
        ensures end { result.end
            ≡ offset self.now.leaves i + size (leaf_at self.now.leaves i).leaf.text }
    {
        self.text_start(i)..self.leaves[i].end
    }

    /// Returns the text of the leaf `i`.
    pub fn text(&self, i: usize) -> &'a str
        requires { i < length self.now.leaves }
        ensures { chars result.now ≡ (leaf_at self.now.leaves i).leaf.text }
    {
        &self.text[self.text_range(i)]
    }

    /// Returns the text of a range of leaves, given by their indices.
    pub fn range_text(&self, leaves: Range<usize>) -> &'a str
        requires order { leaves.start ≤ leaves.end }
        requires within { leaves.end ≤ length self.now.leaves }
        ensures { chars result.now ≡ flat_map (λ l. l.leaf.text)
            (slice_range self.now.leaves leaves.start leaves.end) }
    {
        &self.text[self.text_start(leaves.start)..self.text_start(leaves.end)]
    }

    /// Returns the input of the parser: the leaves without trivia. The grammar of the profile reads
    /// it.
    ///
    /// # Errors
    ///
    /// [`AllocError`] if an allocation fails.
    pub fn to_input(&self, alloc: Global) -> Result<Input, AllocError>
        ensures { IfOk result (λ tokens. tokens
            ≡ input false self.now.edition (leaves_of self.now.leaves)) }
    {
        tokens(alloc, false, self.edition, self.text, &self.leaves)
    }

    /// Returns the input of the parser: the leaves without trivia. The grammar of the whole
    /// language reads it.
    ///
    /// # Errors
    ///
    /// [`AllocError`] if an allocation fails.
    pub fn to_whole_input(&self, alloc: Global) -> Result<Input, AllocError>
        ensures { IfOk result (λ tokens. tokens
            ≡ input true self.now.edition (leaves_of self.now.leaves)) }
    {
        tokens(alloc, true, self.edition, self.text, &self.leaves)
    }
}
