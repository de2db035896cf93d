//! Trivia before a node: the leaves that belong to the node.

ghost use Rattle.std.specs.Prelude.{◌≡◌, ◌≤◌, ◌<◌, ◌+◌, ◌-◌, ◌==◌, ◌&&◌, not, chars, get_or, length, reverse, drop, slice_range, if◌then◌else◌, [], ◌∷◌};
ghost use Rattle.std.specs.List.{list_any};
ghost use Rattle.parser_input.specs.Kind.{raw_of};
ghost use Rattle.parser_input.specs.Kinds as kinds;
ghost use Rattle.parser_input.specs.Lexed.{leaves_of};
ghost use Rattle.parser_input.specs.Stored.{leaf_at};
ghost use Rattle.parser_events.specs.Trivia.{AreAscii, attached, begins_with, has_empty_line, is_inner, is_outer, is_outer_next, pending, taking, walk};

use parser_input::lexed_str::LexedStr;
use parser_input::syntax_kind::SyntaxKind;

/// Whether a text begins with these ASCII characters.
fn begins_with(text: &str, prefix: &str) -> bool
    requires { AreAscii prefix.now }
    ensures { result ≡ begins_with prefix.now (chars text.now) }
{
    text.starts_with(prefix)
}

/// Returns `true` if the comment is an inner doc comment.
fn is_inner(text: &str) -> bool
    ensures { result ≡ is_inner (chars text.now) }
{
    begins_with(text, "//!") | begins_with(text, "/*!")
}

/// Returns `true` if the text starts an outer line doc comment: three slashes, and not four.
fn is_outer_line(text: &str) -> bool
    ensures { result ≡ (begins_with (47 ∷ 47 ∷ 47 ∷ []) (chars text.now)
        && not (get_or (chars text.now) 3 0 == 47)) }
{
    begins_with(text, "///") & !begins_with(text, "////")
}

/// Returns `true` if the text starts an outer block doc comment: `/**`, but neither `/***` nor
/// `/**/`.
fn is_outer_block(text: &str) -> bool
    ensures { result ≡ (begins_with (47 ∷ 42 ∷ 42 ∷ []) (chars text.now) && not
        (get_or (chars text.now) 3 0 == 42) && not (get_or (chars text.now) 3 0 == 47)) }
{
    begins_with(text, "/**") & !begins_with(text, "/***") & !begins_with(text, "/**/")
}

/// Returns `true` if the comment is an outer doc comment.
fn is_outer(text: &str) -> bool
    ensures { result ≡ is_outer (chars text.now) }
{
    is_outer_line(text) | is_outer_block(text)
}

/// Returns `true` if the text contains two line feeds in a row.
fn has_empty_line(text: &str) -> bool
    ensures { result ≡ has_empty_line (chars text.now) }
{
    text.contains("\n\n")
}

fn is_comment(kind: SyntaxKind) -> bool
    ensures { result ≡ (raw_of kind == kinds.COMMENT) }
{
    matches!(kind, SyntaxKind::COMMENT)
}

/// Whether a node of this kind takes comments before it inside.
fn takes_comments(kind: SyntaxKind) -> bool
    ensures { result ≡ list_any (λ k. k == raw_of kind) taking }
{
    matches!(
        kind,
        SyntaxKind::CONST
            | SyntaxKind::ENUM
            | SyntaxKind::EXTERN_CRATE
            | SyntaxKind::FN
            | SyntaxKind::IMPL
            | SyntaxKind::MACRO_CALL
            | SyntaxKind::MACRO_DEF
            | SyntaxKind::MACRO_RULES
            | SyntaxKind::MODULE
            | SyntaxKind::RECORD_FIELD
            | SyntaxKind::STATIC
            | SyntaxKind::STRUCT
            | SyntaxKind::TRAIT
            | SyntaxKind::TUPLE_FIELD
            | SyntaxKind::TYPE_ALIAS
            | SyntaxKind::UNION
            | SyntaxKind::USE
            | SyntaxKind::VARIANT
    )
}

/// Returns the index of the first leaf from `start` on that is not trivia, or of the end.
pub(crate) fn pending_end(lexed: &LexedStr<'_>, start: usize) -> usize
    requires { start ≤ length lexed.now.leaves }
    ensures end { result ≡ start + length (pending (drop start (leaves_of lexed.now.leaves))) }
    ensures within { result ≤ length lexed.now.leaves }
{
    let mut end = start;
    'pending: while end < lexed.len() {
        if !lexed.kind(end).is_trivia() {
            return end;
        }
        end += 1;
    }
    end
}

/// Returns `true` if the last of the leaves `start..end` is an outer doc comment; `false` if there
/// are no leaves.
fn is_outer_before(lexed: &LexedStr<'_>, start: usize, end: usize) -> bool
    requires order { start ≤ end }
    requires within { end ≤ length lexed.now.leaves }
    ensures { result ≡ is_outer_next
        (reverse (slice_range (leaves_of lexed.now.leaves) start end)) }
{
    if start == end {
        return false;
    }
    is_comment(lexed.kind(end - 1)) & is_outer(lexed.text(end - 1))
}

/// Whether a walk backwards, to the leaf `start`, ends at a leaf.
fn stops_at(lexed: &LexedStr<'_>, start: usize, leaf: usize) -> bool
    requires order { start ≤ leaf }
    requires within { leaf < length lexed.now.leaves }
    ensures { result ≡ (if (leaf_at lexed.now.leaves leaf).leaf.kind == kinds.COMMENT then is_inner
        (leaf_at lexed.now.leaves leaf).leaf.text else (has_empty_line
        (leaf_at lexed.now.leaves leaf).leaf.text && not
        (is_outer_next (reverse (slice_range (leaves_of lexed.now.leaves) start leaf))))) }
{
    if is_comment(lexed.kind(leaf)) {
        return is_inner(lexed.text(leaf));
    }
    has_empty_line(lexed.text(leaf)) & !is_outer_before(lexed, start, leaf)
}

/// Returns the index of the first leaf that belongs to a node at `end`, of a kind that takes
/// comments; `end` if there is none. The leaves `start..end` are the trivia before the node.
#[inline(never)]
fn first_inside(lexed: &LexedStr<'_>, start: usize, end: usize) -> usize
    requires order { start ≤ end }
    requires within { end ≤ length lexed.now.leaves }
    ensures inside { end - result
        ≡ walk 0 0 (reverse (slice_range (leaves_of lexed.now.leaves) start end)) }
    ensures after { start ≤ result }
    ensures before { result ≤ end }
{
    let mut first = end;
    let mut place = end;
    'back: while start < place {
        let leaf = place - 1;
        if stops_at(lexed, start, leaf) {
            return first;
        }
        if is_comment(lexed.kind(leaf)) {
            first = leaf;
        }
        place = leaf;
    }
    first
}

/// Returns the index of the first leaf that belongs to a node of this kind at `end`; `end` if there
/// is none. The leaves `start..end` are the trivia before the node.
#[inline(always)]
pub(crate) fn attached_from(
    lexed: &LexedStr<'_>,
    kind: SyntaxKind,
    start: usize,
    end: usize,
) -> usize
    requires order { start ≤ end }
    requires within { end ≤ length lexed.now.leaves }
    ensures inside { end - result
        ≡ attached (raw_of kind) (slice_range (leaves_of lexed.now.leaves) start end) }
    ensures after { start ≤ result }
    ensures before { result ≤ end }
{
    if start == end {
        return end;
    }
    if !takes_comments(kind) {
        return end;
    }
    first_inside(lexed, start, end)
}
