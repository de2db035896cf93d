//! Replaces the matches of a source.

ghost use Rattle.std.specs.Prelude.{◌≡◌, ◌<◌, length, IfErr, IfOk, OnOk};
ghost use Rattle.tree_replace.specs.Replacements.{AreReplaced, OnlyReplaces};

use crate::asked::{is_asked, is_glued};
use crate::candidate::{Candidate, candidates_of};
use crate::comments::comments_before;
use crate::error::{Reason, Refusal, ReplaceError};
use crate::fillings::{Making, parentheses};
use crate::frames::{frame_of, reads_as_changed};
use crate::instance::instance;
use crate::rule::Rule;
use crate::same::Change;
use crate::texts::{Span, part};
use pattern_parser::{Dialect, read_node};
use rust_source::{Source, SourceError, SyntaxEditor, TopEntryPoint};
use std::alloc::{AllocError, Global};
use syntax_tree::{SyntaxElement, SyntaxNode};
use tree_patterns::Fragment;
use tree_search::{Match, search};

/// How a comment is treated that no part of the template keeps.
#[derive(Clone, Copy, Debug, PartialEq, Eq)]
pub enum Comments {
    /// The match is refused.
    Refuse,
    /// It comes before the text that replaces the match.
    Before,
    /// It goes.
    Drop,
}

/// How matches are replaced.
#[derive(Clone, Copy, Debug, PartialEq, Eq)]
pub struct Options {
    pub comments: Comments,
    /// Whether matches that are refused stay, and the others are replaced.
    pub skips: bool,
    /// Whether a text with messages is changed.
    pub allows_messages: bool,
}

/// What was replaced.
#[derive(Debug, Drop)]
pub struct Replaced {
    /// The number of matches that were replaced, those in others among them.
    pub count: usize,
    /// The matches that stay, in order.
    pub skipped: Vec<Refusal>,
}

/// Returns `true` if the match alone, replaced by a text behind comments, reads as it should.
fn reads(
    making: &Making<'_>,
    place: &SyntaxNode,
    comments: &str,
    text: &str,
    node: &SyntaxNode,
) -> Result<bool, ReplaceError> {
    let alloc = making.alloc;
    let span = Span::of_node(place);
    let frame = frame_of(alloc, place)?;
    let around = Span::of_node(&frame.node);
    let whole = making.source.text();
    let front = part(whole, around.start, span.start);
    let back = part(whole, span.end, around.end);
    // (comments at the front are beside the frame's node)
    let comments = if front.is_empty() { "" } else { comments };
    let changed = format!(in alloc; "{front}{comments}{text}{back}")?;
    let change = Change {
        span,
        kind: place.cursor().green().kind().0,
        new: node.cursor().green().as_ref(),
    };
    Ok(reads_as_changed(alloc, making.dialect, &frame, &change, changed.as_str())?)
}

/// Returns `true` if rustc asks for parentheses around the text that takes the place of a match.
fn is_asked_around(
    making: &Making<'_>,
    place: &SyntaxNode,
    text: &str,
    node: &SyntaxNode,
) -> Result<bool, AllocError> {
    let span = Span::of_node(place);
    let whole = making.source.text();
    let front = part(whole, 0, span.start);
    let back = part(whole, span.end, whole.len());
    if making.rule.pattern.fragment() == Fragment::Expression && is_glued(front, text, back) {
        return Ok(true);
    }
    is_asked(making.alloc, place, &node.cursor().green().as_ref())
}

/// Returns a text behind the comments of a match.
fn behind_comments(candidate: &Candidate<'_>, text: String) -> Result<String, AllocError> {
    if candidate.comments.is_empty() {
        return Ok(text);
    }
    let mut whole = candidate.comments.clone()?;
    whole.push_str(text.as_str())?;
    Ok(whole)
}

/// Returns `true` if the comments before a text are in the node that it is. Those before an expression, a
/// type or a pattern are; those before a statement only if the grammar gives them to it.
fn has_comments(
    making: &Making<'_>,
    candidate: &Candidate<'_>,
    text: &str,
) -> Result<bool, ReplaceError> {
    match making.rule.pattern.fragment() {
        Fragment::Expression | Fragment::Type | Fragment::Pattern => Ok(true),
        fragment => Ok(
            candidate.comments.is_empty()
                || read_node(making.alloc, making.dialect, fragment, text)?.is_some(),
        ),
    }
}

/// Returns the text that takes the place of a match, behind its comments, in parentheses if it has to be; or
/// why there is none.
fn placed(
    making: &Making<'_>,
    place: &SyntaxNode,
    candidate: &Candidate<'_>,
    text: String,
    node: SyntaxNode,
) -> Result<Result<String, Reason>, ReplaceError> {
    let comments = candidate.comments.as_str();
    let whole = behind_comments(candidate, text.clone()?)?;
    if !has_comments(making, candidate, whole.as_str())? {
        return Ok(Err(Reason::CommentLost));
    }
    let asked = is_asked_around(making, place, whole.as_str(), &node)?;
    if !asked && reads(making, place, comments, text.as_str(), &node)? {
        return Ok(Ok(whole));
    }
    let fragment = making.rule.pattern.fragment();
    let Some(kind) = parentheses(fragment) else {
        return Ok(Err(Reason::Unfaithful));
    };
    let inner = text.as_str();
    let closed = format!(in making.alloc; "({inner})")?;
    let Some(node) = read_node(making.alloc, making.dialect, fragment, closed.as_str())? else {
        return Ok(Err(Reason::Unfaithful));
    };
    if node.kind() == kind && reads(making, place, comments, closed.as_str(), &node)? {
        Ok(Ok(behind_comments(candidate, closed)?))
    } else {
        Ok(Err(Reason::Unfaithful))
    }
}

/// Returns `true` if a match is a whole binding of one that is replaced.
fn is_bound(candidates: &[Candidate<'_>], number: usize) -> bool {
    if number >= candidates.len() {
        return false;
    }
    match candidates[number].owner {
        Some(owner) => owner < candidates.len() && candidates[owner].refused.is_none(),
        None => false,
    }
}

/// Returns the text that takes the place of a match, or why there is none.
fn decided(
    making: &Making<'_>,
    candidates: &[Candidate<'_>],
    number: usize,
) -> Result<Result<String, Reason>, ReplaceError> {
    let Some((text, node)) = instance(making, candidates, number)? else {
        return Ok(Err(Reason::Unfaithful));
    };
    if number >= candidates.len() {
        return Ok(Err(Reason::Unfaithful));
    }
    let candidate = &candidates[number];
    if is_bound(candidates, number) {
        return Ok(Ok(behind_comments(candidate, text)?));
    }
    match candidate.found.element() {
        SyntaxElement::Node(place) => placed(making, place, candidate, text, node),
        SyntaxElement::Token(_) => Ok(Err(Reason::Unfaithful)),
    }
}

/// Decides what takes the place of each match, inner ones first. Returns `true` if one more was refused.
fn decide_all(
    making: &Making<'_>,
    candidates: &mut Vec<Candidate<'_>>,
) -> Result<bool, ReplaceError> {
    let mut has_refused = false;
    let count = candidates.len();
    for behind in 0..count {
        let number = count.saturating_sub(behind).saturating_sub(1);
        if number >= candidates.len() || candidates[number].refused.is_some() {
            continue;
        }
        let new = decided(making, candidates.as_slice(), number)?;
        if number < candidates.len() {
            match new {
                Ok(new) => candidates[number].new = new,
                Err(reason) => {
                    candidates[number].refused = Some(reason);
                    has_refused = true;
                }
            }
        }
    }
    Ok(has_refused)
}

/// Returns the matches that are refused, in order.
fn refusals(alloc: Global, candidates: &[Candidate<'_>]) -> Result<Vec<Refusal>, AllocError> {
    let mut refusals = Vec::new(alloc);
    for candidate in candidates {
        if let Some(reason) = candidate.refused {
            refusals.push(Refusal {
                reason,
                start: candidate.span.start,
                end: candidate.span.end,
            })?;
        }
    }
    Ok(refusals)
}

/// Returns the matches of a source with what takes their place.
fn planned<'a>(
    source: &Source,
    rule: &Rule,
    options: Options,
    matches: &'a [Match],
) -> Result<Vec<Candidate<'a>>, ReplaceError> {
    let alloc = source.alloc();
    let making = Making {
        alloc,
        dialect: Dialect {
            edition: source.edition(),
            grammar: source.grammar(),
        },
        source,
        rule,
    };
    let mut candidates = candidates_of(alloc, source, rule, matches)?;
    for candidate in candidates.iter_mut() {
        if candidate.lost.is_empty() {
            continue;
        }
        match options.comments {
            Comments::Refuse => candidate.refused = Some(Reason::CommentLost),
            Comments::Before => {
                let (text, lost) = (source.text(), candidate.lost.as_slice());
                let before = comments_before(alloc, text, lost, candidate.indent.as_str())?;
                candidate.comments = before;
            }
            Comments::Drop => {}
        }
    }
    for _ in 0..candidates.len() {
        if !decide_all(&making, &mut candidates)? {
            break;
        }
    }
    Ok(candidates)
}

/// Returns the element that a text is behind comments, whose length in bytes is `comments`.
fn payload(
    source: &mut Source,
    fragment: Fragment,
    text: &str,
    comments: usize,
) -> Result<Option<SyntaxNode>, ReplaceError>
    ensures { source.new.document ≡ source.old.document }
{
    let alloc = source.alloc();
    let dialect = Dialect {
        edition: source.edition(),
        grammar: source.grammar(),
    };
    let entry = match fragment {
        Fragment::Expression => TopEntryPoint::Expr,
        Fragment::Type => TopEntryPoint::Ty,
        Fragment::Pattern => TopEntryPoint::Pattern,
        Fragment::Statement => {
            let made = source.payload_statement(text);
            return Ok(Some(made.map_err(SourceError::Node)?));
        }
        Fragment::Item => {
            let made = source.payload_item(text);
            return Ok(Some(made.map_err(SourceError::Node)?));
        }
    };
    let bare = part(text, comments, text.len());
    let Some(node) = read_node(alloc, dialect, fragment, bare)? else {
        return Ok(None);
    };
    let made = source.payload_node(entry, node.kind(), text);
    Ok(Some(made.map_err(SourceError::Node)?))
}

/// Records that the element of a match is replaced by another.
#[tactic(auto, using(crate::proofs::Singles::one_more))]
fn put(
    alloc: Global,
    editor: &mut SyntaxEditor,
    matches: &[Match],
    index: usize,
    new: &SyntaxElement,
) -> Result<(), ReplaceError>
    requires index { index < length matches.now }
    requires only { OnlyReplaces matches.now editor.old }
    ensures { OnOk result (OnlyReplaces matches.now editor.new) }
{
    match editor.replace(alloc, matches[index].element(), new) {
        Ok(()) => Ok(()),
        Err(error) => Err(ReplaceError::Source(SourceError::Record(error))),
    }
}

/// Records the replacement of each outermost match that is not refused. Returns `false` if a text is no
/// element.
fn record(
    source: &mut Source,
    fragment: Fragment,
    matches: &[Match],
    candidates: &[Candidate<'_>],
    editor: &mut SyntaxEditor,
) -> Result<bool, ReplaceError>
    requires { OnlyReplaces matches.now editor.old }
    ensures only { OnOk result (OnlyReplaces matches.now editor.new) }
    ensures document { source.new.document ≡ source.old.document }
{
    let mut at = 0usize;
    for index in 0..matches.len() {
        if index >= candidates.len() {
            break;
        }
        let candidate = &candidates[index];
        if candidate.refused.is_some() || candidate.span.start < at {
            continue;
        }
        let text = candidate.new.as_str();
        let Some(new) = payload(source, fragment, text, candidate.comments.len())? else {
            return Ok(false);
        };
        let new = SyntaxElement::Node(new);
        put(source.alloc(), editor, matches, index, &new)?;
        at = candidate.span.end;
    }
    Ok(true)
}

/// Returns the number of matches that are not refused.
fn count_replaced(candidates: &[Candidate<'_>]) -> usize {
    let mut count = 0usize;
    for candidate in candidates {
        if candidate.refused.is_none() {
            count = count.saturating_add(1);
        }
    }
    count
}

/// Replaces the matches of a rule in a source, those in what others bind too, and nothing else. What takes the place of a
/// match is in parentheses exactly where the text would read otherwise, or where rustc asks for them. The
/// new text is accepted only if it reads as the tree with these replacements.
///
/// # Errors
///
/// - [`ReplaceError::Messages`] if the text has messages and the options do not allow that.
/// - [`ReplaceError::Matches`] if matches cannot be replaced and the options do not skip them.
/// - [`ReplaceError::Source`] if the source refuses the new text.
/// - [`ReplaceError::TooLong`] if a text is past the limit of a document.
/// - [`ReplaceError::NoMemory`] if an allocation fails.
///
/// On error, the document is unchanged.
pub fn replace(source: &mut Source, rule: &Rule, options: Options) -> Result<Replaced, ReplaceError>
    ensures replaced { IfOk result (λ r. (r.count ≡ 0 → ⊥)
        → AreReplaced rule.now.pattern source.old.document source.new.document) }
    ensures unchanged { IfOk result (λ r. r.count ≡ 0
        → source.new.document ≡ source.old.document) }
    ensures kept { IfErr result (λ _. source.new.document ≡ source.old.document) }
{
    let alloc = source.alloc();
    if !options.allows_messages && !source.errors().is_empty() {
        return Err(ReplaceError::Messages);
    }
    let matches = search(alloc, &rule.pattern, source.root())?;
    let candidates = planned(source, rule, options, matches.as_slice())?;
    let skipped = refusals(alloc, candidates.as_slice())?;
    if !skipped.is_empty() && !options.skips {
        return Err(ReplaceError::Matches(skipped));
    }
    let count = count_replaced(candidates.as_slice());
    if count == 0 {
        return Ok(Replaced { count, skipped });
    }
    let mut editor = source.editor()?;
    let fragment = rule.pattern.fragment();
    let matches = matches.as_slice();
    if !record(
        source,
        fragment,
        matches,
        candidates.as_slice(),
        &mut editor,
    )? {
        return Err(ReplaceError::TooLong);
    }
    source.commit(editor).map_err(SourceError::Commit)?;
    Ok(Replaced { count, skipped })
}
