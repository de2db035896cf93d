//! An edit of a text, as an edit of its content.
ghost use Rattle.std.specs.Prelude.{◌≡◌, chars, IfOk, MatchOption};
ghost use Rattle.parser_input.specs.Lexed.{content};
ghost use Rattle.rust_document.specs.ContentEdit.{AreCounts, IsTextEdit, LeavesPreface};
ghost use Rattle.rust_document.specs.KeptTokens.{preface_size};

use crate::lexing::{has_split, lexed_content};
use crate::preface::parts_of;
use lexed_text::{Kept, LexedText};
use parser_input::edition::Edition;
use rowan_green::TextRange;
use std::alloc::{AllocError, Global};

/// A text before and after an edit, which replaces `range` with `put`.
#[derive(Clone, Copy)]
pub(crate) struct TextEdit<'a, 'b, 'c> {
    pub before: &'a str,
    pub after: &'b str,
    pub range: TextRange,
    pub put: &'c str,
}

/// The content of an edited text with its tokens.
#[derive(Drop)]
pub(crate) struct EditedContent {
    pub kept: LexedText,
    /// The counts of the edit; `None` if no token is kept.
    pub counts: Option<Kept>,
}

/// Returns the bytes of the preface if both texts have the same one and it ends before the edit.
/// `kept` is the content of the text before.
fn kept_preface(kept: &str, edit: &TextEdit<'_, '_, '_>) -> Option<usize>
    requires edit { IsTextEdit edit.now }
    requires kept { chars kept.now ≡ content (chars edit.now.before.now) }
    ensures { MatchOption result (LeavesPreface edit.now → ⊥)
        (λ bytes. LeavesPreface edit.now × (bytes ≡ preface_size edit.now.before.now)) }
{
    let before = parts_of(edit.before);
    let after = parts_of(edit.after);
    let bytes = edit.before.len() - kept.len();
    if bytes > usize::from(edit.range.start()) {
        return None;
    }
    if edit.after.len() - after.content.len() != bytes {
        return None;
    }
    if before.shebang != after.shebang {
        return None;
    }
    if before.has_frontmatter != after.has_frontmatter {
        return None;
    }
    Some(bytes)
}

/// Lexes the content of an edited text. `kept` is the content of the text before with its tokens.
///
/// # Errors
///
/// [`AllocError`] if an allocation fails.
pub(crate) fn edit_content(
    alloc: Global,
    edition: Edition,
    kept: &LexedText,
    edit: &TextEdit<'_, '_, '_>,
) -> Result<EditedContent, AllocError>
    requires edit { IsTextEdit edit.now }
    requires kept { chars kept.now ≡ content (chars edit.now.before.now) }
    ensures content { IfOk result (λ e. chars e.kept ≡ content (chars edit.now.after.now)) }
    ensures counts { IfOk result (λ e. AreCounts edition edit.now.before.now edit.now.after.now
        edit.now.range.start.0 edit.now.range.end.0 edit.now.put.now e.counts) }
{
    let Some(preface) = kept_preface(kept.text(), edit) else {
        let kept = lexed_content(alloc, edit.after)?;
        return Ok(EditedContent { kept, counts: None });
    };
    if has_split(edition, kept.tokens()) {
        let kept = lexed_content(alloc, edit.after)?;
        return Ok(EditedContent { kept, counts: None });
    }
    let start = usize::from(edit.range.start()) - preface;
    let end = usize::from(edit.range.end()) - preface;
    let mut edited = kept.try_clone(alloc)?;
    let counts = edited.edit(start..end, edit.put)?;
    if has_split(edition, edited.tokens()) {
        return Ok(EditedContent {
            kept: edited,
            counts: None,
        });
    }
    Ok(EditedContent {
        kept: edited,
        counts: Some(counts),
    })
}
