//! The library for C, Rust and Python: documents behind handles, as C functions.
//!
//! `bindings/exports.txt` lists the exports, `bindings/c/tevondimby.h` declares them. None asks
//! anything of its caller that a contract could say: what is left to C is that a handle belongs to one
//! call at a time and is not copied, and that a pointer has the room that is said with it.
#![tactic(auto)]

ghost use Rattle.std.specs.Prelude.{◌≡◌, ◌≢◌, ◌⊎◌, ◌≤◌, None, IfSome, IsSome, MatchOption, false, map, true};
ghost use Rattle.parser_input.specs.Kind.{kind_count};
ghost use Rattle.document_requests.specs.Output.{replies};
ghost use Rattle.document_rows.specs.Rows.{element_rows_of, message_rows_of, message_words_of, range_row, token_rows};
ghost use Rattle.kept_document.specs.Buffers.{AreWritten, IsPut, IsWritten};
ghost use Rattle.kept_document.specs.Calls.{IsFresh, RefusesEdit, RefusesOpening};
ghost use Rattle.kept_document.specs.DeepRequests.{is_deep_request};
ghost use Rattle.kept_document.specs.Dialect.{edition_of, grammar_of};
ghost use Rattle.kept_document.specs.Exports.{CommitsTo, HasReason, Holds, IsEdited, IsUncommitted, KeepsText, RefusesClosed, RefusesOpen, RenamesTo, Turns};
ghost use Rattle.kept_document.specs.Renamings.{RefusesRenaming};
ghost use Rattle.kept_document.specs.Texts.{CountsMessages, IsAnswered, IsNamed};

use document_rows::{ElementRow, MessageRow, RangeRow, TokenRow};
use kept_document::{Handle, calls, texts, views};
use std::alloc::Global;

/// Answers a request as `document_tool` does. A request with too deep a text is not run.
#[unsafe(no_mangle)]
pub extern "C" fn tevondimby_run(
    alloc: Global,
    request: &[u8],
    out: &mut [u8],
    written: &mut usize,
    status: &mut u8,
) -> u32
    ensures answered { (result ≡ 0) ⊎ (result ≡ 1) → IsAnswered (replies request.now) result
        out.old out.new written.new status.new }
    ensures codes { ((result ≡ 0) ⊎ (result ≡ 1)) ⊎ ((result ≡ 3) ⊎ (result ≡ 18)) }
    ensures flat { (result ≡ 0) ⊎ (result ≡ 1) → is_deep_request request.now ≡ false }
    ensures deep { result ≡ 18 → is_deep_request request.now ≡ true }
    ensures refused { (result ≡ 3) ⊎ (result ≡ 18) → (out.new ≡ out.old) × (written.new ≡ 0)
        × (status.new ≡ status.old) }
{
    texts::run(alloc, request, out, written, status)
}

/// Counts the messages of a text.
#[unsafe(no_mangle)]
pub extern "C" fn tevondimby_check(
    alloc: Global,
    text: &[u8],
    edition: u32,
    grammar: u32,
    count: &mut usize,
) -> u32
    ensures counted { result ≡ 0 → CountsMessages (edition_of edition) (grammar_of grammar) text.now
        count.new }
    ensures refused { result ≢ 0 → HasReason (RefusesOpening (edition_of edition)
        (grammar_of grammar) text.now) result }
    ensures none { result ≢ 0 → count.new ≡ 0 }
{
    texts::check(alloc, text, edition, grammar, count)
}

/// Writes the name of a kind.
#[unsafe(no_mangle)]
pub extern "C" fn tevondimby_kind_name(kind: u32, out: &mut [u8], written: &mut usize) -> u32
    ensures named { result ≢ 4 → IsNamed kind result out.old out.new written.new }
    ensures refused { result ≡ 4 → (kind_count ≤ kind) × (out.new ≡ out.old) × (written.new ≡ 0) }
{
    texts::kind_name(kind, out, written)
}

/// Opens a document in a closed handle.
#[unsafe(no_mangle)]
pub extern "C" fn tevondimby_open(
    alloc: Global,
    handle: &mut Handle,
    text: &[u8],
    edition: u32,
    grammar: u32,
) -> u32
    ensures opened { result ≡ 0 → Holds handle.new.hold.kept
        (IsFresh (edition_of edition) (grammar_of grammar) text.now) }
    ensures was_closed { result ≡ 0 → handle.old.hold.kept ≡ None }
    ensures is_open { IsSome handle.old.hold.kept → result ≡ 8 }
    ensures refused { result ≢ 0 → HasReason (RefusesClosed handle.old.hold.kept
        (RefusesOpening (edition_of edition) (grammar_of grammar) text.now)) result }
    ensures kept { result ≢ 0 → handle.new.hold.kept ≡ handle.old.hold.kept }
{
    calls::open(alloc, handle, text, edition, grammar)
}

/// Closes an open handle and frees its document.
#[unsafe(no_mangle)]
pub extern "C" fn tevondimby_free(alloc: Global, handle: &mut Handle) -> u32
    ensures closed { handle.new.hold.kept ≡ None }
    ensures code { MatchOption handle.old.hold.kept (result ≡ 7) (λ _. result ≡ 0) }
{
    calls::free(alloc, handle)
}

/// Replaces the bytes from `start` to just before `end` with `text`.
#[unsafe(no_mangle)]
pub extern "C" fn tevondimby_edit(
    alloc: Global,
    handle: &mut Handle,
    start: usize,
    end: usize,
    text: &[u8],
) -> u32
    ensures done { result ≡ 0 → Turns handle.old.hold.kept handle.new.hold.kept
        (IsEdited start end text.now) }
    ensures refused { result ≢ 0 → HasReason (RefusesOpen handle.old.hold.kept
        (λ kept. RefusesEdit kept.document kept.ids start end text.now)) result }
    ensures not_open { handle.old.hold.kept ≡ None → result ≡ 7 }
    ensures kept { result ≢ 0 → handle.new.hold.kept ≡ handle.old.hold.kept }
{
    calls::edit(alloc, handle, start, end, text)
}

/// Makes the changes of one commit, given as JSON.
#[unsafe(no_mangle)]
pub extern "C" fn tevondimby_commit(alloc: Global, handle: &mut Handle, command: &[u8]) -> u32
    ensures done { result ≡ 0 → Turns handle.old.hold.kept handle.new.hold.kept (CommitsTo command.now) }
    ensures refused { result ≢ 0 → IsUncommitted handle.old.hold.kept handle.new.hold.kept command.now result }
    ensures not_open { handle.old.hold.kept ≡ None → result ≡ 7 }
    ensures kept { result ≢ 0 → KeepsText handle.old.hold.kept handle.new.hold.kept }
{
    calls::commit(alloc, handle, command)
}

/// Renames each identifier `old` to `new`.
#[unsafe(no_mangle)]
pub extern "C" fn tevondimby_rename(
    alloc: Global,
    handle: &mut Handle,
    old: &[u8],
    new: &[u8],
) -> u32
    ensures done { result ≡ 0 → Turns handle.old.hold.kept handle.new.hold.kept
        (RenamesTo old.now new.now) }
    ensures refused { result ≢ 0 → HasReason (RefusesOpen handle.old.hold.kept
        (λ kept. RefusesRenaming kept.document kept.ids old.now new.now)) result }
    ensures not_open { handle.old.hold.kept ≡ None → result ≡ 7 }
    ensures kept { result ≢ 0 → KeepsText handle.old.hold.kept handle.new.hold.kept }
{
    calls::rename(alloc, handle, old, new)
}

/// Writes the text.
#[unsafe(no_mangle)]
pub extern "C" fn tevondimby_text(
    alloc: Global,
    handle: &mut Handle,
    out: &mut [u8],
    written: &mut usize,
) -> u32
    ensures text { IfSome handle.old.hold.kept
        (λ kept. IsPut kept.document.text result out.old out.new written.new) }
    ensures not_open { handle.old.hold.kept ≡ None
        → (result ≡ 7) × (out.new ≡ out.old) × (written.new ≡ 0) }
    ensures kept { handle.new.hold.kept ≡ handle.old.hold.kept }
{
    views::text(alloc, handle, out, written)
}

/// Writes the tokens.
#[unsafe(no_mangle)]
pub extern "C" fn tevondimby_tokens(
    alloc: Global,
    handle: &mut Handle,
    out: &mut [TokenRow],
    written: &mut usize,
) -> u32
    ensures rows { IfSome handle.old.hold.kept (λ kept. IsWritten
        (token_rows kept.document) result out.old out.new written.new) }
    ensures not_open { handle.old.hold.kept ≡ None
        → (result ≡ 7) × (out.new ≡ out.old) × (written.new ≡ 0) }
    ensures kept { handle.new.hold.kept ≡ handle.old.hold.kept }
{
    views::tokens(alloc, handle, out, written)
}

/// Writes the elements of the tree.
#[unsafe(no_mangle)]
pub extern "C" fn tevondimby_tree(
    alloc: Global,
    handle: &mut Handle,
    out: &mut [ElementRow],
    written: &mut usize,
) -> u32
    ensures rows { IfSome handle.old.hold.kept (λ kept. IsWritten
        (element_rows_of kept.document) result out.old out.new written.new) }
    ensures not_open { handle.old.hold.kept ≡ None
        → (result ≡ 7) × (out.new ≡ out.old) × (written.new ≡ 0) }
    ensures kept { handle.new.hold.kept ≡ handle.old.hold.kept }
{
    views::tree(alloc, handle, out, written)
}

/// Writes the messages and their words.
#[unsafe(no_mangle)]
pub extern "C" fn tevondimby_errors(
    alloc: Global,
    handle: &mut Handle,
    out: &mut [MessageRow],
    written: &mut usize,
    words: &mut [u8],
    words_written: &mut usize,
) -> u32
    ensures rows { IfSome handle.old.hold.kept (λ kept. AreWritten
        (message_rows_of kept.document) (message_words_of kept.document) result
        out.old out.new written.new words.old words.new words_written.new) }
    ensures not_open { handle.old.hold.kept ≡ None → (result ≡ 7) × (out.new ≡ out.old)
        × (words.new ≡ words.old) × (written.new ≡ 0) × (words_written.new ≡ 0) }
    ensures kept { handle.new.hold.kept ≡ handle.old.hold.kept }
{
    views::errors(alloc, handle, out, written, words, words_written)
}

/// Writes the ranges that the last accepted commit inserted.
#[unsafe(no_mangle)]
pub extern "C" fn tevondimby_changed(
    alloc: Global,
    handle: &mut Handle,
    out: &mut [RangeRow],
    written: &mut usize,
) -> u32
    ensures rows { IfSome handle.old.hold.kept (λ kept. IsWritten
        (map range_row kept.changed.items) result out.old out.new written.new) }
    ensures not_open { handle.old.hold.kept ≡ None
        → (result ≡ 7) × (out.new ≡ out.old) × (written.new ≡ 0) }
    ensures kept { handle.new.hold.kept ≡ handle.old.hold.kept }
{
    views::changed(alloc, handle, out, written)
}
