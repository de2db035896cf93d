//! What the exports do that change a document.
ghost use Rattle.std.specs.Prelude.{◌≡◌, ◌≢◌, None, Some, IsSome, MatchOption};
ghost use Rattle.kept_document.specs.Calls.{IsFresh, RefusesEdit, RefusesOpening};
ghost use Rattle.kept_document.specs.Dialect.{edition_of, grammar_of};
ghost use Rattle.kept_document.specs.Exports.{CommitsTo, HasReason, Holds, IsEdited, IsUncommitted, KeepsText, RefusesClosed, RefusesOpen, RenamesTo, Turns};
ghost use Rattle.kept_document.specs.Renamings.{RefusesRenaming};

use crate::handle::Handle;
use crate::kept::Kept;
use crate::reason::Reason;
use std::alloc::Global;

/// Opens a document in a closed handle.
pub fn open(alloc: Global, handle: &mut Handle, text: &[u8], edition: u32, grammar: u32) -> u32
    ensures opened { result ≡ 0 → Holds handle.new.hold.kept
        (IsFresh (edition_of edition) (grammar_of grammar) text.now) }
    ensures was_closed { result ≡ 0 → handle.old.hold.kept ≡ None }
    ensures is_open { IsSome handle.old.hold.kept → result ≡ 8 }
    ensures refused { result ≢ 0 → HasReason (RefusesClosed handle.old.hold.kept
        (RefusesOpening (edition_of edition) (grammar_of grammar) text.now)) result }
    ensures kept { result ≢ 0 → handle.new.hold.kept ≡ handle.old.hold.kept }
{
    if handle.is_open() {
        return Reason::IsOpen.code();
    }
    match Kept::open(alloc, text, edition, grammar) {
        Ok(kept) => match Box::new(alloc, kept) {
            Ok(kept) => {
                handle.fill(kept);
                0
            }
            Err(_) => Reason::NoMemory.code(),
        },
        Err(reason) => reason.code(),
    }
}

/// Closes an open handle and frees its document.
pub fn free(alloc: Global, handle: &mut Handle) -> u32
    ensures closed { handle.new.hold.kept ≡ None }
    ensures code { MatchOption handle.old.hold.kept (result ≡ 7) (λ _. result ≡ 0) }
{
    if !handle.is_open() {
        return Reason::NotOpen.code();
    }
    drop(handle.take(alloc));
    0
}

/// Replaces the bytes from `start` to just before `end` with `text`.
pub fn edit(alloc: Global, handle: &mut Handle, start: usize, end: usize, text: &[u8]) -> u32
    ensures done { result ≡ 0 → Turns handle.old.hold.kept handle.new.hold.kept
        (IsEdited start end text.now) }
    ensures refused { result ≢ 0 → HasReason (RefusesOpen handle.old.hold.kept
        (λ kept. RefusesEdit kept.document kept.ids start end text.now)) result }
    ensures not_open { handle.old.hold.kept ≡ None → result ≡ 7 }
    ensures kept { result ≢ 0 → handle.new.hold.kept ≡ handle.old.hold.kept }
{
    if !handle.is_open() {
        return Reason::NotOpen.code();
    }
    let mut kept = handle.take(alloc);
    let done = kept.edit(alloc, start, end, text);
    handle.fill(kept);
    match done {
        Ok(()) => 0,
        Err(reason) => reason.code(),
    }
}

/// Makes the changes of one commit, given as JSON.
pub fn commit(alloc: Global, handle: &mut Handle, command: &[u8]) -> u32
    ensures done { result ≡ 0 → Turns handle.old.hold.kept handle.new.hold.kept (CommitsTo command.now) }
    ensures refused { result ≢ 0 → IsUncommitted handle.old.hold.kept handle.new.hold.kept command.now result }
    ensures not_open { handle.old.hold.kept ≡ None → result ≡ 7 }
    ensures kept { result ≢ 0 → KeepsText handle.old.hold.kept handle.new.hold.kept }
{
    if !handle.is_open() {
        return Reason::NotOpen.code();
    }
    let mut kept = handle.take(alloc);
    let done = kept.commit(alloc, command);
    handle.fill(kept);
    match done {
        Ok(()) => 0,
        Err(reason) => reason.code(),
    }
}

/// Renames each identifier `old` to `new`.
pub fn rename(alloc: Global, handle: &mut Handle, old: &[u8], new: &[u8]) -> u32
    ensures done { result ≡ 0 → Turns handle.old.hold.kept handle.new.hold.kept
        (RenamesTo old.now new.now) }
    ensures refused { result ≢ 0 → HasReason (RefusesOpen handle.old.hold.kept
        (λ kept. RefusesRenaming kept.document kept.ids old.now new.now)) result }
    ensures not_open { handle.old.hold.kept ≡ None → result ≡ 7 }
    ensures kept { result ≢ 0 → KeepsText handle.old.hold.kept handle.new.hold.kept }
{
    if !handle.is_open() {
        return Reason::NotOpen.code();
    }
    let mut kept = handle.take(alloc);
    let done = kept.rename(alloc, old, new);
    handle.fill(kept);
    match done {
        Ok(()) => 0,
        Err(reason) => reason.code(),
    }
}
