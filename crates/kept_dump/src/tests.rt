//! Tests what contracts leave open: that calls succeed while allocations do, and worked edits.

use lexed_text::{Kept, LexedText};
use rustc_lexer::tokenize;
use std::alloc::{AllocError, Global};
use std::ops::Range;
use std::process::Abort;

/// An edit's counts: the tokens kept in front, those lexed, and those kept after.
type Counts = (usize, usize, usize);

/// Edits a text, and checks the counts.
fn expect(
    rt: &impl Abort,
    alloc: Global,
    text: &str,
    range: Range<usize>,
    put: &str,
    counts: Counts,
) -> Result<(), AllocError> {
    let (front, lexed, back) = counts;
    let start = range.start;
    let end = range.end;
    let mut found = LexedText::new(alloc, text)?;
    let mut agrees = false;
    if found.can_edit(start..end, put.len()) {
        let kept = found.edit(start..end, put)?;
        agrees = kept == Kept { front, lexed, back };
    }
    assert!(rt; agrees, "the edit of {text}");
    Ok(())
}

#[test]
fn edits_are_counted(rt: HostRuntime) -> Result<(), AllocError> {
    let alloc = rt.alloc();
    expect(&rt, alloc, "", 0..0, "", (0, 0, 0))?;
    expect(&rt, alloc, "a b", 0..0, "", (0, 0, 3))?;
    expect(&rt, alloc, "a b c d", 2..3, "bb", (0, 3, 4))?;
    expect(&rt, alloc, "1.x", 2..3, "5", (0, 1, 0))?;
    expect(&rt, alloc, "struct S; struct T;", 9..9, "//", (2, 3, 0))?;
    expect(&rt, alloc, "a\u{2028}x", 4..5, "y", (0, 3, 0))?;
    expect(&rt, alloc, "fn f() { x.0.1; }", 13..14, "", (10, 1, 3))
}

/// Returns `true` if a text of `new_len` bytes can replace `range` of `aé\u{2028}b`, in which
/// characters start at 0, 1, 3 and 6.
fn can_edit(alloc: Global, range: Range<usize>, new_len: usize) -> Result<bool, AllocError> {
    let text = LexedText::new(alloc, "aé\u{2028}b")?;
    Ok(text.can_edit(range, new_len))
}

#[test]
fn ranges_are_edits_or_none(rt: HostRuntime) -> Result<(), AllocError> {
    let alloc = rt.alloc();
    let whole = can_edit(alloc, 0..7, 3)?;
    let empty = can_edit(alloc, 7..7, 0)?;
    let longest = can_edit(alloc, 1..6, usize::MAX - 2)?;
    assert!(rt; whole && empty && longest, "an edit is refused");
    let reversed = can_edit(alloc, 3..1, 0)?;
    let past = can_edit(alloc, 7..8, 0)?;
    let far = can_edit(alloc, 0..usize::MAX, 0)?;
    assert!(rt; !reversed && !past && !far, "a range is taken");
    let cut_start = can_edit(alloc, 2..3, 0)?;
    let cut_end = can_edit(alloc, 3..5, 0)?;
    assert!(rt; !cut_start && !cut_end, "a character is cut");
    let too_long = can_edit(alloc, 1..6, usize::MAX - 1)?;
    assert!(rt; !too_long, "a text that is too long is taken");
    Ok(())
}

/// Returns `true` if the tokens of `text` are those that the lexer finds in it.
fn is_lexed(text: &LexedText) -> bool {
    let mut wanted = tokenize(text.text());
    for token in text.tokens() {
        if wanted.next() != Some(*token) {
            return false;
        }
    }
    wanted.next().is_none()
}

#[test]
fn copies_are_apart(rt: HostRuntime) -> Result<(), AllocError> {
    let alloc = rt.alloc();
    let mut text = LexedText::new(alloc, "let x = 1;")?;
    let copy = text.try_clone(alloc)?;
    if text.can_edit(8..9, 3) {
        text.edit(8..9, "2.5")?;
    }
    assert!(rt;
        text.text() == "let x = 2.5;" && is_lexed(&text),
        "the edited text"
    );
    assert!(rt; copy.text() == "let x = 1;" && is_lexed(&copy), "its copy");
    Ok(())
}

/// The texts that are inserted at random: they start, end or join tokens.
const PIECES: [&str; 16] = [
    "", " ", "\n", "a", "é", "1", ".", "'", "\"", "/", "/*", "*/", "//", "r#\"", "#", "\u{2028}",
];

/// Returns the next pseudorandom number.
fn next(state: &mut u64) -> usize {
    let new = state.wrapping_mul(6_364_136_223_846_793_005);
    *state = new.wrapping_add(1_442_695_040_888_963_407);
    (*state >> 33) as usize
}

#[test]
fn a_thousand_edits_end_in_the_texts_tokens(rt: HostRuntime) -> Result<(), AllocError> {
    let mut text = LexedText::new(rt.alloc(), "fn f(x: &str) { x.0.1; /* é */ }\n")?;
    let mut state = 1;
    let mut made = 0u32;
    for _ in 0..1000 {
        let start = next(&mut state) % (text.text().len() + 1);
        let end = start.saturating_add(next(&mut state) % 4);
        let put = PIECES[next(&mut state) % 16];
        if text.can_edit(start..end, put.len()) {
            text.edit(start..end, put)?;
            made = made.saturating_add(1);
        }
    }
    assert!(rt; made > 500, "most of the ranges are edits");
    assert!(rt; is_lexed(&text), "the tokens after {made} edits");
    Ok(())
}

/// Returns a text of `count` structs, each a line of five tokens.
fn structs(alloc: Global, count: usize) -> Result<String, AllocError> {
    let mut text = String::new(alloc);
    for _ in 0..count {
        text.push_str("struct S;\n")?;
    }
    Ok(text)
}

/// Inserts `put` at `at`, and repeats the edit once if it is out of memory. Checks that text and
/// tokens are unchanged after an error.
fn edit_again(
    rt: &impl Abort,
    text: &mut LexedText,
    at: usize,
    put: &str,
    before: &str,
) -> Result<Counts, AllocError> {
    for _ in 0..2 {
        if !text.can_edit(at..at, put.len()) {
            break;
        }
        if let Ok(kept) = text.edit(at..at, put) {
            return Ok((kept.front, kept.lexed, kept.back));
        }
        assert!(rt; text.text() == before && is_lexed(text), "a refused edit");
    }
    Err(AllocError)
}

/// Lexes, edits and copies a text of several runs of tokens. With any one allocation failing, the
/// result is the same: `bench/refused.py` tries each in turn.
#[test]
fn refused_calls_change_nothing(rt: HostRuntime) -> Result<(), AllocError> {
    let alloc = rt.alloc();
    let source = match structs(alloc, 1500) {
        Ok(source) => source,
        Err(_) => structs(alloc, 1500)?,
    };
    let mut text = match LexedText::new(alloc, source.as_str()) {
        Ok(text) => text,
        Err(_) => LexedText::new(alloc, source.as_str())?,
    };
    let counts = edit_again(&rt, &mut text, 5000, "x y ", source.as_str())?;
    assert!(rt;
        counts == (2498, 6, 5000) && is_lexed(&text),
        "the edited text"
    );
    let copy = match text.try_clone(alloc) {
        Ok(copy) => copy,
        Err(_) => text.try_clone(alloc)?,
    };
    assert!(rt; copy.text() == text.text() && is_lexed(&copy), "its copy");
    Ok(())
}
