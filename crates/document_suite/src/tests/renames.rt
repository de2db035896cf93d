//! Renames: an identifier is replaced with another one.
use super::commits::{commit, is_answer, put};
use super::opening::has_errors;
use super::{Place, has_text, spaces};
use parser_input::edition::Edition;
use parser_input::syntax_kind::SyntaxKind;
use rust_document::{CommitError, Document, MAX_TEXT, PayloadEntry, SyntaxEditor, payload};
use std::alloc::Global;
use std::test::Fail;
use syntax_tree::{SyntaxElement, TreeIds};

/// A name in a text, the token that replaces it, the answer, and the text and messages after it.
#[derive(Clone, Copy)]
struct Rename {
    text: &'static str,
    name: (u32, u32),
    new: &'static str,
    answer: Result<(u32, u32), CommitError>,
    then: &'static str,
    errors: &'static [(usize, &'static str)],
}

/// Returns `true` if a rename is answered as its row says, in an edition, and the document tells
/// beforehand that it is plain, or that it is not.
fn is_renamed(alloc: Global, edition: Edition, row: &Rename, is_plain: bool) -> Result<bool, Fail> {
    let mut ids = TreeIds::new();
    let mut document = Document::open(alloc, edition, row.text, &mut ids)?;
    let name: Place = (SyntaxKind::IDENT, row.name.0, row.name.1);
    let editor = put(alloc, &document, name, (edition, row.new), &mut ids)?;
    if document.is_plain_rename(alloc, &editor)? != is_plain {
        return Ok(false);
    }
    let answer = commit(alloc, &mut document, editor, &mut ids);
    let answered = is_answer(answer, row.answer);
    Ok(answered & has_text(&document, row.then) & has_errors(alloc, &document, row.errors)?)
}

const EDITIONS: &[Edition] = &[
    Edition::Edition2015,
    Edition::Edition2018,
    Edition::Edition2021,
    Edition::Edition2024,
    Edition::EditionNext,
];

/// Renames of plain identifiers, in texts with messages too.
const PLAIN: &[Rename] = &[
    Rename {
        text: "fn f( {}",
        name: (3, 4),
        new: "g",
        answer: Ok((3, 4)),
        then: "fn g( {}",
        errors: &[(5, "expected R_PAREN")],
    },
    Rename {
        text: "1.x",
        name: (2, 3),
        new: "e5",
        answer: Ok((2, 4)),
        then: "1.e5",
        errors: &[
            (0, "expected an item"),
            (1, "expected an item"),
            (4, "expected an item"),
        ],
    },
];

#[test]
fn plain_renames_are_accepted(rt: HostRuntime) -> Result<(), Fail> {
    for edition in EDITIONS {
        for row in PLAIN {
            assert!(rt;
                is_renamed(rt.alloc(), *edition, row, true)?,
                "{}",
                row.then
            );
        }
    }
    Ok(())
}

/// Renames that change the tokens around the name, since one of the two is no plain identifier.
const OTHERS: &[Rename] = &[
    Rename {
        text: "foo\"x\"",
        name: (0, 3),
        new: "r",
        answer: Err(CommitError::Unfaithful),
        then: "foo\"x\"",
        errors: &[
            (3, "expected an item"),
            (3, "expected an item"),
            (0, "unknown prefix"),
        ],
    },
    Rename {
        text: "r#foo\"x\"",
        name: (0, 5),
        new: "r",
        answer: Err(CommitError::Unfaithful),
        then: "r#foo\"x\"",
        errors: &[(5, "expected an item"), (5, "expected an item")],
    },
    Rename {
        text: "r#foo\"x\"",
        name: (0, 5),
        new: "bar",
        answer: Ok((0, 3)),
        then: "bar\"x\"",
        errors: &[
            (3, "expected an item"),
            (3, "expected an item"),
            (0, "unknown prefix"),
        ],
    },
];

#[test]
fn other_renames_are_compared(rt: HostRuntime) -> Result<(), Fail> {
    for row in OTHERS {
        assert!(rt;
            is_renamed(rt.alloc(), Edition::Edition2021, row, false)?,
            "{}",
            row.text
        );
    }
    Ok(())
}

/// An editor that replaces each token of a text with another one.
fn replaced(
    alloc: Global,
    document: &Document,
    mut editor: SyntaxEditor,
    old: &str,
    new: &SyntaxElement,
) -> Result<SyntaxEditor, Fail> {
    for element in document.root().descendants_with_tokens(alloc)? {
        let element = element?;
        let is_old = match &element {
            SyntaxElement::Token(token) => token.text() == old,
            SyntaxElement::Node(_) => false,
        };
        if is_old {
            editor.replace(alloc, &element, new)?;
        }
    }
    Ok(editor)
}

/// Renames all tokens `a` of a text to `bc`. Returns the text afterwards.
fn renamed(alloc: Global, edition: Edition, text: &str) -> Result<Document, Fail> {
    let mut ids = TreeIds::new();
    let mut document = Document::open(alloc, edition, text, &mut ids)?;
    let new = payload(alloc, PayloadEntry::Token, edition, "bc", &mut ids)?;
    let editor = document.editor(alloc)?;
    let editor = replaced(alloc, &document, editor, "a", &new)?;
    document.commit(alloc, editor, &mut ids)?;
    Ok(document)
}

/// Texts with several names `a`, and with each of them renamed.
const SEVERAL: &[(&str, &str)] = &[
    ("fn f(a: u8) { a + a }", "fn f(bc: u8) { bc + bc }"),
    ("fn a( { a.a.1.a ; a!(a", "fn bc( { bc.bc.1.bc ; bc!(bc"),
    ("#!/* a\n*/ [a", "#!/* a\n*/ [bc"),
];

fn is_each_renamed(alloc: Global, edition: Edition, text: &str, to: &str) -> Result<bool, Fail> {
    let document = renamed(alloc, edition, text)?;
    Ok(has_text(&document, to))
}

#[test]
fn several_names_are_renamed_at_once(rt: HostRuntime) -> Result<(), Fail> {
    for edition in EDITIONS {
        for (text, to) in SEVERAL {
            assert!(rt; is_each_renamed(rt.alloc(), *edition, text, to)?, "{to}");
        }
    }
    Ok(())
}

/// Renames the name after `count` spaces to one of two bytes.
fn renamed_at_the_limit(alloc: Global, count: usize) -> Result<Option<CommitError>, Fail> {
    let mut ids = TreeIds::starting_at(2);
    let mut text = spaces(alloc, count)?;
    text.push('a')?;
    let edition = Edition::Edition2021;
    let mut document = Document::open(alloc, edition, text.as_str(), &mut ids)?;
    let end = u32::try_from(count).unwrap_or(0);
    let name: Place = (SyntaxKind::IDENT, end, end.saturating_add(1));
    let editor = put(alloc, &document, name, (edition, "bc"), &mut ids)?;
    Ok(commit(alloc, &mut document, editor, &mut ids).err())
}

#[test]
fn a_rename_stays_within_the_limit(rt: HostRuntime) -> Result<(), Fail> {
    assert!(rt; renamed_at_the_limit(rt.alloc(), MAX_TEXT - 2)?.is_none());
    assert!(rt; renamed_at_the_limit(rt.alloc(), MAX_TEXT - 1)? == Some(CommitError::TooLong));
    Ok(())
}
