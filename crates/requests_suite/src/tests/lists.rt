//! Lists of commands, as a caller gives them to a document of its own.
use document_requests::apply::apply;
use document_requests::{Change, Command, Entry, Op, Refusal, Reply, Target};
use parser_input::edition::Edition;
use parser_input::syntax_kind::SyntaxKind;
use rust_document::Document;
use std::alloc::{AllocError, Global};
use std::test::Fail;
use syntax_tree::TreeIds;

/// The command that puts a name for the one from byte 7 on.
fn rename(alloc: Global, stop: u64, text: &str) -> Result<Command<'_>, AllocError> {
    let target = Target {
        kind: SyntaxKind::IDENT,
        start: 7,
        stop,
    };
    let change = Change::Put {
        op: Op::Replace,
        target,
        entry: Entry::Token,
        text,
    };
    Ok(Command::Commit {
        changes: vec![in alloc; change]?,
    })
}

/// Applies a list, then another. Nothing is known of the document but that it is one.
fn apply_both(
    alloc: Global,
    document: &mut Document,
    first: &[Command<'_>],
    second: &[Command<'_>],
    ids: &mut TreeIds,
) -> Result<Vec<Reply>, AllocError> {
    let mut replies = Vec::new(alloc);
    apply(alloc, document, first, &mut replies, ids)?;
    apply(alloc, document, second, &mut replies, ids)?;
    Ok(replies)
}

#[test]
fn two_lists_one_after_another(rt: HostRuntime) -> Result<(), Fail> {
    let alloc = rt.alloc();
    let mut ids = TreeIds::new();
    let mut document = Document::open(alloc, Edition::Edition2021, "struct S;", &mut ids)?;
    let first = vec![in alloc; rename(alloc, 8, "Tee")?]?;
    let second = vec![in alloc; rename(alloc, 8, "U")?, rename(alloc, 10, "U")?]?;
    let replies = apply_both(alloc, &mut document, &first, &second, &mut ids)?;
    let is_renamed = document.text() == "struct U;";
    drop(document);
    assert!(rt; is_renamed & (replies.len() == 3));
    Ok(())
}

/// Where no tree number is left, a commit needs one too many, for what it puts or for the new tree; the document stays.
#[test]
fn no_tree_number_is_left(rt: HostRuntime) -> Result<(), Fail> {
    let alloc = rt.alloc();
    let mut ids = TreeIds::starting_at(4_294_967_294);
    let mut document = Document::open(alloc, Edition::Edition2021, "struct S;", &mut ids)?;
    let edit = Command::Edit {
        start: 0,
        stop: 0,
        text: " ",
    };
    let nothing = Command::Commit {
        changes: Vec::new(alloc),
    };
    let commands = vec![in alloc;
        rename(alloc, 8, "T")?,
        rename(alloc, 8, "T")?,
        rename(alloc, 8, "a b")?,
        nothing,
        edit,
    ]?;
    let mut replies = Vec::new(alloc);
    apply(alloc, &mut document, &commands, &mut replies, &mut ids)?;
    let is_kept = document.text() == "struct S;";
    drop(document);
    assert!(rt; is_kept & (replies.len() == 5));
    for (number, reply) in replies.iter().enumerate() {
        let is_told = if number == 2 {
            matches!(reply, Reply::Refused(Refusal::Payload))
        } else {
            matches!(reply, Reply::Refused(Refusal::NoTreeNumber))
        };
        assert!(rt; is_told);
    }
    Ok(())
}
