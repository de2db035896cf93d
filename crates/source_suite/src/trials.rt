//! Tests of commits that are only tried.
use rust_source::{
    CommitError, Edition, Source, SyntaxEditor, SyntaxElement, SyntaxKind, TextRange, TextSize,
};
use std::test::Fail;

const TEXT: &str = "struct S;";

/// Returns an editor of the source with a token in place of the name of its struct.
fn renamed(source: &mut Source, kind: SyntaxKind, text: &str) -> Result<SyntaxEditor, Fail> {
    let token = source.make_token(kind, text)?;
    let mut editor = source.editor()?;
    if let Some(name) = source.find(SyntaxKind::IDENT, TextRange::new(TextSize(7), TextSize(8)))? {
        editor.replace(source.alloc(), &name, &SyntaxElement::Token(token))?;
    }
    Ok(editor)
}

#[test]
fn a_trial_gives_the_new_text(rt: HostRuntime) -> Result<(), Fail> {
    let mut source = Source::open(rt.alloc(), Edition::Edition2021, TEXT)?;
    let editor = renamed(&mut source, SyntaxKind::IDENT, "Tee")?;
    let text = source.try_commit(&editor)?;
    let is_right = (text.as_str() == "struct Tee;") & (source.text() == TEXT);
    drop(source);
    assert!(rt; is_right);
    Ok(())
}

#[test]
fn a_trial_is_refused_as_a_commit_is(rt: HostRuntime) -> Result<(), Fail> {
    let mut source = Source::open(rt.alloc(), Edition::Edition2021, TEXT)?;
    let editor = renamed(&mut source, SyntaxKind::IDENT, "struct")?;
    let is_right = match source.try_commit(&editor) {
        Ok(_text) => false,
        Err(error) => error == CommitError::Unfaithful,
    };
    drop(source);
    assert!(rt; is_right);
    Ok(())
}
