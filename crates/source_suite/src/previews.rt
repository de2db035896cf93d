//! Tests of previews, and of the ranges of messages.
use rust_source::{
    ChangedRange, Edition, Source, SyntaxElement, SyntaxKind, SyntaxMessage, TextRange, TextSize,
};
use std::test::Fail;

const TEXT: &str = "struct A; struct B;";

#[test]
fn changed_ranges_stand_beside_each_other(rt: HostRuntime) -> Result<(), Fail> {
    let mut source = Source::open(rt.alloc(), Edition::Edition2021, TEXT)?;
    let first = source.make_token(SyntaxKind::IDENT, "First")?;
    let second = source.make_token(SyntaxKind::IDENT, "Second")?;
    let mut editor = source.editor()?;
    if let Some(name) = source.find(SyntaxKind::IDENT, TextRange::new(TextSize(7), TextSize(8)))? {
        editor.replace(source.alloc(), &name, &SyntaxElement::Token(first))?;
    }
    if let Some(name) = source.find(
        SyntaxKind::IDENT,
        TextRange::new(TextSize(17), TextSize(18)),
    )? {
        editor.replace(source.alloc(), &name, &SyntaxElement::Token(second))?;
    }
    let preview = source.preview(&editor)?;
    let wanted = [
        ChangedRange {
            before: TextRange::new(TextSize(7), TextSize(8)),
            after: TextRange::new(TextSize(7), TextSize(12)),
        },
        ChangedRange {
            before: TextRange::new(TextSize(17), TextSize(18)),
            after: TextRange::new(TextSize(21), TextSize(27)),
        },
    ];
    let is_right = (preview.text.as_str() == "struct First; struct Second;")
        & (preview.changed.as_slice() == wanted.as_slice())
        & (source.text() == TEXT);
    drop(source);
    assert!(rt; is_right);
    Ok(())
}

#[test]
fn deleted_range_stands_beside_an_empty_one(rt: HostRuntime) -> Result<(), Fail> {
    let source = Source::open(rt.alloc(), Edition::Edition2021, TEXT)?;
    let mut editor = source.editor()?;
    if let Some(item) = source.find(
        SyntaxKind::STRUCT,
        TextRange::new(TextSize(10), TextSize(19)),
    )? {
        editor.delete(source.alloc(), &item)?;
    }
    let preview = source.preview(&editor)?;
    let wanted = [ChangedRange {
        before: TextRange::new(TextSize(10), TextSize(19)),
        after: TextRange::new(TextSize(10), TextSize(10)),
    }];
    let is_right = (preview.text.as_str() == "struct A; ")
        & (preview.changed.as_slice() == wanted.as_slice());
    drop(source);
    assert!(rt; is_right);
    Ok(())
}

#[test]
fn nothing_recorded_changes_no_range(rt: HostRuntime) -> Result<(), Fail> {
    let source = Source::open(rt.alloc(), Edition::Edition2021, TEXT)?;
    let editor = source.editor()?;
    let preview = source.preview(&editor)?;
    let is_right = (preview.text.as_str() == TEXT) & preview.changed.is_empty();
    drop(source);
    assert!(rt; is_right);
    Ok(())
}

#[test]
fn message_about_a_token_ends_with_it(rt: HostRuntime) -> Result<(), Fail> {
    let source = Source::open(rt.alloc(), Edition::Edition2021, "const A: u8 = 0x; fn")?;
    let mut is_found = false;
    let mut is_right = true;
    for ranged in source.ranged_errors()? {
        let place = ranged.error.offset;
        match ranged.error.message {
            SyntaxMessage::Parser(_) => is_right &= ranged.end == place,
            SyntaxMessage::Lexer(_) => is_found |= (place == 14) & (ranged.end == 16),
        }
    }
    drop(source);
    assert!(rt; is_right & is_found);
    Ok(())
}
