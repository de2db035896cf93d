//! Texts at the limit, and past it.
use super::{is_answered, is_done};
use rust_document::MAX_TEXT;
use std::alloc::{AllocError, Global};
use std::test::Fail;

const TOO_LONG: &str = "{\"err\":\"TooLong\"}\n";

/// Returns `text` after `count` spaces.
fn after_spaces(alloc: Global, count: usize, text: &str) -> Result<String, AllocError> {
    let mut whole = String::with_capacity(alloc, count)?;
    for _ in 0..count {
        whole.push(' ')?;
    }
    whole.push_str(text)?;
    Ok(whole)
}

/// Whether the text is refused, and before that a command that is none.
fn is_too_long(alloc: Global, text: &str) -> Result<bool, Fail> {
    let start = r#"{"edition":"2021","text":""#;
    let request = format!(in alloc; r#"{start}{text}","commands":[]}}"#)?;
    let broken = format!(in alloc; r#"{start}{text}","commands":[7]}}"#)?;
    let no_request = "{\"err\":\"Request\"}\n";
    let is_refused = is_answered(alloc, request.as_bytes(), TOO_LONG, 1)?;
    Ok(is_refused & is_answered(alloc, broken.as_bytes(), no_request, 1)?)
}

#[test]
fn a_text_past_the_limit(rt: HostRuntime) -> Result<(), Fail> {
    let alloc = rt.alloc();
    let text = after_spaces(alloc, MAX_TEXT - 8, "struct S;")?;
    assert!(rt; is_too_long(alloc, &text)?);
    Ok(())
}

/// Where a text is at the limit, what makes it longer is refused, and nothing else.
#[test]
fn commands_at_the_limit(rt: HostRuntime) -> Result<(), Fail> {
    let alloc = rt.alloc();
    let text = after_spaces(alloc, MAX_TEXT - 9, "struct S;")?;
    let rest = after_spaces(alloc, MAX_TEXT - 10, "struct S;")?;
    let at = format!(in alloc; "[\"IDENT\",{},{}]", MAX_TEXT - 2, MAX_TEXT - 1)?;
    let commands = format!(in alloc;
        r#"{{"do":"edit","start":0,"end":0,"text":"x"}},{{"do":"commit","changes":[{{"op":"replace","at":{at},"with":["token","Tee"]}}]}},{{"do":"edit","start":0,"end":1,"text":";"}}"#
    )?;
    let expected = format!(in alloc; "{TOO_LONG}{TOO_LONG}{{\"ok\":\"edit\"}}\n;{rest}")?;
    assert!(rt; is_done(alloc, &text, &commands, &expected)?);
    Ok(())
}
