//! Tests what contracts leave open: that a case with the expected result passes, and that one with
//! another result fails.

use crate::is_met;

#[test]
fn a_case_that_is_met(rt: HostRuntime) -> anyhow::Result<()> {
    let alloc = rt.alloc();
    let met = is_met(
        alloc,
        r#"{"edition": "2015", "entry": "Type", "text": "!", "tree": ["NEVER_TYPE@0..1", "  BANG@0..1"], "messages": []}"#,
    )?;
    assert!(rt; met);
    Ok(())
}

#[test]
fn cases_that_are_not_met(rt: HostRuntime) -> anyhow::Result<()> {
    let alloc = rt.alloc();
    for case in [
        r#"{"edition": "2015", "entry": "Type", "text": "!", "tree": ["NEVER_TYPE@0..1"], "messages": []}"#,
        r#"{"edition": "2015", "entry": "Pattern", "text": "_", "tree": ["WILDCARD_PAT@0..1", " UNDERSCORE@0..1"], "messages": []}"#,
        r#"{"edition": "2015", "entry": "Type", "text": "!", "tree": ["NEVER_TYPE@0..1", "  BANG@0..1"], "messages": [[0, "expected a type"]]}"#,
    ] {
        assert!(rt; !is_met(alloc, case)?, "at {case}");
    }
    Ok(())
}

#[test]
fn lines_that_are_no_case(rt: HostRuntime) {
    let alloc = rt.alloc();
    for line in [
        "",
        "{}",
        r#"{"edition": "2020", "entry": "Type", "text": "!", "tree": [], "messages": []}"#,
        r#"{"edition": "2015", "entry": "Ty", "text": "!", "tree": [], "messages": []}"#,
        r#"{"edition": "2015", "entry": "Type", "text": "!", "tree": [1], "messages": []}"#,
        r#"{"edition": "2015", "entry": "Type", "text": "!", "tree": [], "messages": [[]]}"#,
    ] {
        assert!(rt; is_met(alloc, line).is_err(), "at {line}");
    }
}
