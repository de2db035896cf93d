//! Requests that are no text.
use super::is_answered;
use std::test::Fail;

#[test]
fn no_text(rt: HostRuntime) -> Result<(), Fail> {
    let cases: [&[u8]; 2] = [
        b"\xff",
        b"{\"edition\":\"2021\",\"text\":\"\xff\",\"commands\":[]}",
    ];
    for request in &cases {
        assert!(rt; is_answered(rt.alloc(), request, "{\"err\":\"Request\"}\n", 1)?);
    }
    Ok(())
}
