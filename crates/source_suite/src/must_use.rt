//! The tool that adds `#[must_use]`.
use must_use_tool::add_must_use;
use rust_source::{Edition, Source};
use std::test::Fail;

/// A text, what it becomes, and the number of attributes; `None` if it is left as it is.
const ROWS: &[(&str, &str, Option<usize>)] = &[
    (
        "pub fn f() -> u8 { 1 }\nmod m {\n    /// Doc.\n    #[inline]\n    pub fn g<T>(a: T) -> T { a }\n    fn h() -> u8 { 2 }\n    pub fn i() {}\n}\n",
        "#[must_use]\npub fn f() -> u8 { 1 }\nmod m {\n    /// Doc.\n    #[inline]\n    #[must_use]\n    pub fn g<T>(a: T) -> T { a }\n    fn h() -> u8 { 2 }\n    pub fn i() {}\n}\n",
        Some(2),
    ),
    (
        "impl S {\n\t#[must_use = \"x\"]\n\tpub const fn h(&self) -> Self { S }\n\n\tpub unsafe fn g(&self) -> u8 { 1 }\n\tpub(crate) fn k() -> u8 { 1 }\n}\n",
        "impl S {\n\t#[must_use = \"x\"]\n\tpub const fn h(&self) -> Self { S }\n\n\t#[must_use]\n\tpub unsafe fn g(&self) -> u8 { 1 }\n\tpub(crate) fn k() -> u8 { 1 }\n}\n",
        Some(1),
    ),
    (
        "pub async fn f() -> u8 { 1 }\npub fn g() -> u8 { 1 }\n",
        "#[must_use]\npub async fn f() -> u8 { 1 }\n#[must_use]\npub fn g() -> u8 { 1 }\n",
        Some(2),
    ),
    // The text has messages.
    (
        "pub fn f() -> u8 { 1 + }\npub fn g() -> u8 { 1 }\n",
        "pub fn f() -> u8 { 1 + }\npub fn g() -> u8 { 1 }\n",
        None,
    ),
];

#[test]
fn attributes_are_put(rt: HostRuntime) -> Result<(), Fail> {
    for (text, wanted, count) in ROWS {
        let mut source = Source::open(rt.alloc(), Edition::Edition2021, *text)?;
        let put = add_must_use(&mut source).ok();
        let is_right = (put == *count) & (source.text() == *wanted);
        drop(source);
        assert!(rt; is_right);
    }
    Ok(())
}
