//! Which Rust is read without a message: the two tables of `docs/GUIDE.md`, row by row (`gate/guide_test.py` compares them).
use parser_input::edition::Edition;
use rust_document::Document;
use std::alloc::Global;
use std::test::Fail;
use syntax_tree::TreeIds;

/// Texts of edition 2024 that are read without a message.
const READ: &[&str] = &[
    "use a::{self, b as c, d::*};",
    "mod a; mod b { }",
    "pub struct A { pub(crate) a: u8 } struct B(u8); struct C;",
    "fn f<'a, T: Clone + 'a>(a: &'a T) -> T where T: Copy { a.clone() }",
    "struct A<T = u8>(T);",
    "trait T: Clone { type A: Copy; const B: u8; fn f(&self) {} }",
    "impl<T> A<T> { } impl B for A<u8> { type C = u8; fn f(&mut self) {} }",
    "unsafe fn f() {} const fn g() {}",
    "const A: u8 = 1; static mut B: u8 = 2;",
    "type A<T> = Vec<T>;",
    "a! { } fn f() { b!(1); let x = c![2]; }",
    "#![allow(a)]",
    "pub(crate) struct A; pub(in a::b) struct B;",
    "fn f(a: &mut u8, b: *const u8, c: &[u8], d: [u8; 4], e: (u8, u8)) {}",
    "fn f(a: impl A + B, b: &dyn C) {}",
    "fn f<T: ?Sized>() {}",
    "fn f(a: impl Iterator<Item = u8>) {}",
    "fn f() { a::<u8>::b::<u16>(); }",
    "fn f() -> ! { let x: _ = 1; }",
    "fn f() { let Some(a) = b else { return }; }",
    "fn f() { if let Some(a) = b { } while let Some(c) = d { } }",
    "fn f() { if let Some(a) = b && c { } }",
    "fn f() { match a { 1 | 2 if b => {}, _ => c, } }",
    "fn f() { let A { a, b: c, .. } = d; let (e, _) = g; let [h, ..] = i; let j @ _ = k; let &l = m; }",
    "fn f() { loop { break; } while a { continue; } for b in c { } }",
    "fn f() { let a = |x: u8| x + 1; let b = move || 2; }",
    "fn f() { A { a: 1, b, ..c }; }",
    "fn f() { a(1)?.b::<u8>(2).c[3].0; }",
    "fn f() { a = b + c as u8 * -d; e += 1; f..=g; ..; !h && i; }",
    "fn f() { loop { break 1; } return 2; }",
    "fn f() { unsafe { a } { b } }",
    "fn f() { 1u8; 1.5e3; 'a'; b'a'; \"a\"; b\"a\"; c\"a\"; r#\"a\"#; true; }",
    "struct A<T> where T: Clone { a: T }",
    "trait T { type A<'a> where Self: 'a; }",
    "#[derive(Clone)] struct A;",
    "enum E { A, B(u8), C { a: u8 } }",
    "struct A { #[a] b: u8 } enum E { #[a] B }",
    "unsafe trait A {}",
];

/// Texts of edition 2024 that are read with messages.
const READ_WITH_MESSAGES: &[&str] = &[
    "enum E { A = 1 }",
    "union U { a: u8, b: i8 }",
    "struct A<const N: usize>;",
    "async fn f() {}",
    "fn f() { a.await; }",
    "extern \"C\" fn f() {}",
    "extern \"C\" { fn f(); }",
    "extern crate a;",
    "macro_rules! a { () => {} }",
    "fn f(a: t!()) {}",
    "fn f(#[a] b: u8) {}",
    "fn f() { #[a] let x = 1; }",
    "fn f() { g(#[a] 1); }",
    "fn f(a: fn(u8) -> u8) {}",
    "fn f<F: for<'a> A<'a>>() {}",
    "fn f<F: Fn(u8) -> u8>() {}",
    "fn f() { <T as U>::g(); }",
    "fn f() { match a { 1..=2 => {} _ => {} } }",
    "fn f() { let const { 1 } = a; }",
    "fn f() { 'a: loop { break 'a; } }",
    "fn f() { const { 1 }; }",
    "fn f() { _ = 1; }",
    "impl !A for B {}",
    "fn f() -> impl A + use<'a> { }",
    "trait A = B;",
    "auto trait B {}",
    "fn f(a: u8, ...) {}",
    "fn f() { &raw const a; }",
    "fn f() { yield 1; }",
];

/// Returns `true` if a text is read without a message.
fn is_silent(alloc: Global, text: &str) -> Result<bool, Fail> {
    let mut ids = TreeIds::new();
    let document = Document::open(alloc, Edition::Edition2024, text, &mut ids)?;
    Ok(document.errors().is_empty())
}

#[test]
fn the_guide_says_what_is_read(rt: HostRuntime) -> Result<(), Fail> {
    for text in READ {
        assert!(rt; is_silent(rt.alloc(), text)?, "at {text}");
    }
    for text in READ_WITH_MESSAGES {
        assert!(rt; !is_silent(rt.alloc(), text)?, "at {text}");
    }
    Ok(())
}
