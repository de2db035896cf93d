//! The tool that extracts an argument into a variable.
use extract_tool::{Extraction, extract};
use rust_source::{Edition, Source};
use std::test::Fail;

/// A text, the number of the argument, the name, what is answered, and the text then.
type Row = (
    &'static str,
    usize,
    &'static str,
    Option<Extraction>,
    &'static str,
);

const CALLS: &str = "fn f(a: u32) {\n\tg(a, a * 2);\n\th.i(a + 1, (a, a << 3))\n}\n";

const ROWS: &[Row] = &[
    (
        CALLS,
        0,
        "twice",
        Some(Extraction::Done),
        "fn f(a: u32) {\n\tlet twice = a * 2;\n\tg(a, twice);\n\th.i(a + 1, (a, a << 3))\n}\n",
    ),
    (
        CALLS,
        1,
        "next",
        Some(Extraction::Done),
        "fn f(a: u32) {\n\tg(a, a * 2);\n\tlet next = a + 1;\n\th.i(next, (a, a << 3))\n}\n",
    ),
    (CALLS, 2, "b", Some(Extraction::NoArgument), CALLS),
    (CALLS, 0, "a", Some(Extraction::NameIsUsed), CALLS),
    (CALLS, 0, "struct", None, CALLS),
    (
        "const A: u8 = g(1 + 2);",
        0,
        "v",
        Some(Extraction::NoArgument),
        "const A: u8 = g(1 + 2);",
    ),
    (
        "fn f() {\n    'a: while g(1 + 2) {}\n}",
        0,
        "v",
        Some(Extraction::Done),
        "fn f() {\n    let v = 1 + 2;\n    'a: while g(v) {}\n}",
    ),
    // The text has messages.
    (
        "fn f() {\n    while g(1 + 2) { 1 + }\n}",
        0,
        "v",
        None,
        "fn f() {\n    while g(1 + 2) { 1 + }\n}",
    ),
];

#[test]
fn arguments_are_extracted(rt: HostRuntime) -> Result<(), Fail> {
    for (text, number, name, answer, wanted) in ROWS {
        let mut source = Source::open(rt.alloc(), Edition::Edition2021, *text)?;
        let done = extract(&mut source, *number, *name).ok();
        let is_right = (done == *answer) & (source.text() == *wanted);
        drop(source);
        assert!(rt; is_right);
    }
    Ok(())
}
