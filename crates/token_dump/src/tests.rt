//! Tests what contracts leave open: that the definitions are those of Rust's tokens, by worked
//! examples.

use rustc_lexer::{
    Base, Cursor, DocStyle, LiteralKind, Token, TokenKind, is_horizontal_whitespace,
    is_id_continue, is_id_start, is_ident, is_whitespace, strip_shebang, tokenize,
};
use std::process::Abort;

fn token(kind: TokenKind, len: usize) -> Token {
    Token { kind, len }
}

fn literal(kind: LiteralKind, suffix_start: usize, len: usize) -> Token {
    token(TokenKind::Literal { kind, suffix_start }, len)
}

fn int(len: usize) -> Token {
    let kind = LiteralKind::Int {
        base: Base::Decimal,
        empty_int: false,
    };
    literal(kind, len, len)
}

fn expect(rt: &impl Abort, text: &str, wanted: &[Token]) {
    let mut found = tokenize(text);
    for token in wanted {
        assert!(rt; found.next() == Some(*token), "a token of {text}");
    }
    assert!(rt; found.next().is_none(), "the end of {text}");
}

#[test]
fn reads_numbers(rt: HostRuntime) {
    let float = LiteralKind::Float {
        base: Base::Decimal,
        empty_exponent: false,
    };
    expect(&rt, "1.0e+5f32", &[literal(float, 6, 9)]);
    let dot = token(TokenKind::Dot, 1);
    expect(&rt, "1..2", &[int(1), dot, dot, int(1)]);
    let hexadecimal = LiteralKind::Int {
        base: Base::Hexadecimal,
        empty_int: true,
    };
    expect(&rt, "0x", &[literal(hexadecimal, 2, 2)]);
}

#[test]
fn reads_what_a_tick_begins(rt: HostRuntime) {
    let lifetime = |starts_with_number| TokenKind::Lifetime { starts_with_number };
    expect(&rt, "'a", &[token(lifetime(false), 2)]);
    let terminated = LiteralKind::Char { terminated: true };
    expect(&rt, "'ab'", &[literal(terminated, 4, 4)]);
    expect(
        &rt,
        "'1x#",
        &[token(lifetime(true), 3), token(TokenKind::Pound, 1)],
    );
}

#[test]
fn reads_strings(rt: HostRuntime) {
    expect(
        &rt,
        "r##\"a\"#",
        &[literal(LiteralKind::RawStr { n_hashes: None }, 7, 7)],
    );
    expect(
        &rt,
        "br#x",
        &[literal(LiteralKind::RawByteStr { n_hashes: None }, 4, 4)],
    );
    expect(
        &rt,
        "\"a\\\"",
        &[literal(LiteralKind::Str { terminated: false }, 4, 4)],
    );
}

#[test]
fn reads_names_and_comments(rt: HostRuntime) {
    let prefix = token(TokenKind::UnknownPrefix, 1);
    expect(
        &rt,
        "k#x",
        &[
            prefix,
            token(TokenKind::Pound, 1),
            token(TokenKind::Ident, 1),
        ],
    );
    expect(
        &rt,
        "////a",
        &[token(TokenKind::LineComment { doc_style: None }, 5)],
    );
    let block = TokenKind::BlockComment {
        doc_style: None,
        terminated: true,
    };
    expect(&rt, "/**/", &[token(block, 4)]);
    let character = LiteralKind::Char { terminated: true };
    expect(
        &rt,
        "/* /* */ */'a'",
        &[token(block, 11), literal(character, 3, 3)],
    );
    let inner = TokenKind::LineComment {
        doc_style: Some(DocStyle::Inner),
    };
    expect(&rt, "//! é", &[token(inner, 6)]);
}

#[test]
fn counts_hashes_up_to_a_byte(rt: HostRuntime) {
    let hashes = "################################################################";
    let alloc = rt.alloc();
    let most = format!(in alloc;
        "r{hashes}{hashes}{hashes}{}\"\"{hashes}{hashes}{hashes}{}",
        &hashes[1..],
        &hashes[1..]
    );
    if let Ok(text) = most {
        expect(
            &rt,
            text.as_str(),
            &[literal(
                LiteralKind::RawStr {
                    n_hashes: Some(255),
                },
                513,
                513,
            )],
        );
    }
    let more = format!(in alloc;
        "r{hashes}{hashes}{hashes}{hashes}\"\"{hashes}{hashes}{hashes}{hashes}"
    );
    if let Ok(text) = more {
        expect(
            &rt,
            text.as_str(),
            &[literal(LiteralKind::RawStr { n_hashes: None }, 515, 515)],
        );
    }
}

#[test]
fn tells_shebangs(rt: HostRuntime) {
    assert_eq!(rt;
        strip_shebang("#! /* blah\nblah\nblah */  /bin/bash"),
        Some(10)
    );
    assert_eq!(rt; strip_shebang("#!/bin/sh\r\nfn f() {}"), Some(9));
    assert_eq!(rt; strip_shebang("#!\n // note\n [attribute]"), None);
    assert_eq!(rt;
        strip_shebang("#!\n /// documentation\n [attribute]"),
        Some(2)
    );
    assert_eq!(rt; strip_shebang(" #!/bin/sh"), None);
}

#[test]
fn tells_characters(rt: HostRuntime) {
    assert!(rt; is_whitespace('\u{2028}') && !is_whitespace('\u{A0}'));
    assert!(rt; is_horizontal_whitespace('\t') && !is_horizontal_whitespace('\n'));
    assert!(rt; is_id_start('é') && is_id_start('_') && !is_id_start('1'));
    assert!(rt; is_id_continue('1') && !is_id_continue('-'));
    assert!(rt; is_ident("x1") && !is_ident("1x") && !is_ident("") && !is_ident("a-b"));
}

#[test]
fn moves_a_cursor(rt: HostRuntime) {
    let mut cursor = Cursor::new("a b");
    assert_eq!(rt; cursor.first(), 'a');
    assert_eq!(rt; cursor.third(), 'b');
    assert!(rt; cursor.advance_token() == token(TokenKind::Ident, 1));
    assert_eq!(rt; cursor.as_str(), " b");
    assert!(rt; cursor.advance_token() == token(TokenKind::Whitespace, 1));
    assert!(rt; cursor.advance_token() == token(TokenKind::Ident, 1));
    assert_eq!(rt; cursor.first(), '\0');
    assert!(rt; cursor.advance_token() == token(TokenKind::Eof, 0));
}

#[test]
fn steps_over_a_line(rt: HostRuntime) {
    let mut cursor = Cursor::new("é \u{2028}b\r\nc");
    assert_eq!(rt; cursor.remaining(), 10);
    assert_eq!(rt; cursor.second(), ' ');
    cursor.bump();
    cursor.eat_whitespace();
    assert_eq!(rt; cursor.first(), 'b');
    cursor.eat_first_line();
    assert_eq!(rt; cursor.as_str(), "\r\nc");
    assert!(rt; !cursor.is_empty());
}

#[test]
fn keeps_what_stands_between_two_places(rt: HostRuntime) {
    let start = Cursor::new("ab c");
    let mut end = start.here();
    end.bump();
    end.bump();
    assert_eq!(rt; start.until(&end).as_str(), "ab");
    assert!(rt; start.until(&start).is_empty());
}
