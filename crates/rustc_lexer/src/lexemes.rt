//! The kind of the token at the front of a text: the first matching case decides.

ghost use Rattle.std.specs.Prelude.{◌≡◌, ◌==◌, ◌||◌, ◌&&◌, not, true, false};
ghost use Rattle.rustc_lexer.specs.Characters.{double_quote, hash, letter_b, letter_c, letter_r, slash, tick, is_digit, is_id_start, is_whitespace};
ghost use Rattle.rustc_lexer.specs.Scan.{peek};
ghost use Rattle.rustc_lexer.specs.Lexeme.{Blank, Single, opens_raw, sign, literal, string, character, raw_string, number, lexeme_in, lexeme};
ghost use Rattle.rustc_lexer.specs.Plain.{begins_plain_name, is_plain_sign};
ghost use Rattle.rustc_lexer.specs.Reads.{Reads};
ghost use Rattle.rustc_lexer.specs.Strings.{letters, quoted_kind, raw_kind};

use crate::classes::{is_digit, is_id_start, is_whitespace};
use crate::cursor::Cursor;
use crate::literals::{Body, StringKind};
use crate::token::{LiteralKind, TokenKind};

fn opens_raw(c: char) -> bool
    ensures { result ≡ opens_raw c }
{
    c == '#' || c == '"'
}

// Returns `true` if an `r` before these characters starts a raw identifier.
fn begins_raw_name(b: char, c: char) -> bool
    ensures { result ≡ (b == hash && is_id_start c) }
{
    b == '#' && is_id_start(c)
}

// Returns `true` if a `b` or `c` before these characters starts a raw string.
fn begins_raw_string(b: char, c: char) -> bool
    ensures { result ≡ (b == letter_r && opens_raw c) }
{
    b == 'r' && opens_raw(c)
}

// Returns `true` if a `'` before these characters can start a lifetime.
fn begins_lifetime(b: char, c: char) -> bool
    ensures { result ≡ (not (c == tick) && (is_id_start b || is_digit b)) }
{
    c != '\'' && (is_id_start(b) || is_digit(b))
}

// Returns `true` if `c` starts a name and no literal prefix: `_`, or an ASCII letter other than
// `r`, `b` and `c`.
fn begins_plain_name(c: char) -> bool
    ensures { result ≡ begins_plain_name c }
{
    c == '_' || (c.is_ascii_alphabetic() && c != 'r' && c != 'b' && c != 'c')
}

// Returns `true` if `c` is an ASCII character that is a token by itself, whatever follows.
fn is_plain_sign(c: char) -> bool
    ensures { result ≡ is_plain_sign c }
{
    ('(' <= c && c <= '.')
        || (':' <= c && c <= '@')
        || ('{' <= c && c <= '~')
        || ('$' <= c && c <= '&')
        || c == '!'
        || c == '['
        || c == ']'
        || c == '^'
}

// Returns the kind of the one-character token `c`; `Unknown` if `c` starts no token.
#[inline(always)]
#[tactic(auto, unfolding(crate::specs::Lexeme::sign, crate::specs::Rows::first_fit))]
fn sign(c: char) -> TokenKind
    ensures { result ≡ sign c }
{
    match c {
        ';' => TokenKind::Semi,
        ',' => TokenKind::Comma,
        '.' => TokenKind::Dot,
        '(' => TokenKind::OpenParen,
        ')' => TokenKind::CloseParen,
        '{' => TokenKind::OpenBrace,
        '}' => TokenKind::CloseBrace,
        '[' => TokenKind::OpenBracket,
        ']' => TokenKind::CloseBracket,
        '@' => TokenKind::At,
        '#' => TokenKind::Pound,
        '~' => TokenKind::Tilde,
        '?' => TokenKind::Question,
        ':' => TokenKind::Colon,
        '$' => TokenKind::Dollar,
        '=' => TokenKind::Eq,
        '!' => TokenKind::Bang,
        '<' => TokenKind::Lt,
        '>' => TokenKind::Gt,
        '-' => TokenKind::Minus,
        '&' => TokenKind::And,
        '|' => TokenKind::Or,
        '+' => TokenKind::Plus,
        '*' => TokenKind::Star,
        '/' => TokenKind::Slash,
        '^' => TokenKind::Caret,
        '%' => TokenKind::Percent,
        _ => TokenKind::Unknown,
    }
}

impl<'a> Cursor<'a> {
    /// Skips the next token and returns its kind. At the end, skips nothing and returns `Unknown`.
    pub(crate) fn lexeme(&mut self) -> TokenKind
        ensures { Reads lexeme self.old result self.new }
    {
        let first = self.first();
        if begins_plain_name(first) {
            return self.identifier();
        }
        if is_plain_sign(first) {
            self.bump_ascii();
            return sign(first);
        }
        if is_whitespace(first) {
            return self.whitespace();
        }
        self.rarer_lexeme(first)
    }

    // Skips a token that starts with `first`, which is not whitespace, and returns its kind.
    fn rarer_lexeme(&mut self, first: char) -> TokenKind
        requires first { first ≡ peek 0 self.old }
        requires white { is_whitespace first ≡ false }
        ensures { Reads lexeme self.old result self.new }
    {
        if first == '/' {
            return self.slash();
        }
        if first == 'r' {
            return self.letter_r();
        }
        if first == 'b' {
            return self.letter_b();
        }
        if first == 'c' {
            return self.letter_c();
        }
        if is_id_start(first) {
            return self.identifier();
        }
        if is_digit(first) {
            return self.number_literal();
        }
        if first == '\'' {
            return self.tick();
        }
        if first == '"' {
            return self.string_literal(StringKind::Str);
        }
        if first == '#' {
            return self.hash();
        }
        self.single()
    }

    // Skips whitespace and returns its kind.
    fn whitespace(&mut self) -> TokenKind
        requires { is_whitespace (peek 0 self.old) ≡ true }
        ensures { Reads (lexeme_in Blank) self.old result self.new }
    {
        self.eat_whitespace();
        TokenKind::Whitespace
    }

    // Skips one character and returns its kind as a token by itself.
    fn single(&mut self) -> TokenKind
        ensures { Reads (lexeme_in Single) self.old result self.new }
    {
        let kind = sign(self.first());
        self.bump();
        kind
    }

    // Skips a token that starts with `/`: a comment or `/`. Returns its kind.
    fn slash(&mut self) -> TokenKind
        requires { peek 0 self.old ≡ slash }
        ensures { Reads lexeme self.old result self.new }
    {
        let second = self.second();
        if second == '/' {
            return self.line_comment();
        }
        if second == '*' {
            return self.block_comment();
        }
        self.single()
    }

    // Skips a token that starts with `r`: a raw identifier, a raw string or a name. Returns its
    // kind.
    fn letter_r(&mut self) -> TokenKind
        requires { peek 0 self.old ≡ letter_r }
        ensures { Reads lexeme self.old result self.new }
    {
        let (second, third) = (self.second(), self.third());
        if begins_raw_name(second, third) {
            return self.raw_identifier();
        }
        if opens_raw(second) {
            return self.raw_string_literal(StringKind::Str);
        }
        self.identifier()
    }

    // Skips a token that starts with `b`: a byte or byte string literal, or a name. Returns its
    // kind.
    fn letter_b(&mut self) -> TokenKind
        requires { peek 0 self.old ≡ letter_b }
        ensures { Reads lexeme self.old result self.new }
    {
        let (second, third) = (self.second(), self.third());
        if begins_raw_string(second, third) {
            return self.raw_string_literal(StringKind::ByteStr);
        }
        if second == '\'' {
            return self.byte_literal();
        }
        if second == '"' {
            return self.string_literal(StringKind::ByteStr);
        }
        self.identifier()
    }

    // Skips a token that starts with `c`: a C string literal or a name. Returns its kind.
    fn letter_c(&mut self) -> TokenKind
        requires { peek 0 self.old ≡ letter_c }
        ensures { Reads lexeme self.old result self.new }
    {
        let (second, third) = (self.second(), self.third());
        if begins_raw_string(second, third) {
            return self.raw_string_literal(StringKind::CStr);
        }
        if second == '"' {
            return self.string_literal(StringKind::CStr);
        }
        self.identifier()
    }

    // Skips a token that starts with `'` and returns its kind. It can be a lifetime only if the
    // third character is not `'`; otherwise it is a character literal.
    fn tick(&mut self) -> TokenKind
        requires { peek 0 self.old ≡ tick }
        ensures { Reads lexeme self.old result self.new }
    {
        if begins_lifetime(self.second(), self.third()) {
            return self.lifetime();
        }
        self.char_literal()
    }

    // Skips a token that starts with `#`: a guarded prefix (`##` or `#"`) or `#`. Returns its kind.
    fn hash(&mut self) -> TokenKind
        requires { peek 0 self.old ≡ hash }
        ensures { Reads lexeme self.old result self.new }
    {
        if opens_raw(self.second()) {
            self.bump();
            self.bump();
            return TokenKind::GuardedStrPrefix;
        }
        self.single()
    }

    // Parses a number literal with its suffix.
    fn number_literal(&mut self) -> TokenKind
        ensures { Reads (literal number) self.old result self.new }
    {
        let start = self.remaining();
        let body = self.number();
        self.end_literal(start, body)
    }

    // Parses a string literal with the letter of its kind and its suffix.
    fn string_literal(&mut self, kind: StringKind) -> TokenKind
        ensures { Reads (literal
            (string (letters kind) (quoted_kind kind))) self.old result self.new }
    {
        let start = self.remaining();
        self.eat_letter(kind);
        self.bump();
        let terminated = self.eat_quoted();
        let body = Body {
            kind: kind.quoted(terminated),
            ends: terminated,
        };
        self.end_literal(start, body)
    }

    // Parses a raw string literal with the letters before its hashes and its suffix.
    fn raw_string_literal(&mut self, kind: StringKind) -> TokenKind
        ensures { Reads (literal
            (raw_string (letters kind) (raw_kind kind))) self.old result self.new }
    {
        let start = self.remaining();
        self.eat_letter(kind);
        self.bump();
        let n_hashes = self.eat_raw_string();
        let body = Body {
            kind: kind.raw(n_hashes),
            ends: n_hashes.is_some(),
        };
        self.end_literal(start, body)
    }

    // Parses a character literal with its suffix: `'a'`.
    fn char_literal(&mut self) -> TokenKind
        ensures { Reads (literal (character 0 (λ t. LiteralKind.Char t))) self.old result self.new }
    {
        let start = self.remaining();
        self.bump();
        let terminated = self.eat_character();
        let body = Body {
            kind: LiteralKind::Char { terminated },
            ends: terminated,
        };
        self.end_literal(start, body)
    }

    // Parses a byte literal with its suffix: `b'a'`.
    fn byte_literal(&mut self) -> TokenKind
        ensures { Reads (literal (character 1 (λ t. LiteralKind.Byte t))) self.old result self.new }
    {
        let start = self.remaining();
        self.bump();
        self.bump();
        let terminated = self.eat_character();
        let body = Body {
            kind: LiteralKind::Byte { terminated },
            ends: terminated,
        };
        self.end_literal(start, body)
    }
}
