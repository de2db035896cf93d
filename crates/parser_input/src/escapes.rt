//! Escapes in literals.

ghost use Rattle.std.specs.Prelude.{◌≡◌, ◌<◌, ◌≤◌, true, length, drop, MatchOption};
ghost use Rattle.rustc_lexer.specs.Characters.{is_hex_digit};
ghost use Rattle.rustc_lexer.specs.Scan.{run_len};
ghost use Rattle.parser_input.specs.Escapes.{
  Passes,
  digits_of,
  escape,
  fits_byte,
  fits_unicode,
  hex_digit,
  hex_or_underscore,
  hex_value,
  is_byte,
  is_one,
  is_scalar,
  is_simple,
  is_sound,
  is_unicode,
  nul_allowed,
  opens_unicode,
  unit,
};

use rustc_lexer::Cursor;

/// The characters and escapes that a kind of literal allows.
#[derive(Clone, Copy)]
pub(crate) struct Rules {
    /// `true` if a `\` before a line feed is allowed.
    pub(crate) line_feed: bool,
    /// `true` if Unicode escapes `\u{..}` are allowed.
    pub(crate) unicode: bool,
    /// `true` if `\x` escapes above 7F are allowed.
    pub(crate) wide_hex: bool,
    /// `true` if the character NUL is allowed, also as an escape.
    pub(crate) nul: bool,
}

impl Rules {
    fn allows(self, value: u32) -> bool
        ensures { result ≡ nul_allowed self value }
    {
        self.nul || value != 0
    }

    // Returns `true` if `\x` may have this value.
    fn fits_byte(self, value: u32) -> bool
        ensures { result ≡ fits_byte self value }
    {
        (self.wide_hex || value <= 127) && self.allows(value)
    }

    // Returns `true` if `\u` may have this value.
    fn fits_unicode(self, value: u32) -> bool
        ensures { result ≡ fits_unicode self value }
    {
        is_scalar(value) && self.allows(value)
    }

    // Returns `true` if the two characters after a `\` are `u{` and Unicode escapes are allowed.
    fn opens_unicode(self, first: char, second: char) -> bool
        ensures { result ≡ opens_unicode self first second }
    {
        self.unicode && first == 'u' && second == '{'
    }

    // Returns `true` if a `\` and `c` are an allowed escape: `c` is one of `n r t \ ' "`; `0` if
    // NUL is allowed; a line feed if it is allowed.
    #[tactic(auto, unfolding(crate::specs::Escapes::is_simple))]
    fn is_simple(self, c: char) -> bool
        ensures { result ≡ is_simple self c }
    {
        c == 'n'
            || c == 'r'
            || c == 't'
            || c == '\\'
            || c == '\''
            || c == '"'
            || (self.nul && c == '0')
            || (self.line_feed && c == '\n')
    }
}

// Returns `true` if the character is a hexadecimal digit.
#[tactic(auto, unfolding(rustc_lexer::specs::Characters::is_hex_digit, rustc_lexer::specs::Characters::is_digit))]
fn is_hex_digit(c: char) -> bool
    ensures { result ≡ is_hex_digit c }
{
    ('0' <= c && c <= '9') || ('A' <= c && c <= 'F') || ('a' <= c && c <= 'f')
}

#[tactic(auto, unfolding(crate::specs::Escapes::hex_or_underscore))]
fn is_hex_or_underscore(c: char) -> bool
    ensures { result ≡ hex_or_underscore c }
{
    is_hex_digit(c) || c == '_'
}

// Returns the value of a hexadecimal digit.
#[tactic(auto, unfolding(crate::specs::Escapes::hex_digit))]
fn hex_digit(c: char) -> u32
    requires { is_hex_digit c ≡ true }
    ensures value { result ≡ hex_digit c }
    ensures range { result < 16 }
{
    if c <= '9' {
        c as u32 - 48
    } else if 'a' <= c {
        c as u32 - 87
    } else {
        c as u32 - 55
    }
}

// Returns `true` if `n` is a Unicode scalar value.
#[tactic(auto, unfolding(crate::specs::Escapes::is_scalar))]
fn is_scalar(n: u32) -> bool
    ensures { result ≡ is_scalar n }
{
    n <= 0xD7FF || (0xE000 <= n && n <= 0x10FFFF)
}

// Returns `true` if two characters after `\x` are hexadecimal digits with an allowed value.
fn is_byte(rules: Rules, first: char, second: char) -> bool
    ensures { result ≡ is_byte rules first second }
{
    if !is_hex_digit(first) {
        return false;
    }
    if !is_hex_digit(second) {
        return false;
    }
    rules.fits_byte(16 * hex_digit(first) + hex_digit(second))
}

// Skips hexadecimal digits and `_`, and returns the value of the digits; `None` if there are more
// than six digits.
fn eat_digits(rest: &mut Cursor) -> Option<u32>
    ensures { MatchOption result (6 < length (digits_of rest.old)) (λ value.
        (length (digits_of rest.old) ≤ 6) × (value ≡ hex_value 0 (digits_of rest.old)) ×
        (rest.new ≡ drop (run_len hex_or_underscore rest.old) rest.old)) }
{
    let mut value: u32 = 0;
    let mut count: u32 = 0;
    'digits: while is_hex_or_underscore(rest.first()) {
        let c = rest.first();
        rest.bump();
        if c == '_' {
            continue;
        }
        if count == 6 {
            return None;
        }
        value = 16 * value + hex_digit(c);
        count += 1;
    }
    Some(value)
}

// Skips the digits and the `}` of a Unicode escape, after its `{`. Returns `false` if they are not
// valid.
fn eat_unicode(rules: Rules, rest: &mut Cursor) -> bool
    ensures told { result ≡ is_unicode rules rest.old }
    ensures after { result ≡ true → rest.new
        ≡ drop 1 (drop (run_len hex_or_underscore rest.old) rest.old) }
{
    if !is_hex_digit(rest.first()) {
        return false;
    }
    match eat_digits(rest) {
        Some(value) => {
            if rest.first() != '}' {
                return false;
            }
            rest.bump();
            rules.fits_unicode(value)
        }
        None => false,
    }
}

// Skips an escape, after its `\`. Returns `false` if there is none.
fn eat_escape(rules: Rules, rest: &mut Cursor) -> bool
    ensures { Passes (escape rules rest.old) rest.old result rest.new }
{
    let first = rest.first();
    if rules.is_simple(first) {
        rest.bump();
        return true;
    }
    if first == 'x' {
        if is_byte(rules, rest.second(), rest.third()) {
            rest.bump();
            rest.bump();
            rest.bump();
            return true;
        }
        return false;
    }
    if rules.opens_unicode(first, rest.second()) {
        rest.bump();
        rest.bump();
        return eat_unicode(rules, rest);
    }
    false
}

// Skips an allowed character or an escape. Returns `false` if neither is next.
fn eat_unit(rules: Rules, rest: &mut Cursor) -> bool
    ensures { Passes (unit rules rest.old) rest.old result rest.new }
{
    if rest.is_empty() {
        return false;
    }
    let first = rest.first();
    rest.bump();
    if first == '\\' {
        return eat_escape(rules, rest);
    }
    rules.allows(first as u32)
}

/// Returns `true` if the text consists of allowed characters and escapes only.
pub(crate) fn is_sound(rules: Rules, mut rest: Cursor) -> bool
    ensures { result ≡ is_sound rules 0 rest.entry }
{
    'units: while !rest.is_empty() {
        if !eat_unit(rules, &mut rest) {
            return false;
        }
    }
    true
}

/// Returns `true` if the text is one allowed character or one escape.
pub(crate) fn is_one(rules: Rules, mut text: Cursor) -> bool
    ensures { result ≡ is_one rules text.entry }
{
    if !eat_unit(rules, &mut text) {
        return false;
    }
    text.is_empty()
}
