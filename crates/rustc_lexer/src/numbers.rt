//! Number literals.

ghost use Rattle.std.specs.Prelude.{◌≡◌, if◌then◌else◌, drop};
ghost use Rattle.rustc_lexer.specs.Scan.{peek};
ghost use Rattle.rustc_lexer.specs.Lexeme.{base_of, digit_or_underscore, hex_or_underscore, digits, digits_of, is_exponent, is_sign, is_point, exponent, plain_kind, dotted_kind, fraction, number};
ghost use Rattle.rustc_lexer.specs.Characters.{is_hex_digit};
ghost use Rattle.rustc_lexer.specs.Reads.{Reads};

use crate::classes::{is_digit, is_id_start};
use crate::cursor::Cursor;
use crate::literals::Body;
use crate::token::{Base, LiteralKind};

#[tactic(auto, unfolding(crate::specs::Characters::is_digit, crate::specs::Characters::is_hex_digit))]
fn is_hex_digit(c: char) -> bool
    ensures { result ≡ is_hex_digit c }
{
    ('0' <= c && c <= '9') || ('A' <= c && c <= 'F') || ('a' <= c && c <= 'f')
}

#[tactic(auto, unfolding(crate::specs::Lexeme::digit_or_underscore))]
fn is_digit_or_underscore(c: char) -> bool
    ensures { result ≡ digit_or_underscore c }
{
    c == '_' || is_digit(c)
}

#[tactic(auto, unfolding(crate::specs::Lexeme::hex_or_underscore))]
fn is_hex_or_underscore(c: char) -> bool
    ensures { result ≡ hex_or_underscore c }
{
    c == '_' || is_hex_digit(c)
}

#[tactic(auto, unfolding(crate::specs::Lexeme::is_exponent))]
fn is_exponent(c: char) -> bool
    ensures { result ≡ is_exponent c }
{
    c == 'e' || c == 'E'
}

#[tactic(auto, unfolding(crate::specs::Lexeme::is_sign))]
fn is_sign(c: char) -> bool
    ensures { result ≡ is_sign c }
{
    c == '+' || c == '-'
}

#[tactic(auto, unfolding(crate::specs::Lexeme::is_point))]
fn is_point(a: char, b: char) -> bool
    ensures { result ≡ is_point a b }
{
    a == '.' && !(b == '.' || is_id_start(b))
}

// Returns the base that `a` and `b`, the first two characters of a number, name; `None` if they are
// not a base prefix.
#[tactic(auto, unfolding(crate::specs::Lexeme::base_of, crate::specs::Rows::first_fit))]
fn base_of(a: char, b: char) -> Option<Base>
    ensures { result ≡ base_of a b }
{
    if a == '0' && b == 'b' {
        return Some(Base::Binary);
    }
    if a == '0' && b == 'o' {
        return Some(Base::Octal);
    }
    if a == '0' && b == 'x' {
        return Some(Base::Hexadecimal);
    }
    None
}

// Returns the kind of a number without a dot: a float if it has an exponent.
#[tactic(auto, unfolding(crate::specs::Lexeme::plain_kind))]
fn plain_kind(base: Base, exponent: Option<bool>) -> LiteralKind
    ensures { result ≡ plain_kind base exponent }
{
    match exponent {
        Some(empty_exponent) => LiteralKind::Float {
            base,
            empty_exponent,
        },
        None => LiteralKind::Int {
            base,
            empty_int: false,
        },
    }
}

// Returns the kind of a number with a dot and a fraction.
#[tactic(auto, unfolding(crate::specs::Lexeme::dotted_kind))]
fn dotted_kind(base: Base, exponent: Option<bool>) -> LiteralKind
    ensures { result ≡ dotted_kind base exponent }
{
    LiteralKind::Float {
        base,
        empty_exponent: match exponent {
            Some(empty_exponent) => empty_exponent,
            None => false,
        },
    }
}

impl<'a> Cursor<'a> {
    /// Parses a number without its suffix.
    pub(crate) fn number(&mut self) -> Body
        ensures { Reads number self.old result self.new }
    {
        match base_of(self.first(), self.second()) {
            Some(base) => {
                self.bump();
                self.bump();
                let has = self.eat_digits(base);
                if has {
                    return self.fraction(base);
                }
                Body {
                    kind: LiteralKind::Int {
                        base,
                        empty_int: true,
                    },
                    ends: true,
                }
            }
            None => {
                self.bump();
                self.eat_decimal_digits();
                self.fraction(Base::Decimal)
            }
        }
    }

    // Skips the digits and `_` of a number in `base`. Returns `true` if there is a digit.
    fn eat_digits(&mut self, base: Base) -> bool
        ensures { Reads (digits (digits_of base)) self.old result self.new }
    {
        match base {
            Base::Hexadecimal => self.eat_hex_digits(),
            Base::Binary => self.eat_decimal_digits(),
            Base::Octal => self.eat_decimal_digits(),
            Base::Decimal => self.eat_decimal_digits(),
        }
    }

    // Skips decimal digits and `_`. Returns `true` if there is a digit.
    fn eat_decimal_digits(&mut self) -> bool
        ensures { Reads (digits digit_or_underscore) self.old result self.new }
    {
        let mut has = false;
        'run: while is_digit_or_underscore(self.first()) {
            has = has | is_hex_digit(self.first());
            self.bump();
        }
        has
    }

    // Skips hexadecimal digits and `_`. Returns `true` if there is a digit.
    fn eat_hex_digits(&mut self) -> bool
        ensures { Reads (digits hex_or_underscore) self.old result self.new }
    {
        let mut has = false;
        'run: while is_hex_or_underscore(self.first()) {
            has = has | is_hex_digit(self.first());
            self.bump();
        }
        has
    }

    // Parses the optional fraction and exponent of a number, after its first digits.
    fn fraction(&mut self, base: Base) -> Body
        ensures { Reads (fraction base) self.old result self.new }
    {
        if !is_point(self.first(), self.second()) {
            let exponent = self.eat_exponent();
            return Body {
                kind: plain_kind(base, exponent),
                ends: true,
            };
        }
        self.bump();
        if !is_digit(self.first()) {
            return Body {
                kind: LiteralKind::Float {
                    base,
                    empty_exponent: false,
                },
                ends: true,
            };
        }
        self.eat_decimal_digits();
        let exponent = self.eat_exponent();
        Body {
            kind: dotted_kind(base, exponent),
            ends: true,
        }
    }

    // Skips an optional exponent; returns `Some(true)` if it has no digit, `None` if there is none.
    fn eat_exponent(&mut self) -> Option<bool>
        ensures { Reads exponent self.old result self.new }
    {
        if !is_exponent(self.first()) {
            return None;
        }
        self.bump();
        self.eat_sign();
        let has = self.eat_decimal_digits();
        Some(!has)
    }

    // Skips an optional sign.
    fn eat_sign(&mut self)
        ensures { self.new ≡ (if is_sign (peek 0 self.old) then drop 1 self.old else self.old) }
    {
        if is_sign(self.first()) {
            self.bump();
        }
    }
}
