//! Character classes.

ghost use Rattle.std.specs.Prelude.{◌≡◌, chars};
ghost use Rattle.rustc_lexer.specs.Characters.{is_whitespace, is_horizontal_whitespace, is_digit, is_id_start, is_id_continue, is_ident};

/// Returns `true` if the character is whitespace between tokens: U+0009 to U+000D, space, U+0085,
/// U+200E, U+200F, U+2028, U+2029.
#[tactic(auto, unfolding(crate::specs::Characters::is_whitespace))]
pub fn is_whitespace(c: char) -> bool
    ensures { result ≡ is_whitespace c }
{
    ('\t' <= c && c <= '\r')
        || c == ' '
        || c == '\u{85}'
        || c == '\u{200E}'
        || c == '\u{200F}'
        || c == '\u{2028}'
        || c == '\u{2029}'
}

/// Returns `true` if the character is a tab or a space.
#[tactic(auto, unfolding(crate::specs::Characters::is_horizontal_whitespace))]
pub fn is_horizontal_whitespace(c: char) -> bool
    ensures { result ≡ is_horizontal_whitespace c }
{
    c == '\t' || c == ' '
}

/// Returns `true` if the character is an ASCII decimal digit.
#[tactic(auto, unfolding(crate::specs::Characters::is_digit))]
pub(crate) fn is_digit(c: char) -> bool
    ensures { result ≡ is_digit c }
{
    '0' <= c && c <= '9'
}

/// Returns `true` if the character can start an identifier: `_` or XID_Start.
#[tactic(auto, unfolding(crate::specs::Characters::is_id_start))]
pub fn is_id_start(c: char) -> bool
    ensures { result ≡ is_id_start c }
{
    c == '_' || unicode_ident::is_xid_start(c)
}

/// Returns `true` if the character can continue an identifier: XID_Continue.
#[tactic(auto, unfolding(crate::specs::Characters::is_id_continue))]
pub fn is_id_continue(c: char) -> bool
    ensures { result ≡ is_id_continue c }
{
    unicode_ident::is_xid_continue(c)
}

/// Returns `true` if the text is an identifier: its first character is [`is_id_start`], and all
/// others are [`is_id_continue`]. An empty text is not one.
pub fn is_ident(text: &str) -> bool
    ensures { result ≡ is_ident (chars text.now) }
{
    let mut characters = text.chars();
    match characters.next() {
        Some(first) => is_id_start(first) && characters.as_str().chars().all(is_id_continue),
        None => false,
    }
}
