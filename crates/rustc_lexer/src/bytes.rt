//! Searches in the bytes of a text: the length of the run at its front.

ghost use Rattle.std.specs.Prelude.{◌≡◌, ◌&&◌, ◌==◌, ◌||◌, not, ltb, length};
ghost use Rattle.rustc_lexer.specs.Characters.{line_feed, double_quote, backslash, star, slash, hash, is_whitespace, is_id_continue};
ghost use Rattle.rustc_lexer.specs.Scan.{run_len};

#[inline]
#[tactic(auto, using(crate::proofs::Wide::white_ascii))]
fn is_ascii_white(b: u8) -> bool
    ensures { result ≡ (ltb b 128 && is_whitespace b) }
{
    b == b' ' || (b'\t' <= b && b <= b'\r')
}

#[inline]
#[tactic(auto, using(crate::proofs::Wide::continue_ascii))]
fn is_ascii_continue(b: u8) -> bool
    ensures { result ≡ (ltb b 128 && is_id_continue b) }
{
    b.is_ascii_alphanumeric() || b == b'_'
}

/// Returns the number of bytes at the front that are ASCII whitespace.
pub(crate) fn white_len(bytes: &[u8]) -> usize
    ensures { result ≡ run_len (λ b. ltb b 128 && is_whitespace b) bytes.now }
{
    for (i, b) in bytes.iter().enumerate() {
        if !is_ascii_white(*b) {
            return i;
        }
    }
    bytes.len()
}

/// Returns the number of ASCII bytes at the front that can continue an identifier.
pub(crate) fn continue_len(bytes: &[u8]) -> usize
    ensures { result ≡ run_len (λ b. ltb b 128 && is_id_continue b) bytes.now }
{
    for (i, b) in bytes.iter().enumerate() {
        if !is_ascii_continue(*b) {
            return i;
        }
    }
    bytes.len()
}

/// Returns the number of `#` at the front.
pub(crate) fn hash_len(bytes: &[u8]) -> usize
    ensures { result ≡ run_len (λ b. b == hash) bytes.now }
{
    for (i, b) in bytes.iter().enumerate() {
        if *b != b'#' {
            return i;
        }
    }
    bytes.len()
}

/// Returns the number of bytes before the first line feed; all if there is none.
pub(crate) fn line_len(bytes: &[u8]) -> usize
    ensures { result ≡ run_len (λ b. not (b == line_feed)) bytes.now }
{
    match memchr::memchr(b'\n', bytes) {
        Some(n) => n,
        None => bytes.len(),
    }
}

/// Returns the number of bytes before the first `"`; all if there is none.
pub(crate) fn unquoted_len(bytes: &[u8]) -> usize
    ensures { result ≡ run_len (λ b. not (b == double_quote)) bytes.now }
{
    match memchr::memchr(b'"', bytes) {
        Some(n) => n,
        None => bytes.len(),
    }
}

/// Returns the number of bytes before the first `"` or `\`; all if there is neither.
pub(crate) fn plain_len(bytes: &[u8]) -> usize
    ensures { result ≡ run_len (λ b. not (b == double_quote || b == backslash)) bytes.now }
{
    match memchr::memchr2(b'"', b'\\', bytes) {
        Some(n) => n,
        None => bytes.len(),
    }
}

/// Returns the number of bytes before the first `/` or `*`; all if there is neither.
pub(crate) fn unmarked_len(bytes: &[u8]) -> usize
    ensures { result ≡ run_len (λ b. not (b == slash || b == star)) bytes.now }
{
    match memchr::memchr2(b'/', b'*', bytes) {
        Some(n) => n,
        None => bytes.len(),
    }
}
