//! Units of columns.

ghost use Rattle.std.specs.Prelude.{◌≡◌, ◌≤◌, ◌<◌, ◌^◌};
ghost use Rattle.line_index.specs.Columns.{width, units as units_of, reach as reach_of};

/// The unit in which columns are counted.
#[derive(Clone, Copy, Debug, PartialEq, Eq, Drop)]
pub enum Encoding {
    /// Bytes.
    Utf8,
    /// Units of UTF-16: two for a character past U+FFFF, else one.
    Utf16,
    /// Characters.
    Utf32,
}

/// Returns the units of the character that `byte` begins; in UTF-8, of the byte.
fn width(encoding: Encoding, byte: u8) -> usize
    ensures value { result ≡ width encoding byte }
    ensures bound { result ≤ 2 }
{
    match (encoding, byte) {
        (Encoding::Utf8, _) | (_, ..0x80) => 1,
        (_, ..0xc0) => 0,
        (Encoding::Utf32, _) | (_, ..0xf0) => 1,
        _ => 2,
    }
}

/// Returns the units of `bytes`, byte by byte.
fn wide_units(encoding: Encoding, bytes: &[u8]) -> usize
    requires { units_of encoding bytes.now < 2 ^ 64 }
    ensures { result ≡ units_of encoding bytes.now }
{
    let mut count = 0;
    for byte in bytes {
        count += width(encoding, *byte);
    }
    count
}

/// Returns the units of `bytes`.
pub(crate) fn units(encoding: Encoding, bytes: &[u8]) -> usize
    requires { units_of encoding bytes.now < 2 ^ 64 }
    ensures { result ≡ units_of encoding bytes.now }
{
    match encoding {
        Encoding::Utf8 => bytes.len(),
        Encoding::Utf16 | Encoding::Utf32 => wide_units(encoding, bytes),
    }
}

/// Returns the length of the longest front of `bytes` that has at most `col` units, byte by byte.
fn wide_reach(encoding: Encoding, col: usize, bytes: &[u8]) -> usize
    ensures { result ≡ reach_of encoding col bytes.now }
{
    let mut left = col;
    for (i, byte) in bytes.iter().enumerate() {
        let units = width(encoding, *byte);
        if left < units {
            return i;
        }
        left -= units;
    }
    bytes.len()
}

/// Returns the length of the longest front of `bytes` that has at most `col` units.
pub(crate) fn reach(encoding: Encoding, col: usize, bytes: &[u8]) -> usize
    ensures { result ≡ reach_of encoding col bytes.now }
{
    match encoding {
        Encoding::Utf8 => col.min(bytes.len()),
        Encoding::Utf16 | Encoding::Utf32 => wide_reach(encoding, col, bytes),
    }
}
