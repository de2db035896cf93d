//! Rows of `u32`s, which have one layout in each language.
ghost use Rattle.std.specs.Prelude.{◌≡◌};
ghost use Rattle.document_rows.specs.Rows.{shown};

/// A token: the number of its kind, and its range in bytes.
#[repr(C)]
#[derive(Clone, Copy, Debug, PartialEq, Eq)]
pub struct TokenRow {
    pub kind: u32,
    pub start: u32,
    pub end: u32,
}

/// A node or a token: the number of its kind, the number of nodes around it, and its range in bytes.
#[repr(C)]
#[derive(Clone, Copy, Debug, PartialEq, Eq)]
pub struct ElementRow {
    pub kind: u32,
    pub depth: u32,
    pub start: u32,
    pub end: u32,
}

/// A message: its offset in the text, and the range of its words in the bytes of all words.
#[repr(C)]
#[derive(Clone, Copy, Debug, PartialEq, Eq)]
pub struct MessageRow {
    pub offset: u32,
    pub words_start: u32,
    pub words_end: u32,
}

/// A range in bytes.
#[repr(C)]
#[derive(Clone, Copy, Debug, PartialEq, Eq)]
pub struct RangeRow {
    pub start: u32,
    pub end: u32,
}

/// Returns `number`, or 4,294,967,295 if it is greater.
pub(crate) fn shown(number: usize) -> u32
    ensures { result ≡ shown number }
{
    if number > u32::MAX as usize {
        u32::MAX
    } else {
        number as u32
    }
}
