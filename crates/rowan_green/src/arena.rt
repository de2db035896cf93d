//! An arena: the text of a tree, and an entry of 8 bytes for each node and token. The entries of
//! the children of a node are adjacent, and precede the entry of the node.

ghost use Rattle.std.specs.Prelude.{◌≡◌, ◌+◌, ◌<◌, ◌^◌};

/// A node or a token, as an entry of an arena. Entry numbers, record numbers and byte offsets are
/// below 2^32.
#[derive(Clone, Copy)]
pub(crate) enum Entry {
    /// `Short(len, kind, start)`: a token of less than 256 bytes. `len` is the length of its text,
    /// in bytes; `start` the offset of its text in the text of the arena.
    Short(u8, u16, u32),
    /// `Few(count, kind, first)`: a node of 1 to 255 children. `count` is the number of children;
    /// `first` the entry number of the first child.
    Few(u8, u16, u32),
    /// `Long(kind, record)`: any other token. `record` is the number of its record.
    Long(u16, u32),
    /// `Many(kind, record)`: any other node. `record` is the number of its record.
    Many(u16, u32),
}

/// The start and the length of a text, in bytes; for a node also the entry number of the first
/// child and the number of children.
#[derive(Clone, Copy)]
pub(crate) struct Record {
    pub(crate) start: u32,
    pub(crate) len: u32,
    pub(crate) first: u32,
    pub(crate) count: u32,
}

const _: () = prove!(size_of::<Entry>() == 8);

const _: () = prove!(size_of::<Record>() == 16);

/// The joined texts of all tokens, and the entries that have a parent, with their records.
#[derive(Drop)]
pub(crate) struct Arena {
    pub(crate) text: String,
    pub(crate) entries: Vec<Entry>,
    pub(crate) records: Vec<Record>,
    /// The number of bytes of the text that belong to tokens.
    pub(crate) used: u32,
}

const _: () = prove!(size_of::<Arena>() == 80);

impl Record {
    /// Returns the offset at which the text ends, in bytes.
    pub(crate) fn end(self) -> u32
        requires { self.start + self.len < 2 ^ 32 }
        ensures { result ≡ self.start + self.len }
    {
        self.start + self.len
    }
}
