//! The identities of files, whatever their names.

ghost use Rattle.std.specs.Prelude.{◌≡◌, ◌≤◌, ◌<◌, ◌↔◌, ℕ, length, IsTrue};
ghost use Rattle.file_paths.specs.Identities.{AreOneFile, IsFirst};

/// What tells a file from all others: its device and its number there.
#[derive(Clone, Copy, Debug, PartialEq, Eq, Drop)]
pub struct FileId {
    pub device: u64,
    pub inode: u64,
}

impl FileId {
    /// Returns the identity of standard input, which no file has.
    pub fn input() -> FileId
        ensures { result ≡ record { device = 0; inode = 0 } }
    {
        FileId {
            device: 0,
            inode: 0,
        }
    }

    /// Returns `true` if this is `other`.
    fn is(self, other: FileId) -> bool
        ensures { IsTrue result ↔ self ≡ other }
    {
        self == other
    }
}

/// Returns `true` if both identities are known, and are one.
fn are_one_file(a: Option<FileId>, b: Option<FileId>) -> bool
    ensures { IsTrue result ↔ AreOneFile a b }
{
    match (a, b) {
        (Some(a), Some(b)) => a.is(b),
        _ => false,
    }
}

/// Returns the index of the first file that is the one at `index`: a file whose identity is not known
/// is the same as no other.
pub fn first_same(ids: &[Option<FileId>], index: usize) -> usize
    requires { index < length ids.now }
    ensures { IsFirst ids.now index result }
{
    let id = ids[index];
    for i in 0..index {
        if are_one_file(ids[i], id) {
            return i;
        }
    }
    index
}
