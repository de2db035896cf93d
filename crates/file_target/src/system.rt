//! Calls of a file system.

ghost use Rattle.std.specs.Prelude.{◌≡◌, ℕ, List, Option, None, Some, IfErr, IfOk, is_ok, string_bytes};
ghost use Rattle.file_target.specs.Calls.{Adds, Call};
ghost use Rattle.file_target.specs.Calls as calls;
ghost use Rattle.file_target.specs.Outcomes.{examined, resolved};

use crate::version::Version;
use std::alloc::Global;
use std::io;

/// What a file system says of a file.
#[derive(Clone, Copy, Debug, PartialEq, Eq, Drop)]
pub struct Status {
    /// The version of its bytes.
    pub version: Version,
    /// Its mode.
    pub mode: u32,
    /// The number of its owner.
    pub owner: u32,
    /// The number of its group.
    pub group: u32,
}

/// A file system, as the calls that replace a file. It has one new file at a time, which the last
/// [`System::create`] has made.
///
/// Model: the calls that were made, with their outcomes, where these are recorded.
pub trait System {
    ghost trace: { Self → Option (List Call) } = { λ _. None };

    /// Returns the path of the file that `path` leads to through links.
    fn resolve(&mut self, alloc: Global, path: &str) -> io::Result<String>
        ensures { Adds (trace self.old) (trace self.new)
            (calls.Resolve path.now (resolved result)) };

    /// Returns the status of the file at `path`.
    fn status(&mut self, path: &str) -> io::Result<Status>
        ensures { Adds (trace self.old) (trace self.new)
            (calls.Examine path.now (examined result)) };

    /// Makes an empty file at `path`, where no file is to be.
    fn create(&mut self, path: &str) -> io::Result<()>
        ensures { Adds (trace self.old) (trace self.new) (calls.Create path.now (is_ok result)) };

    /// Gives the file at `path` an owner, if there is one, and a group.
    fn set_owner(&mut self, path: &str, owner: Option<u32>, group: u32) -> io::Result<()>
        ensures { Adds (trace self.old) (trace self.new)
            (calls.SetOwner path.now owner group (is_ok result)) };

    /// Gives the new file a mode.
    fn set_mode(&mut self, mode: u32) -> io::Result<()>
        ensures { Adds (trace self.old) (trace self.new) (calls.SetMode mode (is_ok result)) };

    /// Appends bytes to the new file: all of them, or on error a part.
    fn write(&mut self, bytes: &[u8]) -> io::Result<()>
        ensures { Adds (trace self.old) (trace self.new) (calls.Write bytes.now (is_ok result)) };

    /// Waits until the new file is on the disk, with its mode.
    fn sync(&mut self) -> io::Result<()>
        ensures { Adds (trace self.old) (trace self.new) (calls.Sync (is_ok result)) };

    /// Gives the file at `from` the path `to`, in place of the file there.
    fn rename(&mut self, from: &str, to: &str) -> io::Result<()>
        ensures { Adds (trace self.old) (trace self.new)
            (calls.Rename from.now to.now (is_ok result)) };

    /// Waits until the names in the directory of `path` are on the disk.
    fn sync_directory(&mut self, path: &str) -> io::Result<()>
        ensures { Adds (trace self.old) (trace self.new)
            (calls.SyncDirectory path.now (is_ok result)) };

    /// Removes the file at `path`.
    fn remove(&mut self, path: &str) -> io::Result<()>
        ensures { Adds (trace self.old) (trace self.new) (calls.Remove path.now (is_ok result)) };
}
