//! What a command over files returns.

ghost use Rattle.std.specs.Prelude.{◌≡◌, ◌==◌, if◌then◌else◌, vec_len};

use crate::source::FileFault;

/// What became of the files.
#[derive(Debug, Drop)]
pub struct Summary {
    /// Messages are shown.
    pub has_messages: bool,
    /// The files that are left out, in order.
    pub faults: Vec<FileFault>,
}

impl Summary {
    /// Returns the exit status: 2 if a file is left out, else 1 if messages are shown, else 0.
    pub fn status(&self) -> u8
        ensures { result ≡ (if vec_len self.now.faults == 0
            then (if self.now.has_messages then 1 else 0) else 2) }
    {
        if !self.faults.is_empty() {
            2
        } else if self.has_messages {
            1
        } else {
            0
        }
    }
}
