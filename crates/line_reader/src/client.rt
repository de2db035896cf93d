//! Who sends lines.

ghost use Rattle.std.specs.Prelude.{◌≡◌, ℕ, List, IfOk, string_bytes};
ghost use Rattle.std.specs.Io.{ReadsAtMost, WritesAtMost};
ghost use Rattle.line_reader.specs.Clients.{IsReady, Reads, Seen, Writes};
ghost use Rattle.line_reader.specs.Parts.{IsFront};

use std::alloc::{AllocError, Global};
use std::io;

/// A client, which sends lines and is written an answer to each.
///
/// Model: what it has sent and what it was written, where these are known, and how many of its calls
/// failed. It can be read from only while each whole line that it has sent is answered, and not after
/// its end.
pub trait Client {
    /// The most bytes of a line that is kept.
    const MAX_LINE: usize;

    ghost MAX_LINE: { ℕ };

    ghost answer_to: { List ℕ → List ℕ };

    ghost seen: { Self → Seen };

    /// Reads bytes that the client sends. Returns their number, 0 at the end.
    ///
    /// # Errors
    ///
    /// Those of the device.
    fn read(&mut self, buf: &mut [u8]) -> io::Result<usize>
        requires { IsReady answer_to (seen self.old) }
        ensures bound { ReadsAtMost result buf.new }
        ensures bytes { Reads (seen self.old) (seen self.new) result buf.new };

    /// Writes bytes to the client. Returns how many of them it took.
    ///
    /// # Errors
    ///
    /// Those of the device.
    fn write(&mut self, bytes: &[u8]) -> io::Result<usize>
        ensures bound { WritesAtMost result bytes.now }
        ensures bytes { Writes (seen self.old) (seen self.new) result bytes.now };

    /// Returns the answer to a line. Of a line of more than [`Client::MAX_LINE`] bytes, which `is_long`
    /// tells, `line` is empty.
    ///
    /// # Errors
    ///
    /// [`AllocError`] if an allocation fails.
    fn answer(&self, alloc: Global, line: &[u8], is_long: bool) -> Result<String, AllocError>
        ensures { IfOk result (λ text. (sent : List ℕ) → IsFront MAX_LINE sent line.now is_long
            → string_bytes text ≡ answer_to sent) };
}
