//! A client that sends requests on a line each.

ghost use Rattle.std.specs.Prelude.{◌≡◌, ◌≢◌, ℕ, List, None, IfNone, IfOk, IfSome, false, string_bytes};
ghost use Rattle.std.specs.Io.{ReadsAtMost, WritesAtMost};
ghost use Rattle.line_reader.specs.Clients.{IsFresh, Reads, Writes};
ghost use Rattle.line_reader.specs.Parts.{IsFront};
ghost use Rattle.document_requests.specs.LineAnswers.{answer_line, max_line, ran_line};
ghost use Rattle.document_requests.specs.Dialogues.{reader_of, seen_of, writer_of};
ghost use Rattle.document_requests.specs.Watched.{device_of, calls_of, failures_of};

use crate::answer_line::{answer_line, rejected_line};
use crate::reply::Refusal;
use crate::request::Format;
use crate::serve::serve_as;
use crate::watched::Watched;
use line_reader::Client;
use std::alloc::{AllocError, Global};
use std::io::{self, Read, Write};

/// A client that is read by one device and written to by another. It sends requests on a line each, and
/// each is answered with a line of JSON.
#[derive(Drop)]
pub struct Dialogue<R, W> {
    reader: Watched<R>,
    writer: Watched<W>,
}

impl<R: Read, W: Write> Dialogue<R, W> {
    /// Returns a client of which no call was made yet.
    pub fn new(reader: R, writer: W) -> Dialogue<R, W>
        ensures reader { device_of (reader_of result) ≡ reader }
        ensures writer { device_of (writer_of result) ≡ writer }
        ensures fresh { IsFresh (seen_of R.remaining W.contents result) }
        ensures reads { calls_of (reader_of result) ≡ 0 }
        ensures failed_reads { failures_of (reader_of result) ≡ 0 }
        ensures failed_writes { failures_of (writer_of result) ≡ 0 }
    {
        Dialogue {
            reader: Watched::new(reader),
            writer: Watched::new(writer),
        }
    }

    /// Returns the device that is read.
    pub fn reader(&self) -> &Watched<R>
        ensures { result.now ≡ reader_of self.now }
    {
        &self.reader
    }

    /// Returns the device that is written to.
    pub fn writer(&self) -> &Watched<W>
        ensures { result.now ≡ writer_of self.now }
    {
        &self.writer
    }
}

impl<R: Read, W: Write> Client for Dialogue<R, W> {
    const MAX_LINE: usize = 67_108_864;

    ghost MAX_LINE = { max_line };

    ghost answer_to = { λ line. answer_line (ran_line line) };

    ghost seen = { λ dialogue. seen_of R.remaining W.contents dialogue };

    fn read(&mut self, buf: &mut [u8]) -> io::Result<usize> {
        self.reader.read(buf)
    }

    fn write(&mut self, bytes: &[u8]) -> io::Result<usize> {
        self.writer.write(bytes)
    }

    fn answer(&self, alloc: Global, line: &[u8], is_long: bool) -> Result<String, AllocError> {
        if is_long {
            return rejected_line(alloc, Refusal::TooLong);
        }
        let outcome = serve_as(alloc, Format::Line, line)?;
        answer_line(alloc, &outcome)
    }
}
