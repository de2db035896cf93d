//! Lines of clients, worked by hand.

use line_reader::{Client, Stop, serve_lines};
use std::alloc::{AllocError, Global};
use std::io::{self, ErrorKind};
use std::test::Fail;

/// The most bytes that a write takes.
const MOST: usize = 2;

/// A client that notes `<` for each read, and the bytes that each write takes. A read gives the bytes
/// up to the next `|`.
#[derive(Drop)]
struct Noted<'a> {
    input: &'a [u8],
    notes: Vec<u8>,
    calls: u64,
    /// The number of the call that fails, from 1 on; no call if it is 0.
    failed: u64,
    /// A write that fails takes nothing, in place of an error.
    takes_nothing: bool,
    is_ended: bool,
    reads: u64,
    failed_reads: u64,
    failed_writes: u64,
}

impl<'a> Noted<'a> {
    fn new(alloc: Global, input: &'a [u8], failed: u64, takes_nothing: bool) -> Noted<'a> {
        Noted {
            input,
            notes: Vec::new(alloc),
            calls: 0,
            failed,
            takes_nothing,
            is_ended: false,
            reads: 0,
            failed_reads: 0,
            failed_writes: 0,
        }
    }

    /// Counts a call. Returns `true` if it is the one that fails.
    fn fails(&mut self) -> bool {
        self.calls = self.calls.saturating_add(1);
        self.calls == self.failed
    }

    /// Gives the bytes up to the next `|`.
    fn piece(&mut self, buf: &mut [u8]) -> io::Result<usize> {
        self.notes.push(b'<')?;
        if self.fails() {
            return Err(io::Error::from(ErrorKind::Other));
        }
        let end = self.input.iter().position(|byte| *byte == b'|');
        let count = end.unwrap_or(self.input.len()).min(buf.len());
        let (now, later) = self.input.split_at(count);
        buf[..count].copy_from_slice(now);
        self.input = later.strip_prefix(b"|".as_slice()).unwrap_or(later);
        Ok(count)
    }

    /// Notes at most [`MOST`] bytes.
    fn note(&mut self, bytes: &[u8]) -> io::Result<usize> {
        if self.fails() {
            if self.takes_nothing {
                return Ok(0);
            }
            return Err(io::Error::from(ErrorKind::Other));
        }
        let count = bytes.len().min(MOST);
        self.notes.extend_from_slice(&bytes[..count])?;
        Ok(count)
    }
}

impl Client for Noted<'_> {
    ghost use Rattle.std.specs.Prelude.{ℕ, ◌++◌, length, nat_lt, codes, None, if◌then◌else◌};

    const MAX_LINE: usize = 3;

    ghost MAX_LINE = { 3 };

    ghost answer_to = { λ line.
        if nat_lt 3 (length line) then codes "!" else codes "[" ++ (line ++ codes "]") };

    ghost seen = { λ client. record {
      exchange = None;
      left = None;
      contents = None;
      is_ended = client.is_ended;
      reads = client.reads;
      failed_reads = client.failed_reads;
      failed_writes = client.failed_writes;
    } };

    fn read(&mut self, buf: &mut [u8]) -> io::Result<usize> {
        let asked = buf.len();
        let given = self.piece(buf);
        self.reads = self.reads.saturating_add(1);
        if given.is_err() {
            self.failed_reads = self.failed_reads.saturating_add(1);
        }
        if asked > 0 && matches!(&given, Ok(0)) {
            self.is_ended = true;
        }
        given
    }

    fn write(&mut self, bytes: &[u8]) -> io::Result<usize> {
        let taken = self.note(bytes);
        if !matches!(&taken, Ok(1..)) {
            self.failed_writes = self.failed_writes.saturating_add(1);
        }
        taken
    }

    fn answer(&self, alloc: Global, line: &[u8], is_long: bool) -> Result<String, AllocError> {
        if is_long {
            return String::from_str(alloc, "!");
        }
        match str::from_utf8(line) {
            Ok(text) => format!(in alloc; "[{text}]"),
            Err(_) => Err(AllocError),
        }
    }
}

/// Inputs, and what is noted of them.
const NOTED: [(&[u8], &[u8]); 8] = [
    (b"", b"<"),
    (b"\n", b"<[]<"),
    (b"ab\n|\ncd|e", b"<[ab]<[]<<[cde]"),
    (b"ab\ncd\n|e\n", b"<[ab][cd]<[e]<"),
    (b"abcd\nx\n", b"<![x]<"),
    (b"abcd", b"<<!"),
    (b"ab|cd|\nx", b"<<<!<[x]"),
    (b"abc\r\n\nabcdefg\n", b"<![]!<"),
];

#[test]
fn each_line_is_answered_before_the_next_read(rt: HostRuntime) -> Result<(), Fail> {
    for (input, wanted) in NOTED.iter() {
        let mut client = Noted::new(rt.alloc(), input, 0, false);
        let served = serve_lines(rt.alloc(), &mut client);
        let is_right = served.is_ok() && client.notes.as_slice() == *wanted;
        assert!(rt; is_right);
    }
    Ok(())
}

/// The lines of which each call fails in turn.
const LINES: &[u8] = b"ab\n|c\n";

/// The call that fails, what is noted, and where serving stops.
const STOPS: [(u64, &[u8], Option<Stop>); 8] = [
    (0, b"<[ab]<[c]<", None),
    (1, b"<", Some(Stop::Reading)),
    (2, b"<", Some(Stop::Writing)),
    (3, b"<[a", Some(Stop::Writing)),
    (4, b"<[ab]<", Some(Stop::Reading)),
    (5, b"<[ab]<", Some(Stop::Writing)),
    (6, b"<[ab]<[c", Some(Stop::Writing)),
    (7, b"<[ab]<[c]<", Some(Stop::Reading)),
];

#[test]
fn serving_stops_at_the_first_call_that_fails(rt: HostRuntime) -> Result<(), Fail> {
    for takes_nothing in [false, true] {
        for (failed, wanted, stop) in STOPS.iter() {
            let mut client = Noted::new(rt.alloc(), LINES, *failed, takes_nothing);
            let served = serve_lines(rt.alloc(), &mut client);
            let is_right = served.err() == *stop && client.notes.as_slice() == *wanted;
            assert!(rt; is_right);
        }
    }
    Ok(())
}
