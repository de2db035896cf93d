//! A client in memory.

use std::alloc::Global;
use std::io::{self, Read, Write};

/// What a client sends, in pieces of some bytes. One read may fail.
#[derive(Drop)]
pub(crate) struct Sender<'a> {
    pub(crate) rest: &'a [u8],
    pub(crate) piece: usize,
    /// The number of reads before the one that fails.
    pub(crate) fails: Option<u32>,
}

impl<'a> Read for Sender<'a> {
    ghost use Rattle.std.specs.Prelude.{None};

    ghost remaining = { λ _. None };

    fn read(&mut self, buf: &mut [u8]) -> io::Result<usize> {
        match self.fails {
            Some(0) => return Err(io::Error::from(io::ErrorKind::Other)),
            Some(n) => self.fails = Some(n - 1),
            None => {}
        }
        let count = self.piece.min(self.rest.len()).min(buf.len());
        let (front, rest) = self.rest.split_at(count);
        buf[..count].copy_from_slice(front);
        self.rest = rest;
        Ok(count)
    }
}

/// What a client is written, in pieces of some bytes. One write may fail.
#[derive(Drop)]
pub(crate) struct Receiver {
    pub(crate) bytes: Vec<u8>,
    pub(crate) piece: usize,
    /// The number of writes before the one that fails.
    pub(crate) fails: Option<u32>,
}

impl Receiver {
    /// Returns a client that was written nothing.
    pub(crate) fn new(alloc: Global, piece: usize, fails: Option<u32>) -> Receiver {
        Receiver {
            bytes: Vec::new(alloc),
            piece,
            fails,
        }
    }
}

impl Write for Receiver {
    ghost use Rattle.std.specs.Prelude.{None};

    ghost contents = { λ _. None };

    fn write(&mut self, buf: &[u8]) -> io::Result<usize> {
        match self.fails {
            Some(0) => return Ok(0),
            Some(n) => self.fails = Some(n - 1),
            None => {}
        }
        let count = self.piece.min(buf.len());
        match self.bytes.extend_from_slice(&buf[..count]) {
            Ok(()) => Ok(count),
            Err(_) => Err(io::Error::from(io::ErrorKind::Other)),
        }
    }

    fn flush(&mut self) -> io::Result<()> {
        Ok(())
    }
}
