//! A session is replayed.

use crate::compare::{matches, messages_in};
use crate::device::{Receiver, Sender};
use crate::row::Row;
use anyhow::Result;
use document_views::Rust;
use line_reader::Stop;
use rust_source::Edition;
use serde_json::json;
use session_server::serve;
use std::alloc::{AllocError, Global};

/// What became of the sessions.
#[derive(Drop)]
pub(crate) struct Tally {
    /// A line for each wrong session.
    pub(crate) wrong: String,
    pub(crate) sessions: u32,
    pub(crate) runs: u32,
}

impl Tally {
    /// Returns a tally of no sessions.
    pub(crate) fn new(alloc: Global) -> Tally {
        Tally {
            wrong: String::new(alloc),
            sessions: 0,
            runs: 0,
        }
    }

    /// Adds the line of a wrong session.
    fn add_wrong(&mut self, name: &str, why: &str) -> Result<(), AllocError> {
        self.wrong.push_str(name)?;
        self.wrong.push_str(": ")?;
        self.wrong.push_str(why)?;
        self.wrong.push_str("\n")
    }
}

/// How a session is replayed: bytes of a read and of a write, and which of them fails.
#[derive(Clone, Copy)]
struct Way {
    read: usize,
    write: usize,
    failed_read: Option<u32>,
    failed_write: Option<u32>,
}

const WHOLE: Way = Way {
    read: 65_536,
    write: 65_536,
    failed_read: None,
    failed_write: None,
};

/// Replays a session. Returns what was written and the exit status.
fn run(alloc: Global, row: &Row, way: Way, tally: &mut Tally) -> (Vec<u8>, Result<u8, Stop>) {
    tally.runs = tally.runs.saturating_add(1);
    let mut sender = Sender {
        rest: row.sent.as_slice(),
        piece: way.read,
        fails: way.failed_read,
    };
    let mut receiver = Receiver::new(alloc, way.write, way.failed_write);
    let language = Rust {
        edition: Edition::Edition2021,
    };
    let status = serve(alloc, &language, &mut sender, &mut receiver);
    let Receiver { bytes, .. } = receiver;
    (bytes, status)
}

/// Returns `true` if the client was told what it is to be told.
fn is_told(alloc: Global, row: &Row, bytes: &[u8], status: u8) -> Result<bool> {
    let Some(mut messages) = messages_in(alloc, bytes)? else {
        return Ok(false);
    };
    messages.push(json!(in alloc; {"exit": status})?)?;
    let told = serde_json::Value::Array(messages);
    Ok(matches(&row.told, &told))
}

/// Replays a session with each read failing in turn, then with each write. What is written is a front of `whole`.
fn replay_failing(alloc: Global, row: &Row, whole: &[u8], tally: &mut Tally) -> Result<()> {
    for n in 0..1000u32 {
        let way = Way {
            read: 311,
            failed_read: Some(n),
            ..WHOLE
        };
        match run(alloc, row, way, tally) {
            (_, Ok(_)) => break,
            (bytes, Err(Stop::Reading)) if whole.starts_with(bytes.as_slice()) => {}
            _ => tally.add_wrong(row.name.as_str(), "a read fails")?,
        }
    }
    for n in 0..1000u32 {
        let way = Way {
            write: 211,
            failed_write: Some(n),
            ..WHOLE
        };
        match run(alloc, row, way, tally) {
            (_, Ok(_)) => break,
            (bytes, Err(Stop::Writing)) if whole.starts_with(bytes.as_slice()) => {}
            _ => tally.add_wrong(row.name.as_str(), "a write fails")?,
        }
    }
    Ok(())
}

/// Replays a session in all ways.
pub(crate) fn replay(alloc: Global, row: &Row, tally: &mut Tally) -> Result<()> {
    tally.sessions = tally.sessions.saturating_add(1);
    let name = row.name.as_str();
    let (whole, Ok(status)) = run(alloc, row, WHOLE, tally) else {
        return Ok(tally.add_wrong(name, "it fails")?);
    };
    if !is_told(alloc, row, whole.as_slice(), status)? {
        tally.add_wrong(name, "the client is told something else")?;
    }
    let one = Way {
        read: 1,
        write: 1,
        ..WHOLE
    };
    match run(alloc, row, one, tally) {
        (bytes, Ok(last)) if last == status && bytes.as_slice() == whole.as_slice() => {}
        _ => tally.add_wrong(name, "byte by byte the client is told something else")?,
    }
    replay_failing(alloc, row, whole.as_slice(), tally)
}
