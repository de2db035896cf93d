//! What a server knows of its client.

use line_index::Encoding;
use session_words::Facts;
use std::alloc::Global;

/// Where a session is.
#[derive(Clone, Copy, Drop)]
pub enum Phase {
    /// `initialize` did not come yet.
    Fresh,
    /// It came.
    Running,
    /// `shutdown` came.
    Down,
}

/// An open document.
#[derive(Drop)]
pub struct OpenText {
    pub(crate) uri: String,
    pub(crate) version: Option<i64>,
    /// The text, or `None` if it is lost.
    pub(crate) text: Option<String>,
}

/// A session of a client.
#[derive(Drop)]
pub struct Session {
    pub(crate) phase: Phase,
    pub(crate) facts: Facts,
    pub(crate) documents: Vec<OpenText>,
}

impl Session {
    ghost use Rattle.std.specs.Prelude.{◌≡◌};
    ghost use Rattle.language_session.specs.Sessions.{begun, session_of};
    ghost use Rattle.language_session.specs.Steps.{exit_status};

    /// Returns a session before its first message.
    pub fn new(alloc: Global) -> Session
        ensures { session_of result ≡ begun }
    {
        Session {
            phase: Phase::Fresh,
            facts: Facts {
                encoding: Encoding::Utf16,
                edition: None,
            },
            documents: Vec::new(alloc),
        }
    }

    /// Returns the exit status of a server that ends here: 0 exactly behind `shutdown`.
    pub fn exit_status(&self) -> u8
        ensures { result ≡ exit_status (session_of self.now).phase }
    {
        match self.phase {
            Phase::Fresh | Phase::Running => 1,
            Phase::Down => 0,
        }
    }
}
