//! Messages at the start of a buffer.

ghost use Rattle.std.specs.Prelude.{◌+◌, ◌≤◌, ◌<◌, length, Some};
ghost use Rattle.message_frames.specs.Frames.{IsFrame};
ghost use Rattle.message_frames.specs.Headers.{Begins};

use crate::header::{HeaderRead, header_in};

/// The most bytes of the body of a message.
pub const MAX_BODY: u64 = 67_108_864;

/// What a buffer begins with.
#[derive(Clone, Copy, Debug, PartialEq, Eq, Drop)]
pub enum Frame {
    /// A front of a message.
    Unfinished,
    /// No message, whatever follows.
    Broken,
    /// A message. Its body is at `start..end` of the buffer, and what follows it begins at `end`.
    Message { start: usize, end: usize },
}

/// Returns the frame of a message that has a header of `start` bytes and a body of `body` bytes.
fn body_at(buffer: &[u8], start: usize, body: u64) -> Frame
    requires { Begins buffer.now start (Some body) }
    ensures { IsFrame buffer.now result }
{
    if body > MAX_BODY {
        return Frame::Broken;
    }
    let body = body as usize;
    if body > buffer.len() - start {
        return Frame::Unfinished;
    }
    Frame::Message {
        start,
        end: start + body,
    }
}

/// Returns what `buffer` begins with. A body has at most [`MAX_BODY`] bytes.
pub fn frame_in(buffer: &[u8]) -> Frame
    ensures { IsFrame buffer.now result }
{
    match header_in(buffer) {
        HeaderRead::Unfinished => Frame::Unfinished,
        HeaderRead::Broken => Frame::Broken,
        HeaderRead::Whole { len, body } => body_at(buffer, len, body),
    }
}
