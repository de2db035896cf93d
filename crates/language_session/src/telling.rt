//! The client is told something.

ghost use Rattle.std.specs.Prelude.{◌≡◌, ◌++◌, OnOk};
ghost use Rattle.message_frames.specs.Messages.{message};
ghost use Rattle.session_words.specs.Replies.{reply_body, reply_of};

use message_frames::push_message;
use session_words::{Reply, reply_body};
use std::alloc::{AllocError, Global};

/// Appends a message that tells the client this.
///
/// # Errors
///
/// Out of memory.
pub fn tell(alloc: Global, reply: Reply<'_>, out: &mut Vec<u8>) -> Result<(), AllocError>
    ensures { OnOk result
        (out.new.items ≡ out.old.items ++ message (reply_body (reply_of reply.entry))) }
{
    let body = reply_body(alloc, reply)?;
    push_message(alloc, body.as_str().as_bytes(), out)
}
