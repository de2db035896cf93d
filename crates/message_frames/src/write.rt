//! Messages are written.

ghost use Rattle.std.specs.Prelude.{◌≡◌, ◌++◌, OnOk};
ghost use Rattle.message_frames.specs.Messages.{message};

use std::alloc::{AllocError, Global};

/// Appends a message with its header.
///
/// # Errors
///
/// Out of memory.
pub fn push_message(alloc: Global, body: &[u8], out: &mut Vec<u8>) -> Result<(), AllocError>
    ensures { OnOk result (out.new.items ≡ out.old.items ++ message body.now) }
{
    let len = body.len();
    let header = format!(in alloc; "Content-Length: {len}\r\n\r\n")?;
    out.extend_from_slice(header.as_str().as_bytes())?;
    out.extend_from_slice(body)?;
    Ok(())
}
