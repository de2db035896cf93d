//! Messages are read and answered.

ghost use Rattle.std.specs.Prelude.{◌≡◌, ◌≤◌, IfOk, IfSome, OnErr, OnOk, List, ℕ, drop, length};
ghost use Rattle.std.specs.Io.KnownBytes.{Appends};
ghost use Rattle.language_session.specs.Sessions.{session_of};
ghost use Rattle.session_server.specs.Answers.{IsAnswered, IsPartlyAnswered};
ghost use Rattle.session_server.specs.Turns.{IsTurn};

use crate::write::write_all;
use language_session::{Language, Session, step, tell};
use line_reader::Stop;
use message_frames::{Frame, frame_in};
use session_words::{Refusal, Reply};
use std::alloc::{AllocError, Global};
use std::io::{Read, Write};

/// How many bytes a read asks for.
const CHUNK: usize = 65_536;

/// How a server goes on behind a read.
#[derive(Clone, Copy, Drop)]
enum Next {
    /// This many bytes are messages that are answered, and no whole one is behind them.
    GoesOn(usize),
    /// The server ends with this status.
    Ends(u8),
}

/// What is sent to a client behind a read.
#[derive(Drop)]
struct Turn {
    told: Vec<u8>,
    next: Next,
}

/// Answers the whole messages at the start of `bytes`.
fn answer_all<L: Language>(
    alloc: Global,
    language: &L,
    session: &mut Session,
    bytes: &[u8],
) -> Result<Turn, AllocError>
    ensures { IfOk result (λ turn. IsTurn (L.messages language.now) (session_of session.old)
        (session_of session.new) bytes.now turn.told.items turn.next) }
{
    let mut told = Vec::new(alloc);
    let mut at = 0;
    while at < bytes.len() {
        match frame_in(&bytes[at..]) {
            Frame::Unfinished => {
                return Ok(Turn {
                    told,
                    next: Next::GoesOn(at),
                });
            }
            Frame::Broken => {
                tell(alloc, Reply::Refused(None, Refusal::Header), &mut told)?;
                return Ok(Turn {
                    told,
                    next: Next::Ends(1),
                });
            }
            Frame::Message { start, end } => {
                let body = &bytes[at + start..at + end];
                if let Some(status) = step(alloc, language, session, body, &mut told)? {
                    return Ok(Turn {
                        told,
                        next: Next::Ends(status),
                    });
                }
                at += end;
            }
        }
    }
    Ok(Turn {
        told,
        next: Next::GoesOn(at),
    })
}

/// Takes the first `len` bytes out of `buffer`. Makes no copy if there are none, so a long message that comes in many
/// pieces is copied once.
fn drop_front(alloc: Global, buffer: &mut Vec<u8>, len: usize) -> Result<(), AllocError>
    requires { len ≤ length buffer.old.items }
    ensures { OnOk result (buffer.new.items ≡ drop len buffer.old.items) }
{
    if len > 0 {
        *buffer = Vec::from_slice(alloc, &buffer[len..])?;
    }
    Ok(())
}

/// Answers the messages of a client, in order, up to its `exit`, its end, or bytes that are no message. Returns the exit
/// status.
///
/// It reads only when each whole message that the client has sent is answered, and not after the end.
///
/// # Errors
///
/// - [`Stop::Reading`] if a read fails, or after 18,446,744,073,709,551,615 reads.
/// - [`Stop::Writing`] if a write fails, or takes no byte.
/// - [`Stop::Memory`] if an allocation fails.
///
/// Then a front of the answers is written.
pub fn serve<L: Language, R: Read, W: Write>(
    alloc: Global,
    language: &L,
    reader: &mut R,
    writer: &mut W,
) -> Result<u8, Stop>
    ensures answered { IfOk result (λ status. IfSome (R.remaining reader.old) (λ input.
        (out : List ℕ) × IsAnswered (L.messages language.now) input out status
        × Appends (W.contents writer.old) (W.contents writer.new) out)) }
    ensures front { OnErr result (IfSome (R.remaining reader.old) (λ input.
        (out : List ℕ) × IsPartlyAnswered (L.messages language.now) input out
        × Appends (W.contents writer.old) (W.contents writer.new) out)) }
{
    let mut session = Session::new(alloc);
    let mut buffer = Vec::new(alloc);
    let mut chunk = [0; CHUNK];
    for _turn in 0..u64::MAX {
        let Ok(count) = reader.read(&mut chunk) else {
            return Err(Stop::Reading);
        };
        if count == 0 {
            return Ok(if buffer.is_empty() {
                session.exit_status()
            } else {
                1
            });
        }
        buffer.extend_from_slice(&chunk[..count])?;
        let turn = answer_all(alloc, language, &mut session, buffer.as_slice())?;
        write_all(writer, turn.told.as_slice())?;
        match turn.next {
            Next::Ends(status) => return Ok(status),
            Next::GoesOn(len) => drop_front(alloc, &mut buffer, len)?,
        }
    }
    Err(Stop::Reading)
}
