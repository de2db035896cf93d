//! Lines are read and answered.

ghost use Rattle.std.specs.Prelude.{◌≡◌, ◌++◌, ℕ, List, IfErr, IfSome, OnErr, OnOk, true};
ghost use Rattle.std.specs.Io.KnownBytes.{Appends};
ghost use Rattle.line_reader.specs.Clients.{AppendsFront, IsFresh, NoneFailed, SameReading, StopsServing, StopsWriting, Wrote, WroteFront};
ghost use Rattle.line_reader.specs.Lines.{answers, lines, whole_lines, open_part, IsPlain};
ghost use Rattle.line_reader.specs.Parts.{IsFront};

use crate::client::Client;
use crate::line::{Line, line_len};
use std::alloc::{AllocError, Global};

/// How many bytes a read asks for.
const CHUNK: usize = 65_536;

/// Why serving ended before the end of the lines.
#[derive(Clone, Copy, Debug, PartialEq, Eq, Drop)]
pub enum Stop {
    /// A read failed, or 18,446,744,073,709,551,615 reads were made.
    Reading,
    /// A write failed. A write that takes no byte has failed.
    Writing,
    /// Out of memory.
    Memory,
}

impl From<AllocError> for Stop {
    ghost use Rattle.line_reader.specs.declared.serve.Stop.TheVariants.{Memory};
    ghost use Rattle.std.specs.Prelude.{◌≡◌};

    ghost from_gives = { λ _ stop. stop ≡ Memory };

    fn from(_error: AllocError) -> Stop {
        Stop::Memory
    }
}

/// Writes all the bytes. Stops at the first write that fails, and makes no empty write.
fn write_all<C: Client>(client: &mut C, bytes: &[u8]) -> Result<(), Stop>
    ensures reading { SameReading (C.seen client.old) (C.seen client.new) }
    ensures written { OnOk result (Wrote (C.seen client.old) (C.seen client.new)
        bytes.now) }
    ensures none_failed { OnOk result (NoneFailed (C.seen client.old) (C.seen client.new)) }
    ensures stopped { IfErr result (StopsWriting (C.seen client.old) (C.seen client.new)) }
    ensures front { OnErr result (WroteFront (C.seen client.old) (C.seen client.new)
        bytes.now) }
{
    let mut rest = bytes;
    while !rest.is_empty() {
        let Ok(count) = client.write(rest) else {
            return Err(Stop::Writing);
        };
        if count == 0 {
            return Err(Stop::Writing);
        }
        rest = &rest[count..];
    }
    Ok(())
}

/// Writes the answer to a line.
fn answer_line<C: Client>(alloc: Global, line: &Line, client: &mut C) -> Result<(), Stop>
    ensures reading { SameReading (C.seen client.old) (C.seen client.new) }
    ensures written { OnOk result ((sent : List ℕ)
        → IsFront C.MAX_LINE sent line.now.bytes.items line.now.is_long
        → Wrote (C.seen client.old) (C.seen client.new)
        (C.answer_to sent)) }
    ensures none_failed { OnOk result (NoneFailed (C.seen client.old) (C.seen client.new)) }
    ensures stopped { IfErr result (StopsWriting (C.seen client.old) (C.seen client.new)) }
    ensures front { OnErr result ((sent : List ℕ)
        → IsFront C.MAX_LINE sent line.now.bytes.items line.now.is_long
        → WroteFront (C.seen client.old) (C.seen client.new)
        (C.answer_to sent)) }
{
    let answer = client.answer(alloc, line.bytes.as_slice(), line.is_long)?;
    write_all(client, answer.as_str().as_bytes())
}

/// Answers the lines that end in a chunk, the first of which has begun with `line`. Keeps what is behind
/// the last line feed in `line`.
fn answer_chunk<C: Client>(
    alloc: Global,
    chunk: &[u8],
    line: &mut Line,
    client: &mut C,
) -> Result<(), Stop>
    ensures reading { SameReading (C.seen client.old) (C.seen client.new) }
    ensures kept { OnOk result ((begun : List ℕ) → IsPlain begun
        → IsFront C.MAX_LINE begun line.old.bytes.items line.old.is_long
        → IsFront C.MAX_LINE (open_part (begun ++ chunk.now)) line.new.bytes.items
        line.new.is_long) }
    ensures written { OnOk result ((begun : List ℕ) → IsPlain begun
        → IsFront C.MAX_LINE begun line.old.bytes.items line.old.is_long
        → Wrote (C.seen client.old) (C.seen client.new)
        (answers C.answer_to (whole_lines (begun ++ chunk.now)))) }
    ensures none_failed { OnOk result (NoneFailed (C.seen client.old) (C.seen client.new)) }
    ensures stopped { IfErr result (StopsWriting (C.seen client.old) (C.seen client.new)) }
    ensures front { OnErr result ((begun : List ℕ) → IsPlain begun
        → IsFront C.MAX_LINE begun line.old.bytes.items line.old.is_long
        → WroteFront (C.seen client.old) (C.seen client.new)
        (answers C.answer_to (whole_lines (begun ++ chunk.now)))) }
{
    let mut rest = chunk;
    while !rest.is_empty() {
        let (part, behind) = rest.split_at(line_len(rest));
        line.append(C::MAX_LINE, part)?;
        if behind.is_empty() {
            return Ok(());
        }
        answer_line(alloc, line, client)?;
        line.clear();
        rest = &behind[1..];
    }
    Ok(())
}

/// Answers a line that has no line feed, if one has begun.
fn answer_last<C: Client>(alloc: Global, line: &Line, client: &mut C) -> Result<(), Stop>
    ensures reading { SameReading (C.seen client.old) (C.seen client.new) }
    ensures written { OnOk result ((begun : List ℕ) → IsPlain begun
        → IsFront C.MAX_LINE begun line.now.bytes.items line.now.is_long
        → Wrote (C.seen client.old) (C.seen client.new)
        (answers C.answer_to (lines begun))) }
    ensures none_failed { OnOk result (NoneFailed (C.seen client.old) (C.seen client.new)) }
    ensures stopped { IfErr result (StopsWriting (C.seen client.old) (C.seen client.new)) }
    ensures front { OnErr result ((begun : List ℕ) → IsPlain begun
        → IsFront C.MAX_LINE begun line.now.bytes.items line.now.is_long
        → WroteFront (C.seen client.old) (C.seen client.new)
        (answers C.answer_to (lines begun))) }
{
    if line.is_empty() {
        return Ok(());
    }
    answer_line(alloc, line, client)
}

/// Answers each line that a client sends, in order, up to its end. The last line may lack its line feed.
///
/// It reads only when each whole line that was sent is answered, and not after the end, as
/// [`Client::read`] requires. Of a line only [`Client::MAX_LINE`] bytes are kept.
///
/// # Errors
///
/// - [`Stop::Reading`] if a read fails, or after 18,446,744,073,709,551,615 reads.
/// - [`Stop::Writing`] if a write fails, or takes no byte.
/// - [`Stop::Memory`] if an allocation fails.
///
/// It stops at the first call that fails. Then a front of the answers is written.
pub fn serve_lines<C: Client>(alloc: Global, client: &mut C) -> Result<(), Stop>
    requires { IsFresh (C.seen client.old) }
    ensures written { OnOk result (IfSome (C.seen client.old).left (λ input.
        Appends (C.seen client.old).contents (C.seen client.new).contents
        (answers C.answer_to (lines input)))) }
    ensures ended { OnOk result ((C.seen client.new).is_ended ≡ true) }
    ensures none_failed { OnOk result (NoneFailed (C.seen client.old) (C.seen client.new)) }
    ensures stopped { IfErr result (StopsServing (C.seen client.old) (C.seen client.new)) }
    ensures front { OnErr result (IfSome (C.seen client.old).left (λ input.
        AppendsFront (C.seen client.old).contents (C.seen client.new).contents
        (answers C.answer_to (lines input)))) }
{
    let mut line = Line::new(alloc);
    let mut chunk = [0; CHUNK];
    for _turn in 0..u64::MAX {
        let Ok(count) = client.read(&mut chunk) else {
            return Err(Stop::Reading);
        };
        if count == 0 {
            return answer_last(alloc, &line, client);
        }
        answer_chunk(alloc, &chunk[..count], &mut line, client)?;
    }
    Err(Stop::Reading)
}
