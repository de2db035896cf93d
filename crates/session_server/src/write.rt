//! Bytes are written.

ghost use Rattle.std.specs.Prelude.{IfErr, OnErr, OnOk, ◌≡◌};
ghost use Rattle.std.specs.Io.KnownBytes.{Appends};
ghost use Rattle.line_reader.specs.Clients.{AppendsFront};
ghost use Rattle.line_reader.specs.declared.serve.Stop.TheVariants.{Writing};

use line_reader::Stop;
use std::io::Write;

/// Writes all the bytes. Stops at the first write that fails, and makes no empty write.
///
/// # Errors
///
/// [`Stop::Writing`] if a write fails, or takes no byte. Then a front of the bytes is written.
pub(crate) fn write_all<W: Write>(writer: &mut W, bytes: &[u8]) -> Result<(), Stop>
    ensures written { OnOk result
        (Appends (W.contents writer.old) (W.contents writer.new) bytes.now) }
    ensures stopped { IfErr result (λ stop. stop ≡ Writing) }
    ensures front { OnErr result
        (AppendsFront (W.contents writer.old) (W.contents writer.new) bytes.now) }
{
    let mut rest = bytes;
    while !rest.is_empty() {
        let Ok(count) = writer.write(rest) else {
            return Err(Stop::Writing);
        };
        if count == 0 {
            return Err(Stop::Writing);
        }
        rest = &rest[count..];
    }
    Ok(())
}
