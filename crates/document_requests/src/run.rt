//! A run: a request is read, served and answered.
ghost use Rattle.std.specs.Prelude.{◌≡◌, ◌<◌, ◌-◌, ◌^◌, IfSome, IfOk, IfErr, OnOk, OnErr};
ghost use Rattle.std.specs.Io.KnownBytes.{Appends};
ghost use Rattle.document_requests.specs.Device.{NoneFailed, BoundsReads, EndsReading, ReadsNoFurther, StopsWriting, StopsRun, AppendsFront};
ghost use Rattle.document_requests.specs.Outcome.{output};
ghost use Rattle.document_requests.specs.Output.{replies};
ghost use Rattle.document_requests.specs.Watched.{device_of, failures_of};

use crate::device::{read_to_end, write_all};
use crate::fault::Fault;
use crate::print::{line, lines};
use crate::reply::Reply;
use crate::serve::{Outcome, serve_bytes};
use crate::watched::Watched;
use std::alloc::Global;
use std::io::{Read, Write};

/// Writes what an outcome is answered, and gives the exit status.
fn write_outcome<W: Write>(
    alloc: Global,
    writer: &mut Watched<W>,
    outcome: &Outcome,
) -> Result<u8, Fault>
    requires { failures_of writer.old < 2 ^ 64 - 1 }
    ensures written { OnOk result (Appends (W.contents (device_of writer.old))
        (W.contents (device_of writer.new)) (output outcome.now).written) }
    ensures status { IfOk result (λ status. status ≡ (output outcome.now).status) }
    ensures none_failed { OnOk result (NoneFailed writer.old writer.new) }
    ensures stopped { IfErr result (StopsWriting writer.old writer.new) }
    ensures front { OnErr result (AppendsFront (W.contents (device_of writer.old))
        (W.contents (device_of writer.new)) (output outcome.now).written) }
{
    match outcome {
        Outcome::NotRun(refusal) => {
            let line = line(alloc, &Reply::Refused(*refusal))?;
            write_all(writer, line.as_bytes())?;
            Ok(1)
        }
        Outcome::Run { document, replies } => {
            let lines = lines(alloc, replies)?;
            write_all(writer, lines.as_bytes())?;
            write_all(writer, document.text().as_bytes())?;
            Ok(0)
        }
    }
}

/// Reads a request to its end, and answers it: a line for each command and then the text as it is,
/// with status 0; or one line where the request is not run, with status 1. The request is read by the
/// profile.
///
/// Stops at the first call of a device that fails, or after 67,108,864 reads that did not reach the
/// end. What was written then is a front of the answer; where reading failed, nothing. Nothing is
/// read after the end of the input, and no write is empty.
pub fn run<R: Read, W: Write>(
    alloc: Global,
    reader: &mut Watched<R>,
    writer: &mut Watched<W>,
) -> Result<u8, Fault>
    requires reads { failures_of reader.old < 2 ^ 64 - 1 }
    requires writes { failures_of writer.old < 2 ^ 64 - 1 }
    ensures written { OnOk result
        (IfSome (R.remaining (device_of reader.old))
        (λ input. Appends (W.contents (device_of writer.old)) (W.contents (device_of writer.new))
        (replies input).written)) }
    ensures status { IfOk result (λ status. IfSome (R.remaining (device_of reader.old))
        (λ input. status ≡ (replies input).status)) }
    ensures none_read_failed { OnOk result (NoneFailed reader.old reader.new) }
    ensures none_write_failed { OnOk result (NoneFailed writer.old writer.new) }
    ensures stopped { IfErr result (StopsRun reader.old reader.new writer.old writer.new) }
    ensures reads { BoundsReads reader.old reader.new }
    ensures ends { OnOk result (EndsReading reader.old reader.new) }
    ensures reads_no_further { ReadsNoFurther reader.old reader.new }
    ensures front { OnErr result (IfSome (R.remaining (device_of reader.old)) (λ input. AppendsFront
        (W.contents (device_of writer.old)) (W.contents (device_of writer.new))
        (replies input).written)) }
{
    let bytes = read_to_end(alloc, reader)?;
    let outcome = serve_bytes(alloc, &bytes)?;
    write_outcome(alloc, writer, &outcome)
}
