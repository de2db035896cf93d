//! All of the input is read, and bytes are written, through watched devices.
ghost use Rattle.std.specs.Prelude.{◌≡◌, ◌<◌, ◌-◌, ◌^◌, IfSome, IfOk, IfErr, OnOk, OnErr};
ghost use Rattle.std.specs.Io.KnownBytes.{Appends};
ghost use Rattle.document_requests.specs.Watched.{device_of, failures_of};
ghost use Rattle.document_requests.specs.Device.{NoneFailed, OneFailed, BoundsReads, EndsReading, MeetsNoEnd, StopsReading, AppendsFront};
ghost use Rattle.document_requests.specs.declared.fault.Fault.TheVariants.{Writing};

use crate::fault::Fault;
use crate::watched::Watched;
use std::alloc::Global;
use std::io::{Read, Write};

/// The most reads of one run.
const MAX_READS: u32 = 67_108_864;

/// How many bytes a read asks for.
const CHUNK: usize = 65_536;

/// All bytes that a reader gives. Stops at the first read that fails.
pub fn read_to_end<R: Read>(alloc: Global, reader: &mut Watched<R>) -> Result<Vec<u8>, Fault>
    requires { failures_of reader.old < 2 ^ 64 - 1 }
    ensures read { IfOk result (λ bytes. IfSome (R.remaining (device_of reader.old))
        (λ input. bytes.items ≡ input)) }
    ensures none_failed { OnOk result (NoneFailed reader.old reader.new) }
    ensures stopped { IfErr result (StopsReading reader.old reader.new) }
    ensures reads { BoundsReads reader.old reader.new }
    ensures ends { OnOk result (EndsReading reader.old reader.new) }
    ensures meets_no_end { OnErr result (MeetsNoEnd reader.old reader.new) }
{
    let mut bytes = Vec::new(alloc);
    let mut chunk = [0; CHUNK];
    for _turn in 0..MAX_READS {
        let Ok(count) = reader.read(&mut chunk) else {
            return Err(Fault::Reading);
        };
        if count == 0 {
            return Ok(bytes);
        }
        bytes.extend_from_slice(&chunk[..count])?;
    }
    Err(Fault::Reading)
}

/// Writes all the bytes. Stops at the first write that fails, and makes no empty write.
pub fn write_all<W: Write>(writer: &mut Watched<W>, bytes: &[u8]) -> Result<(), Fault>
    requires { failures_of writer.old < 2 ^ 64 - 1 }
    ensures written { OnOk result
        (Appends (W.contents (device_of writer.old))
        (W.contents (device_of writer.new)) bytes.now) }
    ensures none_failed { OnOk result (NoneFailed writer.old writer.new) }
    ensures fault { IfErr result (λ fault. fault ≡ Writing) }
    ensures one_failed { OnErr result (OneFailed writer.old writer.new) }
    ensures front { OnErr result
        (AppendsFront (W.contents (device_of writer.old))
        (W.contents (device_of writer.new)) bytes.now) }
{
    let mut rest = bytes;
    while !rest.is_empty() {
        let Ok(count) = writer.write(rest) else {
            return Err(Fault::Writing);
        };
        if count == 0 {
            return Err(Fault::Writing);
        }
        rest = &rest[count..];
    }
    Ok(())
}
