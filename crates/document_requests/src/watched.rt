//! A device that counts its calls.
ghost use Rattle.std.specs.Prelude.{◌≡◌, ◌≢◌, ◌+◌, if◌then◌else◌, is_err, length, None, IfOk, OnOk, OnErr};
ghost use Rattle.std.specs.Io.{ReadsAtMost, WritesAtMost};
ghost use Rattle.std.specs.Io.KnownBytes.{Keeps, ReadConsumes, WriteAppends};

use std::io;
use std::io::{Read, Write};

/// A reader or a writer that counts its calls and those of them that failed, and notes which call
/// failed first, and which met the end of the input first. A read fails by an error, a write by an
/// error or by taking no byte. A count stays at 18,446,744,073,709,551,615.
#[derive(Drop)]
pub struct Watched<D> {
    device: D,
    calls: u64,
    failures: u64,
    failure: Option<u64>,
    end: Option<u64>,
}

impl<D> Watched<D> {
    ghost use Rattle.document_requests.specs.Watched.{device_of, calls_of, failures_of, failure_of, end_of, counted, first_call};

    /// A device of which no call was made yet.
    pub fn new(device: D) -> Watched<D>
        ensures device { device_of result ≡ device }
        ensures calls { calls_of result ≡ 0 }
        ensures failures { failures_of result ≡ 0 }
        ensures failure { failure_of result ≡ None }
        ensures end { end_of result ≡ None }
    {
        Watched {
            device,
            calls: 0,
            failures: 0,
            failure: None,
            end: None,
        }
    }

    /// Returns the device.
    pub fn into_device(self) -> D
        ensures { result ≡ device_of self }
    {
        let Watched { device, .. } = self;
        device
    }

    /// How many calls were made.
    pub fn calls(&self) -> u64
        ensures { result ≡ calls_of self.now }
    {
        self.calls
    }

    /// How many calls failed.
    pub fn failures(&self) -> u64
        ensures { result ≡ failures_of self.now }
    {
        self.failures
    }

    /// Returns the number of the first call that failed, counted from 1 on.
    pub fn failure(&self) -> Option<u64>
        ensures { result ≡ failure_of self.now }
    {
        self.failure
    }

    /// The number of the first call that met the end of the input, counted from 1 on.
    pub fn end(&self) -> Option<u64>
        ensures { result ≡ end_of self.now }
    {
        self.end
    }

    /// Counts a call.
    fn count(&mut self, failed: bool)
        ensures device { device_of self.new ≡ device_of self.old }
        ensures calls { calls_of self.new ≡ counted (calls_of self.old + 1) }
        ensures failures { failures_of self.new ≡
            (if failed then counted (failures_of self.old + 1) else failures_of self.old) }
        ensures failure { failure_of self.new
            ≡ first_call (failure_of self.old) failed (calls_of self.new) }
        ensures end { end_of self.new ≡ end_of self.old }
    {
        self.calls = self.calls.saturating_add(1);
        if failed {
            self.failures = self.failures.saturating_add(1);
            if self.failure.is_none() {
                self.failure = Some(self.calls);
            }
        }
    }
}

impl<R: Read> Read for Watched<R> {
    ghost use Rattle.document_requests.specs.Watched.{device_of, calls_of, failures_of, failure_of, end_of, counted, is_end, first_call};

    ghost remaining = { λ w. R.remaining (device_of w) };

    fn read(&mut self, buf: &mut [u8]) -> io::Result<usize>
        ensures bound { ReadsAtMost result buf.new }
        ensures bytes { ReadConsumes (R.remaining (device_of self.old))
            (R.remaining (device_of self.new)) result buf.new }
        ensures calls { calls_of self.new ≡ counted (calls_of self.old + 1) }
        ensures ok { OnOk result (failures_of self.new ≡ failures_of self.old) }
        ensures err { OnErr result (failures_of self.new ≡ counted (failures_of self.old + 1)) }
        ensures failure { failure_of self.new
            ≡ first_call (failure_of self.old) (is_err result) (calls_of self.new) }
        ensures end { end_of self.new
            ≡ first_call (end_of self.old) (is_end result (length buf.old))
            (calls_of self.new) }
    {
        let asked = buf.len();
        let result = self.device.read(buf);
        self.count(result.is_err());
        if asked > 0 && self.end.is_none() && matches!(&result, Ok(0)) {
            self.end = Some(self.calls);
        }
        result
    }
}

impl<W: Write> Write for Watched<W> {
    ghost use Rattle.document_requests.specs.Watched.{device_of, calls_of, failures_of, failure_of, counted, first_call, is_failed_write};

    ghost contents = { λ w. W.contents (device_of w) };

    fn write(&mut self, buf: &[u8]) -> io::Result<usize>
        ensures bound { WritesAtMost result buf.now }
        ensures bytes { WriteAppends (W.contents (device_of self.old))
            (W.contents (device_of self.new)) result buf.now }
        ensures calls { calls_of self.new ≡ counted (calls_of self.old + 1) }
        ensures some { IfOk result (λ n. n ≢ 0 → failures_of self.new ≡ failures_of self.old) }
        ensures none { IfOk result (λ n. n ≡ 0 → failures_of self.new
            ≡ counted (failures_of self.old + 1)) }
        ensures err { OnErr result (failures_of self.new ≡ counted (failures_of self.old + 1)) }
        ensures failure { failure_of self.new ≡ first_call (failure_of self.old)
            (is_failed_write result) (calls_of self.new) }
    {
        let result = self.device.write(buf);
        self.count(!matches!(&result, Ok(1..)));
        result
    }

    fn flush(&mut self) -> io::Result<()>
        ensures bytes { Keeps (W.contents (device_of self.old)) (W.contents (device_of self.new)) }
        ensures calls { calls_of self.new ≡ counted (calls_of self.old + 1) }
        ensures ok { OnOk result (failures_of self.new ≡ failures_of self.old) }
        ensures err { OnErr result (failures_of self.new ≡ counted (failures_of self.old + 1)) }
        ensures failure { failure_of self.new
            ≡ first_call (failure_of self.old) (is_err result) (calls_of self.new) }
    {
        let result = self.device.flush();
        self.count(result.is_err());
        result
    }
}
