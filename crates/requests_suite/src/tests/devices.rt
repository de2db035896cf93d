//! Devices that fail in mid-stream.
use document_requests::run::run;
use document_requests::{Fault, Watched};
use std::alloc::Global;
use std::io;
use std::io::{Read, Write};
use std::test::Fail;

/// The most bytes that a call of `FailAt` takes or gives.
const MOST: usize = 16;

const REQUEST: &[u8] =
    br#"{"edition":"2021","text":"struct S;","commands":[{"do":"commit","changes":[{"op":"replace","at":["IDENT",7,8],"with":["token","Tee"]}]}]}"#;

const ANSWER: &[u8] = b"{\"changed\":[[7,10]],\"ok\":\"commit\"}\nstruct Tee;";

/// A reader and a writer over memory. The call of the number `fails`, from 1 on, is refused; none is where that is 0.
#[derive(Drop)]
struct FailAt<'a> {
    input: &'a [u8],
    output: Vec<u8>,
    calls: u64,
    fails: u64,
}

impl<'a> FailAt<'a> {
    fn new(alloc: Global, input: &'a [u8], fails: u64) -> FailAt<'a> {
        FailAt {
            input,
            output: Vec::new(alloc),
            calls: 0,
            fails,
        }
    }

    fn step(&mut self) -> io::Result<()> {
        self.calls = self.calls.saturating_add(1);
        if self.calls == self.fails {
            return Err(io::Error::from(io::ErrorKind::BrokenPipe));
        }
        Ok(())
    }
}

impl Read for FailAt<'_> {
    fn read(&mut self, buf: &mut [u8]) -> io::Result<usize> {
        self.step()?;
        let count = self.input.len().min(buf.len()).min(MOST);
        let (now, later) = self.input.split_at(count);
        buf[..count].copy_from_slice(now);
        self.input = later;
        Ok(count)
    }
}

impl Write for FailAt<'_> {
    fn write(&mut self, buf: &[u8]) -> io::Result<usize> {
        self.step()?;
        let count = buf.len().min(MOST);
        self.output.extend_from_slice(&buf[..count])?;
        Ok(count)
    }

    fn flush(&mut self) -> io::Result<()> {
        self.step()
    }
}

/// A reader that gives one space for each read, and never ends.
#[derive(Drop)]
struct Endless;

impl Read for Endless {
    fn read(&mut self, buf: &mut [u8]) -> io::Result<usize> {
        if buf.is_empty() {
            return Ok(0);
        }
        buf[0] = b' ';
        Ok(1)
    }
}

/// A writer that takes nothing.
#[derive(Drop)]
struct Full;

impl Write for Full {
    fn write(&mut self, _buf: &[u8]) -> io::Result<usize> {
        Ok(0)
    }

    fn flush(&mut self) -> io::Result<()> {
        Ok(())
    }
}

#[test]
fn each_read_in_turn(rt: HostRuntime) -> Result<(), Fail> {
    let alloc = rt.alloc();
    let reads = (REQUEST.len() / MOST + 2) as u64;
    for fails in 1..=reads {
        let mut input = FailAt::new(alloc, REQUEST, fails);
        let mut output = FailAt::new(alloc, &[], 0);
        let mut reader = Watched::new(&mut input);
        let mut writer = Watched::new(&mut output);
        let found = run(alloc, &mut reader, &mut writer);
        assert!(rt; found == Err(Fault::Reading));
        assert!(rt; reader.failures() == 1 && reader.calls() == fails && writer.calls() == 0);
        assert!(rt; output.output.is_empty());
    }
    Ok(())
}

#[test]
fn each_write_in_turn(rt: HostRuntime) -> Result<(), Fail> {
    let alloc = rt.alloc();
    for fails in 1..=4 {
        let mut input = FailAt::new(alloc, REQUEST, 0);
        let mut output = FailAt::new(alloc, &[], fails);
        let mut reader = Watched::new(&mut input);
        let mut writer = Watched::new(&mut output);
        let found = run(alloc, &mut reader, &mut writer);
        assert!(rt; found == Err(Fault::Writing));
        assert!(rt; reader.failures() == 0 && writer.failures() == 1 && writer.calls() == fails);
        assert!(rt; output.output.len() < ANSWER.len() && ANSWER.starts_with(&output.output));
    }
    Ok(())
}

#[test]
fn none_fails(rt: HostRuntime) -> Result<(), Fail> {
    let alloc = rt.alloc();
    let mut input = FailAt::new(alloc, REQUEST, 0);
    let mut output = FailAt::new(alloc, &[], 0);
    let mut reader = Watched::new(&mut input);
    let mut writer = Watched::new(&mut output);
    assert!(rt; run(alloc, &mut reader, &mut writer) == Ok(0));
    assert!(rt; reader.failures() == 0 && writer.failures() == 0 && writer.calls() == 4);
    assert!(rt; output.output.as_slice() == ANSWER);
    Ok(())
}

/// No read fails, and all the same the run ends, with nothing written.
#[test]
fn an_endless_reader(rt: HostRuntime) -> Result<(), Fail> {
    let alloc = rt.alloc();
    let mut output = Vec::new(alloc);
    let mut reader = Watched::new(Endless);
    let mut writer = Watched::new(&mut output);
    assert!(rt; run(alloc, &mut reader, &mut writer) == Err(Fault::Reading));
    assert!(rt; reader.failures() == 0 && reader.calls() == 67_108_864 && writer.calls() == 0);
    assert!(rt; output.is_empty());
    Ok(())
}

#[test]
fn a_full_writer(rt: HostRuntime) -> Result<(), Fail> {
    let mut input = REQUEST;
    let mut reader = Watched::new(&mut input);
    let mut writer = Watched::new(Full);
    assert!(rt; run(rt.alloc(), &mut reader, &mut writer) == Err(Fault::Writing));
    assert!(rt; writer.calls() == 1 && writer.failures() == 1);
    Ok(())
}

#[test]
fn flushes_are_calls(rt: HostRuntime) {
    let mut output = FailAt::new(rt.alloc(), &[], 2);
    let mut writer = Watched::new(&mut output);
    assert!(rt; writer.flush().is_ok() && writer.flush().is_err());
    assert!(rt; writer.calls() == 2 && writer.failures() == 1);
}

/// Each fault, and what is printed of it.
const PRINTED: &[(Fault, &str)] = &[
    (Fault::Reading, "fault: reading"),
    (Fault::Writing, "fault: writing"),
    (Fault::Memory, "fault: memory"),
];

fn is_printed(alloc: Global, (fault, text): &(Fault, &str)) -> Result<bool, Fail> {
    Ok(fault.to_string(alloc)?.as_str() == *text)
}

#[test]
fn faults_are_printed(rt: HostRuntime) -> Result<(), Fail> {
    for row in PRINTED {
        assert!(rt; is_printed(rt.alloc(), row)?, "{}", row.1);
    }
    Ok(())
}
