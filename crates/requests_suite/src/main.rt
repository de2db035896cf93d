//! Replays cases of requests: each line of the input is a JSON object with a request, what must be written for it, and the exit
//! status; or with requests that stand on a line each, and what must be written for them. Prints the cases that are answered
//! otherwise, and how many there are of both.
//!
//! Of the cases that lie beside it, those with a name were worked by hand; the others were computed by a slow, plain reader of the rules
//! that shares no code with these crates.
#![tactic(auto)]

use document_requests::run::run;
use document_requests::{Dialogue, Fault, Watched, serve_lines};
use serde_json::Value;
use std::alloc::Global;
use std::io;

#[cfg(test)]
mod tests;

/// Returns `true` if the requests on `lines` are answered by `expected`.
fn are_answered(alloc: Global, lines: &str, expected: Option<&str>) -> anyhow::Result<bool> {
    let mut output = Vec::new(alloc);
    let mut client = Dialogue::new(lines.as_bytes(), &mut output);
    serve_lines(alloc, &mut client).map_err(Fault::from)?;
    Ok(expected.is_some_and(|text| text.as_bytes() == output.as_slice()))
}

/// Whether a case is answered as it says.
fn is_met(alloc: Global, line: &str) -> anyhow::Result<bool> {
    let case = Value::from_str(alloc, line)?;
    let expected = case.get("output").and_then(Value::as_str);
    if let Some(lines) = case.get("lines").and_then(Value::as_str) {
        return are_answered(alloc, lines, expected);
    }
    let Some(mut input) = case
        .get("request")
        .and_then(Value::as_str)
        .map(str::as_bytes)
    else {
        return Ok(false);
    };
    let expected_status = case.get("status").and_then(Value::as_u64);
    let mut output = Vec::new(alloc);
    let mut reader = Watched::new(&mut input);
    let mut writer = Watched::new(&mut output);
    let status = run(alloc, &mut reader, &mut writer)?;
    let written = expected.is_some_and(|text| text.as_bytes() == output.as_slice());
    Ok(written && expected_status == Some(u64::from(status)))
}

fn main(rt: HostRuntime) -> anyhow::Result<()> {
    let alloc = rt.alloc();
    let cases = io::read_to_string(alloc, rt.reader())?;
    let mut passed = 0u32;
    let mut failed = 0u32;
    for line in cases.as_str().lines() {
        if is_met(alloc, line)? {
            passed = passed.saturating_add(1);
        } else {
            println!(rt; "{line}")?;
            failed = failed.saturating_add(1);
        }
    }
    println!(rt; "{passed} passed, {failed} failed")?;
    Ok(())
}
