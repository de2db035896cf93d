//! Executes recorded changes: each line of the input is a JSON object with trees, of which the
//! first is edited, a mapping, changes, and the expected result. Prints the cases with another
//! result, and the numbers of passed and failed cases.
//!
//! The cases next to it were computed by a slow, plain reference implementation that shares no code
//! with these crates.
#![tactic(auto)]

use anyhow::Context;
use serde_json::Value;
use std::alloc::Global;
use std::io;

mod case;
mod laws;

fn main(rt: HostRuntime) -> anyhow::Result<()> {
    let alloc: Global = rt.alloc();
    let cases = io::read_to_string(alloc, rt.reader())?;
    let mut passed = 0u32;
    let mut failed = 0u32;
    for line in cases.as_str().lines() {
        let case = Value::from_str(alloc, line).context("a line is no JSON")?;
        if case::is_met(alloc, &case)? {
            passed = passed.saturating_add(1);
        } else {
            println!(rt; "{line}")?;
            failed = failed.saturating_add(1);
        }
    }
    println!(rt; "{passed} passed, {failed} failed")?;
    Ok(())
}
