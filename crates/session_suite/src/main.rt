//! Replays stored sessions of a language server in memory: whole, byte by byte, and with each read and each write failing
//! in turn, and compares what is written with a table.
//!
//! A row of the table on standard input is an object: its name, the bytes that the client sends (of each entry of `in`
//! that is a string, with a header in front; of an entry in a list as they are), and what it is to be told, with the exit
//! status last. Prints a line for each wrong session, and how many were replayed.
#![tactic(auto)]

mod compare;
mod device;
mod replay;
mod row;

use anyhow::Result;
use replay::Tally;
use std::io::Read;

/// Returns all of standard input.
fn table(rt: &HostRuntime) -> Result<String> {
    let mut text = String::new(rt.alloc());
    rt.stdin().read_to_string(&mut text)?;
    Ok(text)
}

fn main(rt: HostRuntime) -> Result<()> {
    let alloc = rt.alloc();
    let table = table(&rt)?;
    let mut tally = Tally::new(alloc);
    for line in table.as_str().lines() {
        let row = row::row_in(alloc, line)?;
        replay::replay(alloc, &row, &mut tally)?;
    }
    let Tally {
        wrong,
        sessions,
        runs,
    } = tally;
    println!(rt; "{wrong}{sessions} sessions in {runs} runs")?;
    Ok(())
}
