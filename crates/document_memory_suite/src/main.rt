//! Makes each public call on documents, requests and sources that can run out of memory, and compares its
//! answer with the one that a table has. A call that answers out of memory is made a second time: it
//! has to leave its values as they were, and to give the answer of the table then.
//!
//! Prints a line for each wrong answer, and how many rows there are. A line before them names the
//! call that answered out of memory. `bench/refused.py --calls` runs the program again and again
//! with one request for memory refused, each in turn.
#![tactic(auto)]

mod differences;
mod documents;
mod grammars;
mod renames;
mod requests;
mod sources;
mod tools;

use memory_table::row::{Tally, try_all};

fn main(rt: HostRuntime) -> anyhow::Result<()> {
    let alloc = rt.alloc();
    let mut tally = Tally::new(alloc);
    try_all(alloc, documents::ROWS, &mut tally)?;
    try_all(alloc, grammars::ROWS, &mut tally)?;
    try_all(alloc, renames::ROWS, &mut tally)?;
    try_all(alloc, requests::ROWS, &mut tally)?;
    try_all(alloc, sources::ROWS, &mut tally)?;
    try_all(alloc, tools::ROWS, &mut tally)?;
    if tally.refused != 0 {
        println!(rt; "{} out of memory: {}", tally.refused, tally.last_refused)?;
    }
    println!(rt; "{}{} rows tried", tally.wrong, tally.tried)?;
    Ok(())
}
