//! Makes the calls of the command over files on files in memory, also where one call of the files
//! fails, each in turn, and compares what they answer with a table. A call that answers out of memory is
//! made a second time: the files have their old bytes or the new ones then, and the second call
//! gives the answer of the table.
//!
//! Prints a line for each wrong answer, and how many rows there are. A line before them names the
//! call that answered out of memory. `bench/refused.py --calls` runs the program again and again
//! with one request for memory refused, each in turn.
#![tactic(auto)]

mod failing;
mod files;
mod outcome;
mod renames;
mod rewrites;
mod views;

use memory_table::row::{Tally, try_all};

fn main(rt: HostRuntime) -> anyhow::Result<()> {
    let alloc = rt.alloc();
    let mut tally = Tally::new(alloc);
    try_all(alloc, views::ROWS, &mut tally)?;
    try_all(alloc, renames::ROWS, &mut tally)?;
    try_all(alloc, rewrites::ROWS, &mut tally)?;
    if tally.refused != 0 {
        println!(rt; "{} out of memory: {}", tally.refused, tally.last_refused)?;
    }
    println!(rt; "{}{} rows tried", tally.wrong, tally.tried)?;
    Ok(())
}
