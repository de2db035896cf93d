//! Makes each public call that can run out of memory, but for those on documents and requests
//! (`document_memory_suite`), and compares its answer with the one that a table has. A call that
//! answers out of memory is made a second time: it has to leave its values as they were, and to give
//! the answer of the table then.
//!
//! Prints a line for each wrong answer, and how many rows there are. A line before them names the
//! call that answered out of memory. `bench/refused.py --calls` runs the program again and again
//! with one request for memory refused, each in turn.
#![tactic(auto)]

mod around;
mod cursors;
mod editors;
mod finding;
mod green;
mod indents;
mod leaves;
mod mappings;
mod recording;
mod trees;
mod typed;
mod walks;

use memory_table::row::{Tally, try_all};

fn main(rt: HostRuntime) -> anyhow::Result<()> {
    let alloc = rt.alloc();
    let mut tally = Tally::new(alloc);
    try_all(alloc, leaves::ROWS, &mut tally)?;
    try_all(alloc, green::ROWS, &mut tally)?;
    try_all(alloc, cursors::ROWS, &mut tally)?;
    try_all(alloc, finding::ROWS, &mut tally)?;
    try_all(alloc, walks::ROWS, &mut tally)?;
    try_all(alloc, trees::ROWS, &mut tally)?;
    try_all(alloc, around::ROWS, &mut tally)?;
    try_all(alloc, mappings::ROWS, &mut tally)?;
    try_all(alloc, editors::ROWS, &mut tally)?;
    try_all(alloc, typed::ROWS, &mut tally)?;
    try_all(alloc, indents::ROWS, &mut tally)?;
    if tally.refused != 0 {
        println!(rt; "{} out of memory: {}", tally.refused, tally.last_refused)?;
    }
    println!(rt; "{}{} rows tried", tally.wrong, tally.tried)?;
    Ok(())
}
