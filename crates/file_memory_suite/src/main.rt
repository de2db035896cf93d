//! Makes each public call on lines, differences, mentions, rows and files that can run out of memory, and
//! compares its answer with the one that a table has. A call that answers out of memory is made a
//! second time, and has to give the answer of the table then.
//!
//! Prints a line for each wrong answer, and how many rows there are. A line before them names the
//! call that answered out of memory. `bench/refused.py --calls` runs the program again and again
//! with one request for memory refused, each in turn.
#![tactic(auto)]

mod files;
mod reports;
mod texts;

use memory_table::row::{Tally, try_all};

fn main(rt: HostRuntime) -> anyhow::Result<()> {
    let alloc = rt.alloc();
    let mut tally = Tally::new(alloc);
    try_all(alloc, texts::ROWS, &mut tally)?;
    try_all(alloc, reports::ROWS, &mut tally)?;
    try_all(alloc, files::ROWS, &mut tally)?;
    let disk = [(
        "file_target::Disk::{read, write}",
        files::DiskCall { rt: &rt },
        "new",
    )];
    try_all(alloc, disk.as_slice(), &mut tally)?;
    if tally.refused != 0 {
        println!(rt; "{} out of memory: {}", tally.refused, tally.last_refused)?;
    }
    println!(rt; "{}{} rows tried", tally.wrong, tally.tried)?;
    Ok(())
}
