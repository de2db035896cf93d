//! A tour of the calls that a tool makes, in sixteen steps. What each step prints is in `stdout`.
//! The guide quotes these steps.
#![tactic(auto)]

mod changes;
mod reading;

use rust_source::{Edition, Source};

/// The text of the tour.
const TEXT: &str = "fn f(a: u8) -> u8 {\n    g(a * 2)\n}\n";

fn main(rt: HostRuntime) -> anyhow::Result<()> {
    let alloc = rt.alloc();
    // 1. A text is opened. Every text of at most 16 MiB is.
    let mut source = Source::open(alloc, Edition::Edition2021, TEXT)?;
    println!(rt;
        "opened: {} bytes, tree {}",
        source.text().len(),
        source.root().tree()
    )?;
    reading::read(&rt, &source)?;
    changes::change(&rt, &mut source)?;
    Ok(())
}
