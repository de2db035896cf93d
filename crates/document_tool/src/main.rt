//! Answers the request on standard input: a Rust text is read, changes to it are made, and what became of them is printed.
#![tactic(auto)]

use document_requests::Watched;
use document_requests::run::run;
use std::process::ExitCode;

/// The exit status where a run stopped before its answer was written.
const FAULT: u8 = 2;

fn main(rt: HostRuntime) -> ExitCode {
    let mut reader = Watched::new(rt.stdin());
    let mut writer = Watched::new(rt.stdout());
    match run(rt.alloc(), &mut reader, &mut writer) {
        Ok(status) => ExitCode::from(status),
        Err(fault) => {
            let _ = eprintln!(rt; "{fault}");
            ExitCode::from(FAULT)
        }
    }
}
