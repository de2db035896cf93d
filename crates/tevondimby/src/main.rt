//! The command `tevondimby`: messages, tokens and trees of source files, matches of patterns in them,
//! renamings, replacements and rewrites of them, and answers to requests.
#![tactic(auto)]

mod rewrite;
mod run;
mod serve;
mod version;
mod view;

use command_report::Outcome;
use std::process::ExitCode;

fn main(rt: HostRuntime) -> ExitCode {
    let outcome = match run::run(&rt) {
        Ok(outcome) => outcome,
        Err(error) => {
            let _ = eprintln!(rt; "tevondimby: {error}");
            Outcome::Fault
        }
    };
    ExitCode::from(outcome.status())
}
