//! Lines on standard error.

use command_report::Outcome;
use file_target::TargetError;
use std::io::IsTerminal;

/// Says what is wrong with the command line.
pub fn usage_error(rt: &HostRuntime, words: &str) -> Outcome {
    let _ = eprintln!(rt; "tevondimby: {words}\n\nFor more information, try '--help'.");
    Outcome::Fault
}

/// Names a file that could not be written.
pub fn report_unwritten(rt: &HostRuntime, path: &str, error: &TargetError) {
    let _ = eprintln!(rt; "tevondimby: {path}: {error}; files before it, if any, are written");
}

/// Says how many files are written, if standard error is a terminal.
pub fn report_written(rt: &HostRuntime, count: usize) {
    if rt.stderr().is_terminal() {
        let files = if count == 1 { "file" } else { "files" };
        let _ = eprintln!(rt; "{count} {files} written");
    }
}
