//! What `--version` says: the version, and which build of which commit this is.

use std::alloc::{AllocError, Global};
use std::{env, fs};

/// The version of the command.
const VERSION: &str = "0.1.0";

/// The variable in which a caller says which build it starts.
const BUILD: &str = "TEVONDIMBY_BUILD";

/// The file that says which build an installed program is, from the program's folder.
const BUILD_FILE: &str = "../share/tevondimby/build";

/// Returns the first line of a text.
fn first_line(alloc: Global, text: &str) -> Result<Option<String>, AllocError> {
    match text.lines().next() {
        Some(line) if !line.is_empty() => Ok(Some(String::from_str(alloc, line)?)),
        _ => Ok(None),
    }
}

/// Returns what the file of an installed program says, if it is there.
fn installed_build(rt: &HostRuntime) -> Result<Option<String>, AllocError> {
    let alloc: Global = rt.alloc();
    let Ok(program) = env::current_exe(rt) else {
        return Ok(None);
    };
    let Some(folder) = program.as_path().parent() else {
        return Ok(None);
    };
    let path = folder.join(alloc, BUILD_FILE)?;
    match fs::read_to_string(rt, path.as_path().as_str()) {
        Ok(text) => first_line(alloc, text.as_str()),
        Err(_) => Ok(None),
    }
}

/// Returns which build of which commit this is, if the caller or the installation says so.
fn build(rt: &HostRuntime) -> Result<Option<String>, AllocError> {
    match env::var(rt, BUILD) {
        Ok(text) => first_line(rt.alloc(), text.as_str()),
        Err(_) => installed_build(rt),
    }
}

/// Returns `true` if the first argument asks for the version.
fn asks_version(words: &[String]) -> bool {
    match words.get(1) {
        Some(word) => matches!(word.as_str(), "--version" | "-V"),
        None => false,
    }
}

/// Returns the version, and if it is asked for, which build of which commit this is.
pub(crate) fn version_of(rt: &HostRuntime, words: &[String]) -> Result<String, AllocError> {
    let alloc: Global = rt.alloc();
    if !asks_version(words) {
        return String::from_str(alloc, VERSION);
    }
    match build(rt)? {
        Some(build) => format!(in alloc; "{VERSION} ({build})"),
        None => format!(in alloc; "{VERSION} (commit and build not known)"),
    }
}
