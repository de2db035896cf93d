//! The command that is a language server on standard input and output.
#![tactic(auto)]

use clap::ArgMatches;
use command_report::Outcome;
use document_views::Rust;
use line_reader::Stop;
use rust_source::Edition;
use session_server::serve;

/// Returns what a fault is called.
fn words_of(stop: Stop) -> &'static str {
    match stop {
        Stop::Reading => "standard input cannot be read",
        Stop::Writing => "standard output cannot be written to",
        Stop::Memory => "out of memory",
    }
}

/// Serves an editor on standard input and output, up to its `exit` or the end of the input.
///
/// Texts are of the edition that the command line names, else 2021; an editor may ask for another one.
///
/// Returns [`Outcome::Done`] behind the editor's `shutdown`, else [`Outcome::Found`]; or [`Outcome::Fault`] if reading,
/// writing or memory fails, which standard error says.
pub fn serve_editor(rt: &HostRuntime, matches: &ArgMatches<'_>) -> Outcome {
    let named = matches.get_str("edition").and_then(Edition::from_name);
    let language = Rust {
        edition: named.unwrap_or(Edition::Edition2021),
    };
    let (mut reader, mut writer) = (rt.stdin(), rt.stdout());
    match serve(rt.alloc(), &language, &mut reader, &mut writer) {
        Ok(0) => Outcome::Done,
        Ok(_) => Outcome::Found,
        Err(stop) => {
            let words = words_of(stop);
            let _ = eprintln!(rt; "tevondimby: {words}");
            Outcome::Fault
        }
    }
}
