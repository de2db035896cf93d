//! Requests on standard input are answered.

use anyhow::Result;
use command_report::Outcome;
use document_requests::{Dialogue, Fault, serve_lines};

/// Answers the requests on standard input, one a line.
pub(crate) fn serve(rt: &HostRuntime) -> Result<Outcome> {
    let mut client = Dialogue::new(rt.stdin(), rt.stdout());
    match serve_lines(rt.alloc(), &mut client) {
        Ok(()) => Ok(Outcome::Done),
        Err(stop) => {
            let fault = Fault::from(stop);
            let _ = eprintln!(rt; "tevondimby: {fault}");
            Ok(Outcome::Fault)
        }
    }
}
