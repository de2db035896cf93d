//! Answers as a line of JSON each.
ghost use Rattle.std.specs.Prelude.{◌≡◌, ◌∷◌, [], IfOk, map, string_bytes};
ghost use Rattle.serde_json.specs.Data.{string};
ghost use Rattle.serde_json.specs.Written.{compact_text};
ghost use Rattle.document_requests.specs.Answered.{reply as answered};
ghost use Rattle.document_requests.specs.LineAnswers.{answer_line, replies_text};
ghost use Rattle.document_requests.specs.Outcome.{ran_of};
ghost use Rattle.document_requests.specs.Output.{Completed, Rejected};

use crate::print::reply_values;
use crate::reply::{Refusal, Reply};
use crate::serve::Outcome;
use serde_json::Value;
use std::alloc::{AllocError, Global};

/// Returns replies as a list in JSON.
fn replies_text(alloc: Global, replies: &[Reply]) -> Result<String, AllocError>
    ensures { IfOk result (λ text. string_bytes text ≡ replies_text (map answered replies.now)) }
{
    let values = Value::Array(reply_values(alloc, replies)?);
    values.to_string(alloc)
}

/// Returns a text as a string in JSON.
fn string_text(alloc: Global, text: &str) -> Result<String, AllocError>
    ensures { IfOk result (λ written. string_bytes written ≡ compact_text (string text.now)) }
{
    let value = Value::String(String::from_str(alloc, text)?);
    value.to_string(alloc)
}

/// Returns the line that answers a request which is not run.
pub fn rejected_line(alloc: Global, refusal: Refusal) -> Result<String, AllocError>
    ensures { IfOk result (λ text. string_bytes text ≡ answer_line (Rejected refusal)) }
{
    let replies = replies_text(alloc, &[Reply::Refused(refusal)])?;
    format!(in alloc; "{{\"status\":1,\"replies\":{replies}}}\n")
}

/// Returns the line that answers a request which was run.
fn completed_line(alloc: Global, replies: &[Reply], text: &str) -> Result<String, AllocError>
    ensures { IfOk result (λ line. string_bytes line
        ≡ answer_line (Completed (map answered replies.now) text.now)) }
{
    let replies = replies_text(alloc, replies)?;
    let text = string_text(alloc, text)?;
    format!(in alloc; "{{\"status\":0,\"replies\":{replies},\"text\":{text}}}\n")
}

/// Returns the line that answers a request: its status, the replies, and the text as it is then.
///
/// # Errors
///
/// [`AllocError`] if an allocation fails.
pub fn answer_line(alloc: Global, outcome: &Outcome) -> Result<String, AllocError>
    ensures { IfOk result (λ line. string_bytes line ≡ answer_line (ran_of outcome.now)) }
{
    match outcome {
        Outcome::NotRun(refusal) => rejected_line(alloc, *refusal),
        Outcome::Run { document, replies } => completed_line(alloc, replies, document.text()),
    }
}
