//! Requests in bytes, and their results.
ghost use Rattle.std.specs.Prelude.{◌≡◌, map, option_map, IfOk};
ghost use Rattle.document_requests.specs.Asked.{request as request_asked};
ghost use Rattle.document_requests.specs.Outcome.{output, ran_of};
ghost use Rattle.document_requests.specs.Output.{NamesProfile, of_value, ran, ran_as, replies, served};
ghost use Rattle.serde_json.specs.View.{view};

use crate::apply::apply;
use crate::floats::{has_float, writes_float};
use crate::reply::{Refusal, Reply};
use crate::request::{Format, Request};
use crate::shape::request_of;
use rust_document::{Document, OpenError};
use serde_json::{Category, Value};
use std::alloc::{AllocError, Global};
use syntax_tree::TreeIds;

/// What became of a request.
#[derive(Drop)]
pub enum Outcome {
    /// It was not run.
    NotRun(Refusal),
    /// It was run: the document that it left, and a reply for each command.
    Run {
        document: Document,
        replies: Vec<Reply>,
    },
}

/// Runs a request.
fn serve(alloc: Global, request: &Request<'_>) -> Result<Outcome, AllocError>
    ensures { IfOk result (λ outcome. ran_of outcome ≡ served (request_asked request.now)) }
{
    let mut ids = TreeIds::new();
    let (edition, grammar) = (request.edition, request.grammar);
    let mut document = match Document::open_by(alloc, edition, grammar, request.text, &mut ids) {
        Ok(document) => document,
        Err(OpenError::TooLong) => return Ok(Outcome::NotRun(Refusal::TooLong)),
        Err(OpenError::NoTreeNumber) => unreachable!(),
        Err(OpenError::NoMemory) => return Err(AllocError),
    };
    let mut replies = Vec::new(alloc);
    apply(
        alloc,
        &mut document,
        &request.commands,
        &mut replies,
        &mut ids,
    )?;
    Ok(Outcome::Run { document, replies })
}

/// Runs the request of a format that a text holds as a value, if it holds one.
fn serve_value(
    alloc: Global,
    format: Format,
    text: &str,
    value: &Value,
) -> Result<Outcome, AllocError>
    ensures { IfOk result (λ outcome. ran_of outcome ≡ of_value format text.now (view value.now)) }
{
    if has_float(value) && writes_float(text) {
        return Ok(Outcome::NotRun(Refusal::Float));
    }
    match request_of(alloc, format, value)? {
        Some(request) => serve(alloc, &request),
        None => Ok(Outcome::NotRun(Refusal::Request)),
    }
}

/// Runs the request of a format that is in these bytes, if there is one. For a request that names the
/// profile the format makes no difference.
///
/// # Errors
///
/// [`AllocError`] if an allocation fails.
pub fn serve_as(alloc: Global, format: Format, bytes: &[u8]) -> Result<Outcome, AllocError>
    ensures ran { IfOk result (λ outcome. ran_of outcome ≡ ran_as format bytes.now) }
    ensures alike { IfOk result (λ outcome. NamesProfile bytes.now
        → ran_of outcome ≡ ran bytes.now) }
{
    let Ok(text) = str::from_utf8(bytes) else {
        return Ok(Outcome::NotRun(Refusal::Request));
    };
    match Value::from_str(alloc, text) {
        Ok(value) => serve_value(alloc, format, text, &value),
        Err(error) => match error.classify() {
            Category::Memory => Err(AllocError),
            _ => Ok(Outcome::NotRun(Refusal::Request)),
        },
    }
}

/// Runs the request that is in these bytes, if there is one.
pub fn serve_bytes(alloc: Global, bytes: &[u8]) -> Result<Outcome, AllocError>
    ensures output { IfOk result (λ outcome. output outcome ≡ replies bytes.now) }
    ensures ran { IfOk result (λ outcome. ran_of outcome ≡ ran bytes.now) }
{
    serve_as(alloc, Format::Single, bytes)
}
