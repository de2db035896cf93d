//! What the exports do that keep no document.
ghost use Rattle.std.specs.Prelude.{◌≡◌, ◌≢◌, ◌⊎◌, ◌≤◌, false, true, IfOk};
ghost use Rattle.parser_input.specs.Kind.{kind_count, name_of, raw_of};
ghost use Rattle.document_requests.specs.Output.{replies};
ghost use Rattle.kept_document.specs.Buffers.{IsPut};
ghost use Rattle.kept_document.specs.Calls.{RefusesOpening};
ghost use Rattle.kept_document.specs.DeepRequests.{is_deep_request};
ghost use Rattle.kept_document.specs.Dialect.{edition_of, grammar_of};
ghost use Rattle.kept_document.specs.Exports.{HasReason};
ghost use Rattle.kept_document.specs.Texts.{CountsMessages, IsAnswered, IsNamed};

use crate::kept::Kept;
use crate::put::put;
use crate::reason::Reason;
use crate::request_levels::is_deep_request;
use document_requests::Watched;
use document_requests::run::run as answer;
use parser_input::SyntaxKind;
use std::alloc::{AllocError, Global};

/// Counts the messages of a text.
pub fn check(alloc: Global, text: &[u8], edition: u32, grammar: u32, count: &mut usize) -> u32
    ensures counted { result ≡ 0 → CountsMessages (edition_of edition) (grammar_of grammar) text.now
        count.new }
    ensures refused { result ≢ 0 → HasReason (RefusesOpening (edition_of edition)
        (grammar_of grammar) text.now) result }
    ensures none { result ≢ 0 → count.new ≡ 0 }
{
    match Kept::open(alloc, text, edition, grammar) {
        Ok(kept) => {
            *count = kept.document.errors().len();
            0
        }
        Err(reason) => {
            *count = 0;
            reason.code()
        }
    }
}

/// Writes the name of a kind.
pub fn kind_name(kind: u32, out: &mut [u8], written: &mut usize) -> u32
    ensures named { result ≢ 4 → IsNamed kind result out.old out.new written.new }
    ensures refused { result ≡ 4 → (kind_count ≤ kind) × (out.new ≡ out.old) × (written.new ≡ 0) }
{
    if kind > 65535 {
        *written = 0;
        return Reason::NoSuch.code();
    }
    match SyntaxKind::from_raw(kind as u16) {
        Some(kind) => put(kind.name().as_bytes(), out, written),
        None => {
            *written = 0;
            Reason::NoSuch.code()
        }
    }
}

/// What is written for a request, and its status.
#[derive(Drop)]
struct Answer {
    written: Vec<u8>,
    status: u8,
}

/// Returns the answer to a request.
fn answer_to(alloc: Global, request: &[u8]) -> Result<Answer, AllocError>
    ensures { IfOk result (λ answer. (answer.written.items ≡ (replies request.now).written)
        × (answer.status ≡ (replies request.now).status)) }
{
    let mut reader = Watched::new(request);
    let mut writer = Watched::new(Vec::new(alloc));
    let Ok(status) = answer(alloc, &mut reader, &mut writer) else {
        return Err(AllocError);
    };
    let written = writer.into_device();
    Ok(Answer { written, status })
}

/// Answers a request as `document_tool` does. A request with too deep a text is not run.
pub fn run(
    alloc: Global,
    request: &[u8],
    out: &mut [u8],
    written: &mut usize,
    status: &mut u8,
) -> u32
    ensures answered { (result ≡ 0) ⊎ (result ≡ 1) → IsAnswered (replies request.now) result
        out.old out.new written.new status.new }
    ensures codes { ((result ≡ 0) ⊎ (result ≡ 1)) ⊎ ((result ≡ 3) ⊎ (result ≡ 18)) }
    ensures flat { (result ≡ 0) ⊎ (result ≡ 1) → is_deep_request request.now ≡ false }
    ensures deep { result ≡ 18 → is_deep_request request.now ≡ true }
    ensures refused { (result ≡ 3) ⊎ (result ≡ 18) → (out.new ≡ out.old) × (written.new ≡ 0)
        × (status.new ≡ status.old) }
{
    *written = 0;
    let Ok(deep) = is_deep_request(alloc, request) else {
        return Reason::NoMemory.code();
    };
    if deep {
        return Reason::TooDeep.code();
    }
    match answer_to(alloc, request) {
        Ok(answer) => {
            *status = answer.status;
            put(&answer.written, out, written)
        }
        Err(_) => Reason::NoMemory.code(),
    }
}
