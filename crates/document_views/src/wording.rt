//! The words of a message.

ghost use Rattle.std.specs.Prelude.{◌≡◌, IfOk, string_bytes};
ghost use Rattle.parser_events.specs.Seen.{message_of};
ghost use Rattle.rust_document.specs.Seen.{fault_of};
ghost use Rattle.document_views.specs.Words.{message_words, words};

use kind_words::words_of;
use parser_events::message::Message;
use rust_source::SyntaxMessage;
use std::alloc::{AllocError, Global};

/// Returns the words of a message of the parser.
fn parser_words(alloc: Global, message: Message) -> Result<String, AllocError>
    ensures { IfOk result (λ said. string_bytes said ≡ message_words (message_of message)) }
{
    match message {
        Message::Expected(kind) => {
            let words = words_of(kind);
            let said = format!(in alloc; "expected {words}")?;
            Ok(said)
        }
        Message::UnexpectedIn(list) => {
            let words = words_of(list);
            let said = format!(in alloc; "unexpected token in {words}")?;
            Ok(said)
        }
        other => {
            let said = format!(in alloc; "{other}")?;
            Ok(said)
        }
    }
}

/// Returns the words of a message, with the words of the language for kinds.
pub(crate) fn message_words(alloc: Global, message: &SyntaxMessage) -> Result<String, AllocError>
    ensures { IfOk result (λ said. string_bytes said ≡ words (fault_of message.now)) }
{
    match message {
        SyntaxMessage::Parser(message) => parser_words(alloc, *message),
        SyntaxMessage::Lexer(words) => String::from_str(alloc, words),
    }
}
