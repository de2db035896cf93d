//! What a command is answered.
use rowan_green::TextRange;
use rust_document::SyntaxError;

/// What became of a command.
#[derive(Debug, Drop)]
pub enum Reply {
    /// An edit was made.
    Edit,
    /// A commit was accepted; `changed` are the ranges of the new text that it inserted.
    Commit { changed: Vec<TextRange> },
    /// The tree: a line for each element, a node before what it holds, with two spaces for each
    /// node around it.
    Tree { lines: Vec<String> },
    /// The messages, the parser's before the lexer's.
    Errors { list: Vec<SyntaxError> },
    /// Nothing was done.
    Refused(Refusal),
}

/// Why a command or a whole request was refused.
#[derive(Clone, Copy, Debug, PartialEq, Eq)]
pub enum Refusal {
    /// It is no request: no UTF-8, no JSON, or of another shape.
    Request,
    /// It holds a number with a point or an exponent.
    Float,
    /// An edit begins after its end, ends after the text, or has an end inside of a character.
    Range,
    /// The document's text would have more than 16,777,216 bytes.
    TooLong,
    /// No element of the text has the target's kind and bytes.
    NoTarget,
    /// The text to be put is not what it is to be read as, or has more than 16,777,216 bytes.
    Payload,
    /// The target of an insertion is the root, which has no siblings.
    NoParent,
    /// The root would be deleted, or a token would take its place.
    BadTarget,
    /// Two changes replace one element.
    Intersecting,
    /// A change in a replaced element has no place in what replaces it.
    MissingMapping,
    /// The new text does not read as the rewritten tree.
    Unfaithful,
    /// No tree number is left.
    NoTreeNumber,
    /// The present or the new text has messages, and the commit is to leave none.
    Messages,
}

impl Refusal {
    ghost use Rattle.std.specs.Prelude.{◌≡◌};
    ghost use Rattle.document_requests.specs.Reply.{refusal_name};

    /// The word that is printed for it.
    pub fn name(self) -> &'static str
        ensures { result.now ≡ refusal_name self }
    {
        match self {
            Refusal::Request => "Request",
            Refusal::Float => "Float",
            Refusal::Range => "Range",
            Refusal::TooLong => "TooLong",
            Refusal::NoTarget => "NoTarget",
            Refusal::Payload => "Payload",
            Refusal::NoParent => "NoParent",
            Refusal::BadTarget => "BadTarget",
            Refusal::Intersecting => "Intersecting",
            Refusal::MissingMapping => "MissingMapping",
            Refusal::Unfaithful => "Unfaithful",
            Refusal::NoTreeNumber => "NoTreeNumber",
            Refusal::Messages => "Messages",
        }
    }
}
