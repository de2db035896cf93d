//! Requests that are run, and lists of commands.
use anyhow::bail;
use document_requests::apply::apply;
use document_requests::run::run;
use document_requests::serve::{Outcome, serve_as, serve_bytes};
use document_requests::{
    Change, Command, CommitRule, Dialogue, Entry, Fault, Format, Op, Refusal, Reply, Target,
    Watched, answer_by, commands_of, first_difference, serve_lines,
};
use memory_table::row::{Ask, Row};
use parser_input::{Edition, SyntaxKind};
use rust_document::{Document, Grammar};
use serde_json::Value;
use std::alloc::{AllocError, Global};
use syntax_tree::TreeIds;

/// The calls of `document_requests`.
#[derive(Clone, Copy)]
pub(crate) enum RequestCall {
    Apply,
    AnswerBy,
    CommandsOf,
    FirstDifference,
    Serve,
    ServeAs,
    ServeLines,
    Run,
}

/// The answers to two requests on a line each.
const LINES: &str = "{\"status\":0,\"replies\":[{\"changed\":[[7,10]],\"ok\":\"commit\"},\
    {\"err\":\"Unfaithful\"}],\"text\":\"struct Tee;\"}\n\
    {\"status\":0,\"replies\":[{\"changed\":[[6,9]],\"ok\":\"commit\"},\
    {\"changed\":[[19,34]],\"ok\":\"commit\"}],\"text\":\"union Tee { a: u8 }extern crate a;\"}\n";

/// Renames a struct, and then has a comment swallow it.
const REQUEST: &str =
    r#"{"edition":"2021","text":"struct S;","commands":[{"do":"commit","changes":[{"op":"replace","at":["IDENT",7,8],"with":["token","Tee"]}]},{"do":"commit","changes":[{"op":"before","at":["STRUCT",0,11],"with":["token","// c"]}]}]}"#;

/// Renames a union, and then puts an item after it. Both are read by the whole language alone.
const WHOLE: &str =
    r#"{"edition":"2021","grammar":"whole","text":"union U { a: u8 }","commands":[{"do":"commit","changes":[{"op":"replace","at":["IDENT",6,7],"with":["token","Tee"]}]},{"do":"commit","changes":[{"op":"after","at":["UNION",0,19],"with":["item","extern crate a;"]}]}]}"#;

const OUTPUT: &str =
    "0 {\"changed\":[[7,10]],\"ok\":\"commit\"}\n{\"err\":\"Unfaithful\"}\nstruct Tee;";

/// A commit of one token.
fn put(alloc: Global, op: Op, target: Target, text: &str) -> Result<Command<'_>, AllocError> {
    let change = Change::Put {
        op,
        target,
        entry: Entry::Token,
        text,
    };
    Ok(Command::Commit {
        changes: vec![in alloc; change]?,
    })
}

/// The commands of the request.
fn commands(alloc: Global) -> Result<Vec<Command<'static>>, AllocError> {
    let name = Target {
        kind: SyntaxKind::IDENT,
        start: 7,
        stop: 8,
    };
    let item = Target {
        kind: SyntaxKind::STRUCT,
        start: 0,
        stop: 11,
    };
    let commands = vec![in alloc;
        put(alloc, Op::Replace, name, "Tee")?,
        put(alloc, Op::Before, item, "// c")?,
    ]?;
    Ok(commands)
}

/// The text of the request's document once as many commands are done as have a reply.
fn text_after(replies: usize) -> &'static str {
    if replies == 0 {
        "struct S;"
    } else {
        "struct Tee;"
    }
}

/// Applies all commands, those without a reply a second time if it runs out of memory: the document is
/// as the others left it then.
fn applied(alloc: Global, refused: &mut u32) -> anyhow::Result<String> {
    let mut ids = TreeIds::new();
    let mut document = Document::open(alloc, Edition::Edition2021, "struct S;", &mut ids)?;
    let commands = commands(alloc)?;
    let mut replies = Vec::new(alloc);
    if apply(alloc, &mut document, &commands, &mut replies, &mut ids).is_err() {
        *refused = refused.saturating_add(1);
        let done = replies.len();
        if (commands.len() <= done) | (document.text() != text_after(done)) {
            bail!("the document is not as the commands with replies left it");
        }
        apply(
            alloc,
            &mut document,
            &commands[done..],
            &mut replies,
            &mut ids,
        )?;
    }
    told(alloc, &document, &replies)
}

/// Answers a command, a second time if that runs out of memory: the document is as before then.
fn answered_by(
    alloc: Global,
    document: &mut Document,
    command: &Command<'_>,
    ids: &mut TreeIds,
    refused: &mut u32,
) -> anyhow::Result<Reply> {
    let before = format!(in alloc; "{}", document.text())?;
    let rule = CommitRule::WithoutMessages;
    match answer_by(alloc, rule, document, command, ids) {
        Ok(reply) => Ok(reply),
        Err(AllocError) => {
            *refused = refused.saturating_add(1);
            if document.text() != before.as_str() {
                bail!("the document is not as before");
            }
            Ok(answer_by(alloc, rule, document, command, ids)?)
        }
    }
}

/// Answers all commands, one by one.
fn all_answered_by(alloc: Global, refused: &mut u32) -> anyhow::Result<String> {
    let mut ids = TreeIds::new();
    let mut document = Document::open(alloc, Edition::Edition2021, "struct S;", &mut ids)?;
    let commands = commands(alloc)?;
    let mut replies = Vec::new(alloc);
    for command in commands.as_slice() {
        let reply = answered_by(alloc, &mut document, command, &mut ids, refused)?;
        replies.push(reply)?;
    }
    told(alloc, &document, &replies)
}

/// The kinds at the first difference of a commit that puts a comment before an item.
fn reason(alloc: Global) -> anyhow::Result<String> {
    let mut ids = TreeIds::new();
    let document = Document::open(alloc, Edition::Edition2021, "struct Tee;", &mut ids)?;
    let commands = commands(alloc)?;
    let Some(Command::Commit { changes }) = commands.last() else {
        bail!("no commit");
    };
    match first_difference(alloc, &document, changes.as_slice(), &mut ids)? {
        Some(found) => Ok(format!(in alloc; "{:?} {:?}", found.wanted, found.read)?),
        None => bail!("no difference"),
    }
}

/// How many commands a list in JSON has.
fn commands_read(alloc: Global) -> anyhow::Result<String> {
    let value = Value::from_str(alloc, "[{\"do\":\"tree\"},{\"do\":\"errors\"}]")?;
    match commands_of(alloc, Grammar::Profile, &value)? {
        Some(commands) => Ok(format!(in alloc; "{}", commands.len())?),
        None => bail!("no commands"),
    }
}

/// The answers to two requests on a line each. The output has its room before.
fn lines_answered(alloc: Global) -> anyhow::Result<String> {
    let lines = format!(in alloc; "{REQUEST}\n{WHOLE}\n")?;
    let mut output = Vec::with_capacity(alloc, 512)?;
    let mut client = Dialogue::new(lines.as_bytes(), &mut output);
    serve_lines(alloc, &mut client).map_err(Fault::from)?;
    match str::from_utf8(&output) {
        Ok(text) => Ok(format!(in alloc; "{text}")?),
        Err(_) => bail!("no text"),
    }
}

/// The text of a document, and what its commands were answered.
fn told(alloc: Global, document: &Document, replies: &[Reply]) -> anyhow::Result<String> {
    let mut out = format!(in alloc; "{}", document.text())?;
    for reply in replies {
        match reply {
            Reply::Commit { changed } => {
                for range in changed {
                    let (start, end) = (range.start().0, range.end().0);
                    out.push_str(format!(in alloc; " {start}..{end}")?.as_str())?;
                }
            }
            Reply::Refused(Refusal::Unfaithful) => out.push_str(" Unfaithful")?,
            _ => out.push_str(" another reply")?,
        }
    }
    Ok(out)
}

/// The text that a request has left, and what its commands were answered.
fn outcome_told(alloc: Global, outcome: &Outcome) -> anyhow::Result<String> {
    match outcome {
        Outcome::Run { document, replies } => told(alloc, document, replies),
        Outcome::NotRun(_) => bail!("not run"),
    }
}

fn served(alloc: Global) -> anyhow::Result<String> {
    let outcome = serve_bytes(alloc, REQUEST.as_bytes())?;
    outcome_told(alloc, &outcome)
}

fn served_as_line(alloc: Global) -> anyhow::Result<String> {
    let outcome = serve_as(alloc, Format::Line, WHOLE.as_bytes())?;
    outcome_told(alloc, &outcome)
}

/// The status and the output of the request. The output has its room before.
fn answered(alloc: Global) -> anyhow::Result<String> {
    let mut input = REQUEST.as_bytes();
    let mut output = Vec::with_capacity(alloc, 256)?;
    let mut reader = Watched::new(&mut input);
    let mut writer = Watched::new(&mut output);
    let status = run(alloc, &mut reader, &mut writer)?;
    match str::from_utf8(&output) {
        Ok(text) => Ok(format!(in alloc; "{status} {text}")?),
        Err(_) => bail!("no text"),
    }
}

impl Ask for RequestCall {
    fn answer(self, alloc: Global, refused: &mut u32) -> anyhow::Result<String> {
        match self {
            RequestCall::Apply => applied(alloc, refused),
            RequestCall::AnswerBy => all_answered_by(alloc, refused),
            RequestCall::CommandsOf => commands_read(alloc),
            RequestCall::FirstDifference => reason(alloc),
            RequestCall::Serve => served(alloc),
            RequestCall::ServeAs => served_as_line(alloc),
            RequestCall::ServeLines => lines_answered(alloc),
            RequestCall::Run => answered(alloc),
        }
    }
}

pub(crate) const ROWS: &[Row<RequestCall>] = &[
    (
        "document_requests::apply::apply",
        RequestCall::Apply,
        "struct Tee; 7..10 Unfaithful",
    ),
    (
        "document_requests::serve::serve_bytes",
        RequestCall::Serve,
        "struct Tee; 7..10 Unfaithful",
    ),
    (
        "document_requests::serve::serve_as",
        RequestCall::ServeAs,
        "union Tee { a: u8 }extern crate a; 6..9 19..34",
    ),
    (
        "document_requests::answer_by",
        RequestCall::AnswerBy,
        "struct Tee; 7..10 Unfaithful",
    ),
    (
        "document_requests::commands_of",
        RequestCall::CommandsOf,
        "2",
    ),
    (
        "document_requests::first_difference",
        RequestCall::FirstDifference,
        "Some(STRUCT) None",
    ),
    (
        "document_requests::Dialogue::answer, line_reader::serve_lines",
        RequestCall::ServeLines,
        LINES,
    ),
    ("document_requests::run::run", RequestCall::Run, OUTPUT),
];
