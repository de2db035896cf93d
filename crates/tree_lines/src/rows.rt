//! The elements of a tree, one after the other, as the steps of the tree come.
ghost use Rattle.std.specs.Prelude.{◌≡◌, [], OnOk, chars, encode_utf8_all, length};
ghost use Rattle.parser_input.specs.Kind.{raw_of};
ghost use Rattle.parser_events.specs.Seen.{message_of};
ghost use Rattle.tree_lines.specs.Listed.{IsPushed, IsEntered, IsExited, IsSaid};

use parser_events::message::Message;
use parser_events::str_sink::StrSink;
use parser_events::str_step::StrStep;
use parser_input::syntax_kind::SyntaxKind;
use std::alloc::{AllocError, Global};

/// An element of a tree.
#[derive(Clone, Copy)]
pub struct Row {
    /// How many nodes stand around it.
    pub depth: usize,
    pub kind: SyntaxKind,
    /// Where it starts, in bytes from the front of the text.
    pub start: usize,
    /// Where it ends; of a node that is still open, where it starts.
    pub end: usize,
}

/// A message, and the place that it is about.
#[derive(Clone, Copy)]
pub struct Said {
    pub offset: usize,
    pub message: Message,
}

/// Lists the elements and the messages of a tree.
#[derive(Drop)]
pub struct Rows {
    pub rows: Vec<Row>,
    pub said: Vec<Said>,
    /// The numbers of the rows of the open nodes, the innermost last.
    pub entered: Vec<usize>,
    /// How many bytes of the text stand in leaves so far.
    pub offset: usize,
}

impl Rows {
    /// Nothing listed yet.
    pub(crate) fn new(alloc: Global) -> Rows
        ensures rows { result.rows.items ≡ [] }
        ensures said { result.said.items ≡ [] }
        ensures entered { result.entered.items ≡ [] }
        ensures place { result.offset ≡ 0 }
    {
        Rows {
            rows: Vec::new(alloc),
            said: Vec::new(alloc),
            entered: Vec::new(alloc),
            offset: 0,
        }
    }

    /// Lists an element that covers the next bytes of the text.
    ///
    /// # Errors
    ///
    /// Out of memory, which a text of 2^64 bytes would need.
    fn push(&mut self, kind: SyntaxKind, length: usize) -> Result<(), AllocError>
        ensures { OnOk result (IsPushed self.old (raw_of kind) length self.new) }
    {
        let start = self.offset;
        let Some(end) = start.checked_add(length) else {
            return Err(AllocError);
        };
        let depth = self.entered.len();
        self.rows.push(Row {
            depth,
            kind,
            start,
            end,
        })?;
        self.offset = end;
        Ok(())
    }

    /// Lists a leaf.
    fn put(&mut self, kind: SyntaxKind, text: &str) -> Result<(), AllocError>
        ensures { OnOk result
            (IsPushed self.old (raw_of kind) (length (encode_utf8_all (chars text.now))) self.new) }
    {
        self.push(kind, text.len())
    }

    /// Lists a node, whose end is still to come.
    fn enter(&mut self, kind: SyntaxKind) -> Result<(), AllocError>
        ensures { OnOk result (IsEntered self.old (raw_of kind) self.new) }
    {
        let number = self.rows.len();
        self.push(kind, 0)?;
        self.entered.push(number)?;
        Ok(())
    }

    /// The innermost open node ends.
    fn exit(&mut self)
        ensures { IsExited self.old self.new }
    {
        let end = self.offset;
        let Some(number) = self.entered.pop() else {
            return;
        };
        if number < self.rows.len() {
            self.rows[number].end = end;
        }
    }

    /// Lists a message.
    fn say(&mut self, message: Message, offset: usize) -> Result<(), AllocError>
        ensures { OnOk result
            (IsSaid self.old (record { message = message_of message; place = offset }) self.new) }
    {
        self.said.push(Said { offset, message })?;
        Ok(())
    }
}

impl StrSink for Rows {
    type Error = AllocError;

    ghost use Rattle.tree_lines.specs.Listed.{IsTaken};

    ghost takes = { IsTaken };

    ghost fails_at = { λ old step error new. Unit {0} };

    fn step(&mut self, step: StrStep<'_>) -> Result<(), AllocError> {
        match step {
            StrStep::Token { kind, text } => self.put(kind, text),
            StrStep::Enter { kind } => self.enter(kind),
            StrStep::Exit => {
                self.exit();
                Ok(())
            }
            StrStep::Error { msg, pos } => self.say(msg, pos),
        }
    }
}
