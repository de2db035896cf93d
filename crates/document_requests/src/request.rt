//! What a request asks.
use parser_input::edition::Edition;
use parser_input::syntax_kind::SyntaxKind;
use ra_parser::Grammar;

/// The format of a request: which members it has.
#[derive(Clone, Copy, Debug, PartialEq, Eq)]
pub enum Format {
    /// A request that is all of the input. It is read by the profile: a member `grammar` is ignored,
    /// as any other that it does not have.
    Single,
    /// A request on a line of its own. Its member `grammar` names the grammar; without it the grammar
    /// is that of the whole language.
    Line,
}

/// A text in an edition, read by a grammar, and what is done to it.
#[derive(Drop)]
pub struct Request<'a> {
    pub grammar: Grammar,
    pub edition: Edition,
    pub text: &'a str,
    pub commands: Vec<Command<'a>>,
}

/// A step of a request.
#[derive(Drop)]
pub enum Command<'a> {
    /// Other characters take the place of the bytes from `start` to just before `stop`.
    Edit {
        start: u64,
        stop: u64,
        text: &'a str,
    },
    /// Changes that are applied atomically.
    Commit {
        changes: Vec<Change<'a>>,
    },
    /// The lines of the tree are asked for.
    Tree,
    /// The messages are asked for.
    Errors,
}

/// A part of a commit.
#[derive(Clone, Copy)]
pub enum Change<'a> {
    /// A text, read as `entry`, is put at the target.
    Put {
        op: Op,
        target: Target,
        entry: Entry,
        text: &'a str,
    },
    /// The element at the target is taken out.
    Delete {
        target: Target,
    },
}

/// How a text is put at its target.
#[derive(Clone, Copy, Debug, PartialEq, Eq)]
pub enum Op {
    /// In its place.
    Replace,
    /// In front of it.
    Before,
    /// After it.
    After,
}

/// What a text is read as.
#[derive(Clone, Copy, Debug, PartialEq, Eq)]
pub enum Entry {
    /// One token.
    Token,
    /// An expression.
    Expr,
    /// A type.
    Ty,
    /// A pattern.
    Pattern,
    /// The one item of a file.
    Item,
    /// One statement.
    Stmt,
}

/// An element of the present tree: the first in preorder that is of this kind and has the bytes
/// from `start` to just before `stop`.
#[derive(Clone, Copy, Debug, PartialEq, Eq)]
pub struct Target {
    pub kind: SyntaxKind,
    pub start: u64,
    pub stop: u64,
}
