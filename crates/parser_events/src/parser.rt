//! The calls by which a grammar reads its input and marks its nodes.
//!
//! The model of a parser's nodes is the stack of the open nodes, with the trees that each has so
//! far. From the first allocation failure in a call that records on, it is `None`. So a body that
//! records nothing and reports an allocation failure meets every clause on nodes; tests show that
//! calls succeed while allocations succeed.

ghost use Rattle.std.specs.Prelude.{◌≡◌, ◌≢◌, ◌+◌, ◌-◌, ◌^◌, ◌<◌, ◌≤◌, ◌↔◌, ◌∷◌, [], true, length, min, Some, IfSome, IfOk};
ghost use Rattle.parser_input.specs.Kind.{raw_of};
ghost use Rattle.parser_input.specs.Kinds as kinds;
ghost use Rattle.parser_input.specs.Recorded.{token_at};
ghost use Rattle.parser_events.specs.Marked.{End, Leaf, Said};
ghost use Rattle.parser_events.specs.Seen.{message_of};
ghost use Rattle.parser_events.specs.Stack.{Becomes, with_tree, with_node, closed, left_out, extended, split, wrapped, place_of, IsInnermost, IsClosed, IsChild, AreStepsOf};

use crate::event::Event;
use crate::message::Message;
use crate::output::Output;
use crate::recorder::Recorder;
use parser_input::input::{Input, InputTokens};
use parser_input::syntax_kind::SyntaxKind;
use std::alloc::{AllocError, Global};
use std::marker::Model;

/// The number of entries of the record for which there is room at first, for each token. Real
/// sources have two and a half.
const ENTRIES_PER_TOKEN: usize = 3;

/// A parser: its input, its position, and the trees recorded so far. Once a recording call fails to
/// allocate, nothing more is recorded and [`Parser::finish`] returns an error. The position and the
/// count of lookaheads go on as before.
#[derive(Drop)]
pub struct Parser<'t> {
    input: &'t Input,
    /// The tokens of `input` that are not taken yet.
    rest: InputTokens<'t>,
    looks: u64,
    recorder: Recorder,
}

impl<'t> Model for Parser<'t> {
    ghost use Rattle.std.specs.Prelude.{◌-◌, length};
    ghost use Rattle.parser_events.specs.View.{View};
    ghost use Rattle.parser_events.specs.Codes.{view_code};

    ghost Value = { View };

    ghost coded = { view_code };

    ghost use Rattle.parser_events.specs.Nodes.{nodes_of, IsRecord};
    ghost use Rattle.parser_events.specs.View.{IsRest};

    ghost view = { λ p. record { input = p.input.now; position = length p.input.now - length p.rest; nodes = nodes_of p.recorder; looks = p.looks } };

    ghost invariant = { λ p. IsRest p.rest p.input.now × IsRecord p.recorder };
}

impl<'t> Parser<'t> {
    /// Returns a parser at the front of `input`. If it gets no room, [`Parser::finish`] fails.
    pub fn new(alloc: Global, input: &'t Input) -> Parser<'t>
        ensures input { result.input ≡ input.now }
        ensures position { result.position ≡ 0 }
        ensures nodes { result.nodes ≡ Some (End ∷ []) }
        ensures looks { result.looks ≡ 0 }
    {
        Parser {
            input,
            rest: input.tokens(),
            looks: 0,
            recorder: Recorder::new(alloc, input.len().saturating_mul(ENTRIES_PER_TOKEN)),
        }
    }

    /// How many tokens of the input were taken.
    pub fn position(&self) -> usize
        ensures { result ≡ self.now.position }
    {
        self.input.len() - self.rest.len()
    }

    /// How many tokens of the input are left.
    pub fn tokens_left(&self) -> usize
        ensures { result ≡ length self.now.input - self.now.position }
    {
        self.rest.len()
    }

    /// Returns the kind of the token `n` tokens ahead; `EOF` past the end, and only there. It
    /// counts one lookahead.
    pub fn kind_at(&mut self, n: usize) -> SyntaxKind
        ensures kind { raw_of result ≡ (token_at self.old.input (self.old.position + n)).kind }
        ensures token { self.old.position + n < length self.old.input → raw_of result ≢ kinds.EOF }
        ensures same { self.new
            ≡ record self.old { looks = min (self.old.looks + 1) (2 ^ 64 - 1) } }
    {
        self.looks = self.looks.saturating_add(1);
        self.rest.kind(n)
    }

    /// Adds a leaf over the next `n` tokens.
    pub fn token(&mut self, kind: SyntaxKind, n: usize)
        requires some { 1 ≤ n }
        requires left { self.old.position + n ≤ length self.old.input }
        ensures nodes { Becomes
            (with_tree (Leaf (raw_of kind) n End)) self.old.nodes self.new.nodes }
        ensures same { self.new
            ≡ record self.old { position = self.old.position + n; nodes = self.new.nodes } }
    {
        self.recorder.record(Event::Token {
            kind,
            n_input_tokens: n,
        });
        self.rest.take(n);
    }

    /// Adds a message.
    pub fn error(&mut self, msg: Message)
        ensures nodes { Becomes
            (with_tree (Said (message_of msg) End)) self.old.nodes self.new.nodes }
        ensures same { self.new ≡ record self.old { nodes = self.new.nodes } }
    {
        self.recorder.record(Event::Error { msg });
    }

    /// Returns the contextual kind of the token `n` tokens ahead: of an identifier, its kind as a
    /// contextual keyword, or `IDENT` if it is none; in edition next, `PIPE_GT` of a `PIPE` that a
    /// `R_ANGLE` directly follows; `EOF` of any other token and past the end. It counts no
    /// lookahead.
    pub fn contextual_at(&self, n: usize) -> SyntaxKind
        ensures { raw_of result ≡ (token_at self.now.input (self.now.position + n)).contextual }
    {
        self.rest.contextual_kind(n)
    }

    /// Returns `true` if the token `n` tokens ahead is read by the grammar of the whole language;
    /// `false` past the end. It counts no lookahead.
    pub fn whole_at(&self, n: usize) -> bool
        ensures { result ≡ (token_at self.now.input (self.now.position + n)).whole }
    {
        self.rest.is_whole(n)
    }

    /// Returns `true` if the token `n` tokens ahead is joint: the next token directly follows it. A
    /// float is joint if its text does not end in a dot. Returns `false` past the end. It counts no
    /// lookahead.
    pub fn joint_at(&self, n: usize) -> bool
        ensures { result ≡ (token_at self.now.input (self.now.position + n)).joint }
    {
        self.rest.is_joint(n)
    }

    /// Opens a node in the innermost open one.
    pub fn start(&mut self) -> Marker
        ensures nodes { Becomes with_node self.old.nodes self.new.nodes }
        ensures marker { IsInnermost result self.new.nodes }
        ensures same { self.new ≡ record self.old { nodes = self.new.nodes } }
    {
        let around = self.recorder.level();
        self.recorder.start();
        Marker { around }
    }

    /// Returns `true` if the marker's node is the innermost open node, or if a recording call
    /// failed to allocate.
    pub fn is_innermost(&self, marker: &Marker) -> bool
        ensures { (result ≡ true) ↔ IsInnermost marker.now self.now.nodes }
    {
        if self.recorder.is_refused() {
            return true;
        }
        let level = self.recorder.level();
        let above = level.saturating_sub(marker.around);
        above == 1
    }

    /// Returns `true` if the completed node is one of the trees of the innermost open node; if none
    /// is open, one of the trees outside of all nodes. Returns `true` if a recording call failed to
    /// allocate. Takes one step for each tree after the node.
    pub fn can_precede(&self, completed: &CompletedMarker) -> bool
        ensures { (result ≡ true) ↔ IsChild completed.now self.now.nodes }
    {
        let inside = completed.last.saturating_sub(completed.first);
        self.recorder.is_child(completed.first, inside)
    }

    /// Closes the marker's node as a field access by the float that is next, and opens a node
    /// around it. The marker's node must be the innermost open one.
    pub fn split_float(&mut self, marker: Marker, ends_in_dot: bool) -> Marker
        requires innermost { IsInnermost marker self.old.nodes }
        requires float { (token_at self.old.input self.old.position).kind ≡ kinds.FLOAT_NUMBER }
        ensures nodes { Becomes (split ends_in_dot) self.old.nodes self.new.nodes }
        ensures marker { result ≡ marker }
        ensures same { self.new
            ≡ record self.old { position = self.old.position + 1; nodes = self.new.nodes } }
    {
        self.recorder.split(ends_in_dot);
        self.rest.take(1);
        marker
    }

    /// Returns the steps of the trees. No node may be open.
    ///
    /// # Errors
    ///
    /// `AllocError` if an allocation fails, or failed before, in [`Parser::new`] or later.
    pub fn finish(self) -> Result<Output, AllocError>
        requires { IsClosed self.nodes }
        ensures steps { IfOk result (λ output. AreStepsOf self.entry.nodes output.steps) }
        ensures looks { IfOk result (λ output. output.looks ≡ self.entry.looks) }
    {
        let Parser {
            input: _,
            rest: _,
            looks,
            recorder,
        } = self;
        let steps = recorder.steps()?;
        Ok(Output::new(steps, looks))
    }
}

/// A node that is open. It must be spent, by [`Marker::complete`], [`Marker::abandon`] or
/// [`Parser::split_float`]. Contracts see how many nodes are open around it.
pub struct Marker {
    /// How many nodes are open around it.
    around: usize,
}

impl Model for Marker {
    ghost use Rattle.std.specs.Prelude.{ℕ};

    ghost Value = { ℕ };

    ghost view = { λ m. m.around };
}

impl Marker {
    /// Closes the node, which must be the innermost open one, as one of this kind.
    pub fn complete(self, p: &mut Parser<'_>, kind: SyntaxKind) -> CompletedMarker
        requires { IsInnermost self p.old.nodes }
        ensures nodes { Becomes (closed (raw_of kind)) p.old.nodes p.new.nodes }
        ensures place { IfSome p.old.nodes (λ nodes. result ≡ place_of nodes) }
        ensures same { p.new ≡ record p.old { nodes = p.new.nodes } }
    {
        let Marker { around: _ } = self;
        let last = p.recorder.len();
        let first = p.recorder.complete(kind);
        CompletedMarker { first, last }
    }

    /// Leaves the node out, which must be the innermost open one: what it has goes to the node
    /// around it.
    pub fn abandon(self, p: &mut Parser<'_>)
        requires { IsInnermost self p.old.nodes }
        ensures nodes { Becomes left_out p.old.nodes p.new.nodes }
        ensures same { p.new ≡ record p.old { nodes = p.new.nodes } }
    {
        let Marker { around: _ } = self;
        p.recorder.abandon();
    }

    /// Leaves the node out, which must be the innermost open one, and extends its one tree to the
    /// left: the trees that the node around it has so far become the first in that tree. The node
    /// around stays open, and that tree is all that it has.
    ///
    /// In a field access that a float without a last dot ends, they go into the receiver. If the
    /// node does not have just one node or one field access, all go into an `ERROR`.
    pub fn extend_left(self, p: &mut Parser<'_>)
        requires { IsInnermost self p.old.nodes }
        ensures nodes { Becomes extended p.old.nodes p.new.nodes }
        ensures same { p.new ≡ record p.old { nodes = p.new.nodes } }
    {
        let Marker { around: _ } = self;
        p.recorder.extend();
    }
}

/// A completed node. It may be dropped. Model: the number of leaves, messages and nodes before it,
/// and the number inside it.
#[derive(Drop)]
pub struct CompletedMarker {
    /// The index of the node's first event.
    first: usize,
    /// The index of the node's last event, which ends it.
    last: usize,
}

impl Model for CompletedMarker {
    ghost use Rattle.std.specs.Prelude.{◌-◌};
    ghost use Rattle.parser_events.specs.Stack.{Place};

    ghost Value = { Place };

    ghost view = { λ c. record { before = c.first; inside = c.last - c.first } };
}

impl CompletedMarker {
    /// Opens a node around this one and the trees after it in the innermost open node. The
    /// completed node must be a child of that node.
    pub fn precede(self, p: &mut Parser<'_>) -> Marker
        requires { IsChild self p.old.nodes }
        ensures nodes { Becomes (wrapped self.before) p.old.nodes p.new.nodes }
        ensures marker { IsInnermost result p.new.nodes }
        ensures same { p.new ≡ record p.old { nodes = p.new.nodes } }
    {
        let around = p.recorder.level();
        p.recorder.start_at(self.first);
        Marker { around }
    }
}
