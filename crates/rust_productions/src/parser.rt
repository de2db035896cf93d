//! The parser that the productions are given: the calls of `parser_events`, with contracts that
//! name what each call reads.
//!
//! The methods that write a step are `#[inline(never)]`: inlined, their calls that may allocate
//! would nearly double the frames of the functions that nest.

ghost use Rattle.std.specs.Prelude.{◌≡◌, ◌≢◌, ◌+◌, ◌-◌, ◌^◌, ◌<◌, ◌≤◌, ◌==◌, not, ℕ, IsTrue, [], ◌∷◌, length, min, Some, IfOk};
ghost use Rattle.parser_input.specs.Kind.{raw_of};
ghost use Rattle.parser_input.specs.Kinds as kinds;
ghost use Rattle.parser_input.specs.Recorded.{token_at};
ghost use Rattle.parser_events.specs.Marked.{End, Leaf};
ghost use Rattle.parser_events.specs.Forest.{Expected};
ghost use Rattle.parser_events.specs.Seen.{message_of};
ghost use Rattle.parser_events.specs.Stack.{Becomes, with_tree, split, IsInnermost, IsChild, IsClosed, AreStepsOf};
ghost use Rattle.parser_events.specs.Stack as stack;
ghost use Rattle.rust_productions.specs.Looks.{tokens, spent, Asks, Peeks, Stays};
ghost use Rattle.rust_grammar.specs.Notation.{next, wide};
ghost use Rattle.rust_grammar.specs.Shared.{dots_dot};
ghost use Rattle.rust_grammar.specs.Rule.{Kind, Contextual, Whole, Left, Say, Skip, Any, Want, Opt, there_at, One};
ghost use Rattle.rust_grammar.specs.Words.{one, joined};
ghost use Rattle.rust_productions.specs.Reads.{Opens, Does, Reads, Saw, Condition};

use crate::marker::Marker;
use parser_events::message::Message;
use parser_events::output::Output;
use parser_events::parser::{CompletedMarker, Parser as EventParser};
use parser_input::input::Input;
use parser_input::syntax_kind::SyntaxKind;
use std::alloc::{AllocError, Global};
use std::marker::Model;

/// A parser as the productions call it. Model: that of the parser of `parser_events`.
#[derive(Drop)]
pub struct Parser<'t> {
    pub(crate) events: EventParser<'t>,
}

impl<'t> Model for Parser<'t> {
    ghost use Rattle.parser_events.specs.View.{View};
    ghost use Rattle.parser_events.specs.Codes.{view_code};

    ghost Value = { View };

    ghost coded = { view_code };

    ghost view = { λ p. p.events };
}

impl<'t> Parser<'t> {
    /// Returns a parser at the front of `input`. If it gets no room, [`Parser::finish`] fails.
    pub fn new(alloc: Global, input: &'t Input) -> Parser<'t>
        ensures input { result.input ≡ input.now }
        ensures position { result.position ≡ 0 }
        ensures nodes { result.nodes ≡ Some (End ∷ []) }
        ensures looks { result.looks ≡ 0 }
    {
        Parser {
            events: EventParser::new(alloc, input),
        }
    }

    /// Returns the steps of the trees. No node may be open.
    ///
    /// # Errors
    ///
    /// `AllocError` if an allocation fails, or failed before, in [`Parser::new`] or later.
    pub fn finish(self) -> Result<Output, AllocError>
        requires { IsClosed self.nodes }
        ensures steps { IfOk result (λ output. AreStepsOf self.entry.nodes output.steps) }
        ensures looks { IfOk result (λ output. output.looks ≡ self.entry.looks) }
    {
        let Parser { events } = self;
        events.finish()
    }

    /// Returns the kind of the token `n` tokens ahead; `EOF` past the end, and only there. It
    /// counts one lookahead.
    pub fn kind_at(&mut self, n: usize) -> SyntaxKind
        ensures kind { raw_of result ≡ (token_at self.old.input (self.old.position + n)).kind }
        ensures token { self.old.position + n < length self.old.input → raw_of result ≢ kinds.EOF }
        ensures same { self.new
            ≡ record self.old { looks = min (self.old.looks + 1) (2 ^ 64 - 1) } }
    {
        self.events.kind_at(n)
    }

    /// Returns the contextual kind of the token `n` tokens ahead. It counts no lookahead.
    fn contextual_at(&self, n: usize) -> SyntaxKind
        ensures { raw_of result ≡ (token_at self.now.input (self.now.position + n)).contextual }
    {
        self.events.contextual_at(n)
    }

    /// Returns `true` if the token `n` tokens ahead is read by the grammar of the whole language;
    /// `false` past the end. It counts no lookahead.
    fn whole_at(&self, n: usize) -> bool
        ensures { result ≡ (token_at self.now.input (self.now.position + n)).whole }
    {
        self.events.whole_at(n)
    }

    /// Returns `true` if the token `n` tokens ahead is joint; `false` past the end. It counts no
    /// lookahead.
    pub fn joint_at(&self, n: usize) -> bool
        ensures { result ≡ (token_at self.now.input (self.now.position + n)).joint }
    {
        self.events.joint_at(n)
    }

    /// Adds a leaf over the next `n` tokens.
    pub fn token(&mut self, kind: SyntaxKind, n: usize)
        requires some { 1 ≤ n }
        requires left { self.old.position + n ≤ length self.old.input }
        ensures nodes { Becomes (with_tree (Leaf (raw_of kind) n End))
            self.old.nodes self.new.nodes }
        ensures same { self.new
            ≡ record self.old { position = self.old.position + n; nodes = self.new.nodes } }
    {
        self.events.token(kind, n);
    }

    /// Closes the marker's node as a field access by the float that is next, and opens a node
    /// around it. The marker's node must be the innermost open one.
    pub fn split_float(&mut self, marker: Marker, ends_in_dot: bool) -> Marker
        requires innermost { IsInnermost marker self.old.nodes }
        requires float { (token_at self.old.input self.old.position).kind ≡ kinds.FLOAT_NUMBER }
        ensures nodes { Becomes (split ends_in_dot) self.old.nodes self.new.nodes }
        ensures marker { result ≡ marker }
        ensures same { self.new
            ≡ record self.old { position = self.old.position + 1; nodes = self.new.nodes } }
    {
        let Marker { events } = marker;
        Marker {
            events: self.events.split_float(events, ends_in_dot),
        }
    }

    /// Opens a node around this one and the trees after it in the innermost open node. The
    /// completed node must be a child of that node.
    pub fn precede(&mut self, completed: CompletedMarker) -> Marker
        requires { IsChild completed self.old.nodes }
        ensures nodes { Becomes (stack.wrapped completed.before) self.old.nodes self.new.nodes }
        ensures marker { IsInnermost result self.new.nodes }
        ensures same { self.new ≡ record self.old { nodes = self.new.nodes } }
    {
        Marker {
            events: completed.precede(&mut self.events),
        }
    }

    /// Returns the number of tokens that are left.
    pub fn tokens_left(&self) -> usize
        ensures { result ≡ tokens self.now }
    {
        self.events.tokens_left()
    }

    /// Returns the kind of the next token.
    pub fn current(&mut self) -> SyntaxKind
        ensures sees { (c : Condition) (kind : ℕ)
            → Saw c (Kind 0 kind) self.old (raw_of result == kind) }
        ensures end { (c : Condition) → Saw c Left self.old (not (raw_of result == kinds.EOF)) }
        ensures some { raw_of result ≢ kinds.EOF → 1 ≤ tokens self.old }
        ensures peeks { Peeks 1 self.old self.new }
    {
        self.kind_at(0)
    }

    /// Returns the kind of the token `n` tokens ahead.
    pub fn nth(&mut self, n: usize) -> SyntaxKind
        ensures sees { (c : Condition) (kind : ℕ)
            → Saw c (Kind n kind) self.old (raw_of result == kind) }
        ensures peeks { Peeks 1 self.old self.new }
    {
        self.kind_at(n)
    }

    /// Returns `true` if the next token is of this kind.
    pub fn at(&mut self, kind: SyntaxKind) -> bool
        ensures sees { (c : Condition) → Saw c (Kind 0 (raw_of kind)) self.old result }
        ensures some { IsTrue result → raw_of kind ≢ kinds.EOF → 1 ≤ tokens self.old }
        ensures peeks { Peeks 1 self.old self.new }
    {
        self.current().to_raw() == kind.to_raw()
    }

    /// Returns `true` if the second token is of this kind.
    pub fn at_second(&mut self, kind: SyntaxKind) -> bool
        ensures sees { (c : Condition) → Saw c (Kind 1 (raw_of kind)) self.old result }
        ensures some { IsTrue result → raw_of kind ≢ kinds.EOF → 2 ≤ tokens self.old }
        ensures peeks { Peeks 1 self.old self.new }
    {
        self.kind_at(1).to_raw() == kind.to_raw()
    }

    /// Returns `true` if the third token is of this kind.
    pub fn at_third(&mut self, kind: SyntaxKind) -> bool
        ensures sees { (c : Condition) → Saw c (Kind 2 (raw_of kind)) self.old result }
        ensures some { IsTrue result → raw_of kind ≢ kinds.EOF → 3 ≤ tokens self.old }
        ensures peeks { Peeks 1 self.old self.new }
    {
        self.kind_at(2).to_raw() == kind.to_raw()
    }

    /// Returns `true` if the next token is an identifier that is of this kind as a contextual
    /// keyword.
    pub fn at_contextual(&mut self, kind: SyntaxKind) -> bool
        ensures sees { (c : Condition) → Saw c (Contextual 0 (raw_of kind)) self.old result }
        ensures some { IsTrue result → raw_of kind ≢ kinds.EOF → 1 ≤ tokens self.old }
        ensures same { Does (λ s. s) self.old self.new }
        ensures stays { Stays self.old self.new }
    {
        self.contextual_at(0).to_raw() == kind.to_raw()
    }

    /// Returns `true` if the second token is an identifier that is of this kind as a contextual
    /// keyword.
    pub(crate) fn at_second_contextual(&mut self, kind: SyntaxKind) -> bool
        ensures sees { (c : Condition) → Saw c (Contextual 1 (raw_of kind)) self.old result }
        ensures some { IsTrue result → raw_of kind ≢ kinds.EOF → 2 ≤ tokens self.old }
        ensures same { Does (λ s. s) self.old self.new }
        ensures stays { Stays self.old self.new }
    {
        self.contextual_at(1).to_raw() == kind.to_raw()
    }

    /// Returns `true` if the next token is read by the grammar of the whole language; `false` past
    /// the end. It counts no lookahead.
    pub fn at_whole(&mut self) -> bool
        ensures sees { (c : Condition) → Saw c (Whole 0) self.old result }
        ensures some { IsTrue result → 1 ≤ tokens self.old }
        ensures same { Does (λ s. s) self.old self.new }
        ensures stays { Stays self.old self.new }
    {
        self.whole_at(0)
    }

    /// Returns `true` if the next token is of this kind and is read by the grammar of the whole
    /// language.
    pub fn at_new(&mut self, kind: SyntaxKind) -> bool
        ensures sees { (c : Condition) → Saw c (wide (next (one (raw_of kind)))) self.old result }
        ensures some { IsTrue result → 1 ≤ tokens self.old }
        ensures peeks { Peeks 1 self.old self.new }
    {
        if !self.at_whole() {
            return false;
        }
        self.at(kind)
    }

    /// Returns `true` if the next two tokens are of these kinds and touch.
    pub fn at_pair(&mut self, first: SyntaxKind, second: SyntaxKind) -> bool
        ensures sees { (c : Condition)
            → Saw c (there_at 0 (raw_of first ∷ raw_of second ∷ [])) self.old result }
        ensures some { IsTrue result → raw_of second ≢ kinds.EOF → 2 ≤ tokens self.old }
        ensures peeks { Peeks 2 self.old self.new }
    {
        if !self.at(first) {
            return false;
        }
        if !self.joint_at(0) {
            return false;
        }
        self.at_second(second)
    }

    /// Returns `true` if the second and the third token are of these kinds and touch.
    pub fn at_pair_after(&mut self, first: SyntaxKind, second: SyntaxKind) -> bool
        ensures sees { (c : Condition)
            → Saw c (there_at 1 (raw_of first ∷ raw_of second ∷ [])) self.old result }
        ensures some { IsTrue result → raw_of second ≢ kinds.EOF → 3 ≤ tokens self.old }
        ensures peeks { Peeks 2 self.old self.new }
    {
        if !self.at_second(first) {
            return false;
        }
        if !self.joint_at(1) {
            return false;
        }
        self.at_third(second)
    }

    /// Returns `true` if the fourth token is of this kind.
    fn at_fourth(&mut self, kind: SyntaxKind) -> bool
        ensures sees { (c : Condition) → Saw c (Kind 3 (raw_of kind)) self.old result }
        ensures peeks { Peeks 1 self.old self.new }
    {
        self.kind_at(3).to_raw() == kind.to_raw()
    }

    /// Returns `true` if the fifth token is of this kind.
    fn at_fifth(&mut self, kind: SyntaxKind) -> bool
        ensures sees { (c : Condition) → Saw c (Kind 4 (raw_of kind)) self.old result }
        ensures some { IsTrue result → raw_of kind ≢ kinds.EOF → 5 ≤ tokens self.old }
        ensures peeks { Peeks 1 self.old self.new }
    {
        self.kind_at(4).to_raw() == kind.to_raw()
    }

    /// Returns `true` if the fourth and the fifth token are of these kinds and touch.
    pub(crate) fn at_fourth_pair(&mut self, first: SyntaxKind, second: SyntaxKind) -> bool
        ensures sees { (c : Condition)
            → Saw c (there_at 3 (raw_of first ∷ raw_of second ∷ [])) self.old result }
        ensures some { IsTrue result → raw_of second ≢ kinds.EOF → 5 ≤ tokens self.old }
        ensures peeks { Peeks 2 self.old self.new }
    {
        if !self.at_fourth(first) {
            return false;
        }
        if !self.joint_at(3) {
            return false;
        }
        self.at_fifth(second)
    }

    /// Returns `true` if the third and the fourth token are of these kinds and touch.
    pub(crate) fn at_third_pair(&mut self, first: SyntaxKind, second: SyntaxKind) -> bool
        ensures sees { (c : Condition)
            → Saw c (there_at 2 (raw_of first ∷ raw_of second ∷ [])) self.old result }
        ensures peeks { Peeks 2 self.old self.new }
    {
        if !self.at_third(first) {
            return false;
        }
        if !self.joint_at(2) {
            return false;
        }
        self.at_fourth(second)
    }

    /// Returns `true` if three dots are next, of which the second and the third touch.
    pub fn at_dots_dot(&mut self) -> bool
        ensures sees { (c : Condition) → Saw c dots_dot self.old result }
        ensures some { IsTrue result → 3 ≤ tokens self.old }
        ensures peeks { Peeks 3 self.old self.new }
    {
        if !self.at_pair(SyntaxKind::DOT, SyntaxKind::DOT) {
            return false;
        }
        if !self.at_third(SyntaxKind::DOT) {
            return false;
        }
        if self.joint_at(1) {
            return true;
        }
        false
    }

    /// Opens a node in the innermost one.
    #[inline(never)]
    pub fn start(&mut self) -> Marker
        ensures opens { Opens self.old self.new }
        ensures marker { IsInnermost result self.new.nodes }
        ensures stays { Stays self.old self.new }
    {
        Marker {
            events: self.events.start(),
        }
    }

    /// Emits an error.
    #[inline(never)]
    pub fn error(&mut self, message: Message)
        ensures reads { (c : Condition) → Reads c (Say (message_of message)) self.old self.new }
        ensures stays { Stays self.old self.new }
    {
        self.events.error(message);
    }

    /// Takes the next token, as a leaf of this kind.
    #[inline(never)]
    pub fn take(&mut self, kind: SyntaxKind)
        requires { 1 ≤ tokens self.old }
        ensures reads { (c : Condition) → Reads c (One (one (raw_of kind))) self.old self.new }
        ensures left { tokens self.new + 1 ≡ tokens self.old }
        ensures looks { spent self.new + 4096 ≡ spent self.old }
    {
        self.token(kind, 1);
    }

    /// Takes the next two tokens, as one leaf of this kind.
    #[inline(never)]
    pub fn take_pair(&mut self, kind: SyntaxKind)
        requires { 2 ≤ tokens self.old }
        ensures reads { (c : Condition) (first second : ℕ)
            → Reads c (One (joined (raw_of kind) (first ∷ second ∷ []))) self.old self.new }
        ensures left { tokens self.new + 2 ≡ tokens self.old }
        ensures looks { spent self.new + 8192 ≡ spent self.old }
    {
        self.token(kind, 2);
    }

    /// Takes the identifier that is next, as a leaf of a contextual keyword's kind.
    #[inline(never)]
    pub fn take_contextual(&mut self, word: SyntaxKind)
        requires { 1 ≤ tokens self.old }
        ensures reads { (c : Condition)
            → Reads c (One (joined (raw_of word) (kinds.IDENT ∷ []))) self.old self.new }
        ensures left { tokens self.new + 1 ≡ tokens self.old }
        ensures looks { spent self.new + 4096 ≡ spent self.old }
    {
        self.token(word, 1);
    }

    /// Takes the next token, of whatever kind.
    #[inline(never)]
    pub fn take_any(&mut self)
        requires { 1 ≤ tokens self.old }
        ensures reads { (c : Condition) → Reads c Any self.old self.new }
        ensures left { tokens self.new + 1 ≡ tokens self.old }
        ensures looks { spent self.new + 4095 ≤ spent self.old }
    {
        let kind = self.current();
        self.take(kind);
    }

    /// Takes the next token if it is of this kind.
    #[inline(never)]
    pub fn eat(&mut self, kind: SyntaxKind)
        requires { raw_of kind ≢ kinds.EOF }
        ensures reads { (c : Condition)
            → Reads c (Opt (One (one (raw_of kind)))) self.old self.new }
        ensures asks { Asks 1 self.old self.new }
    {
        if !self.at(kind) {
            return;
        }
        self.take(kind);
    }

    /// Takes the next token if it is of this kind; emits an error otherwise.
    #[inline(never)]
    pub fn expect(&mut self, kind: SyntaxKind)
        requires { raw_of kind ≢ kinds.EOF }
        ensures reads { (c : Condition)
            → Reads c (Want (One (one (raw_of kind))) (Expected (raw_of kind))) self.old self.new }
        ensures asks { Asks 1 self.old self.new }
    {
        if self.at(kind) {
            self.take(kind);
            return;
        }
        self.error(Message::Expected(kind));
    }

    /// Emits an error, and takes the next token into an `ERROR` node.
    #[inline(never)]
    pub fn skip(&mut self, message: Message)
        requires { 1 ≤ tokens self.old }
        ensures reads { (c : Condition) → Reads c (Skip (message_of message)) self.old self.new }
        ensures left { tokens self.new + 1 ≡ tokens self.old }
        ensures looks { spent self.new + 4095 ≤ spent self.old }
    {
        let node = self.start();
        self.error(message);
        self.take_any();
        node.complete(self, SyntaxKind::ERROR);
    }
}
