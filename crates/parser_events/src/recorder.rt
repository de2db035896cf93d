//! The record of a parser: flat lists, in which nothing is written twice.

ghost use Rattle.std.specs.Prelude.{◌≡◌, ◌-◌, ◌≤◌, ◌↔◌, List, ◌∷◌, ◌++◌, [], true, length, map, Some, None, IfOk, IsErr, MatchBool};
ghost use Rattle.parser_input.specs.Kinds.{ERROR};
ghost use Rattle.parser_events.specs.Marked.{Marked, walk};
ghost use Rattle.parser_events.specs.Nodes.{Kept, Closed, record_of, all_entries, begins, IsClosing, with_entry, opened_at, opened_here, innermost, left_out, closed_as, split_as, access_from, extended_entries, extended};
ghost use Rattle.parser_events.specs.Stack.{Becomes, IsAmong, total_size};
ghost use Rattle.parser_events.specs.Seen.{event_of, step_of};
ghost use Rattle.parser_input.specs.Kind.{raw_of};

use crate::event::Event;
use crate::step_list::StepList;
use crate::unwinding::unwind;
use parser_input::syntax_kind::SyntaxKind;
use std::alloc::{AllocError, Global};
use std::marker::Model;

/// The events of a parser, until an allocation fails in a call that records.
#[derive(Drop)]
pub(crate) struct Recorder {
    alloc: Global,
    events: Vec<Event>,
    /// The number of the entry at which each open node begins, the innermost node's last.
    open_nodes: Vec<usize>,
    refused: bool,
    /// `true` if the allocation of the first room for entries failed. All is recorded until
    /// `steps`, which fails then: the other calls have no error to return.
    lacks_room: bool,
}

impl Model for Recorder {
    ghost use Rattle.std.specs.Prelude.{Option, Some, None, map, if◌then◌else◌};
    ghost use Rattle.parser_events.specs.Nodes.{Kept};

    ghost Value = { Option Kept };

    ghost use Rattle.parser_events.specs.Seen.{event_of};

    ghost view = { λ r. if r.refused then None
        else Some (record { entered = map event_of r.events.items; opened = r.open_nodes.items }) };
}

impl Recorder {
    /// Returns a record without entries and open nodes, with room for `entries`. If that allocation
    /// fails, [`Recorder::steps`] fails later.
    pub(crate) fn new(alloc: Global, entries: usize) -> Recorder
        ensures { result ≡ Some (record { entered = []; opened = [] }) }
    {
        let (events, lacks_room) = match Vec::with_capacity(alloc, entries) {
            Ok(events) => (events, false),
            Err(_refused) => (Vec::new(alloc), true),
        };
        Recorder {
            alloc,
            events,
            open_nodes: Vec::new(alloc),
            refused: false,
            lacks_room,
        }
    }

    /// Returns `true` if a call that records failed to allocate. From then on, nothing is recorded.
    pub(crate) fn is_refused(&self) -> bool
        ensures { (result ≡ true) ↔ (self.now ≡ None) }
    {
        self.refused
    }

    /// Records nothing more, and gives the memory of the record back.
    #[cold]
    fn refuse(&mut self)
        ensures { self.new ≡ None }
    {
        self.refused = true;
        self.events = Vec::new(self.alloc);
        self.open_nodes = Vec::new(self.alloc);
    }

    /// Adds an entry.
    #[inline(always)]
    pub(crate) fn record(&mut self, event: Event)
        ensures { Becomes (with_entry (event_of event)) self.old self.new }
    {
        if self.events.push(event).is_err() {
            self.refuse();
        }
    }

    /// Opens a node that begins here.
    pub(crate) fn start(&mut self)
        ensures { Becomes opened_here self.old self.new }
    {
        let place = self.events.len();
        self.start_at(place)
    }

    /// Opens a node that begins at an earlier entry.
    #[inline(always)]
    pub(crate) fn start_at(&mut self, place: usize)
        ensures { Becomes (opened_at place) self.old self.new }
    {
        if self.open_nodes.push(place).is_err() {
            self.refuse();
        }
    }

    /// Leaves out the innermost open node, and gives the place where it begins.
    pub(crate) fn abandon(&mut self) -> usize
        ensures place { (kept : Kept) → self.old ≡ Some kept → result ≡ innermost kept }
        ensures left { Becomes left_out self.old self.new }
    {
        self.open_nodes.pop().unwrap_or(0)
    }

    /// Leaves out the innermost open node, and moves the start of its one tree to that of the node
    /// around it. If it does not have just one node or one field access, closes an error that
    /// starts there instead.
    pub(crate) fn extend(&mut self)
        ensures { Becomes extended self.old self.new }
    {
        if self.refused {
            return;
        }
        let inner = self.abandon();
        let outer = self.innermost_start();
        if !extend_last(&mut self.events, inner, outer) {
            let kind = SyntaxKind::ERROR;
            self.record(Event::Close { kind, start: outer });
        }
    }

    /// How many entries there are.
    pub(crate) fn len(&self) -> usize
        ensures { (kept : Kept) → self.now ≡ Some kept → result ≡ length kept.entered }
    {
        self.events.len()
    }

    /// How many nodes are open.
    pub(crate) fn level(&self) -> usize
        ensures { (kept : Kept) → self.now ≡ Some kept → result ≡ length kept.opened }
    {
        self.open_nodes.len()
    }

    /// Closes the innermost open node, and gives the place where it begins.
    pub(crate) fn complete(&mut self, kind: SyntaxKind) -> usize
        ensures place { (kept : Kept) → self.old ≡ Some kept → result ≡ innermost kept }
        ensures closed { Becomes (closed_as (raw_of kind)) self.old self.new }
    {
        let start = self.abandon();
        self.record(Event::Close { kind, start });
        start
    }

    /// Closes the innermost open node by a float, and opens one around it.
    pub(crate) fn split(&mut self, ends_in_dot: bool)
        ensures { Becomes (split_as ends_in_dot) self.old self.new }
    {
        let start = self.open_nodes.last().copied().unwrap_or(0);
        self.record(Event::Split { ends_in_dot, start });
    }

    /// Returns the steps of the recorded trees.
    ///
    /// # Errors
    ///
    /// `AllocError` if an allocation fails, or failed before.
    pub(crate) fn steps(self) -> Result<StepList, AllocError>
        ensures steps { IfOk result (λ steps. (f : Marked) → self ≡ Some (record_of (f ∷ []))
            → map step_of steps ≡ walk f) }
        ensures refused { self ≡ None → IsErr result }
    {
        if self.refused || self.lacks_room {
            return Err(AllocError);
        }
        unwind(self.alloc, &self.events)
    }

    /// Returns `true` if a completed node is one of the trees of the innermost open node: `first`
    /// is the index of its first event, `inside` the number of leaves, messages and nodes inside
    /// it. Returns `true` if a call that records failed to allocate. Takes one step for each tree
    /// after the node.
    pub(crate) fn is_child(&self, first: usize, inside: usize) -> bool
        ensures tells { (kept : Kept) → self.now ≡ Some kept → (f : Marked) (below : List Marked)
            → kept.entered ≡ all_entries (f ∷ below) → innermost kept ≡ total_size below →
            ((result ≡ true) ↔ IsAmong (record { before = first; inside = inside }) (f ∷ below)) }
        ensures refused { self.now ≡ None → result ≡ true }
    {
        if self.refused {
            return true;
        }
        let floor = self.innermost_start();
        is_tree(&self.events, floor, first, inside)
    }

    fn innermost_start(&self) -> usize
        ensures { (kept : Kept) → self.now ≡ Some kept → result ≡ innermost kept }
    {
        self.open_nodes.last().copied().unwrap_or(0)
    }
}

// Returns `true` if a completed node is one of the trees whose events begin at or after index
// `floor`. `first` is the index of its first event, `inside` the number of events between that and
// its own.
fn is_tree(events: &[Event], floor: usize, first: usize, inside: usize) -> bool
    ensures { (f : Marked) (below : List Marked) → map event_of events.now ≡ all_entries (f ∷ below)
        → floor ≡ total_size below →
        ((result ≡ true) ↔ IsAmong (record { before = first; inside = inside }) (f ∷ below)) }
{
    let mut end = events.len();
    'trees: while floor < end {
        let event = events[end - 1];
        let start = start_of(event, end - 1);
        if start <= first {
            return is_node(event, first, end - 1, inside);
        }
        end = start;
    }
    false
}

// Where the tree begins that has its last entry at a place.
fn start_of(event: Event, place: usize) -> usize
    ensures within { result ≤ place }
    ensures start { begins (event_of event) place ≤ place → result ≡ begins (event_of event) place }
{
    let start = match event {
        Event::Token { .. } => place,
        Event::Error { .. } => place,
        Event::Close { start, .. } => start,
        Event::Split { start, .. } => start,
    };
    if start <= place { start } else { place }
}

// Returns `true` if `event`, at index `place`, ends a node whose first event is at index `first`,
// with `inside` events before its own.
fn is_node(event: Event, first: usize, place: usize, inside: usize) -> bool
    ensures { (result ≡ true) ↔ (IsClosing first (event_of event) × (place - first ≡ inside)) }
{
    match event {
        Event::Token { .. } => false,
        Event::Error { .. } => false,
        Event::Close { start, .. } => {
            if start == first {
                place.saturating_sub(first) == inside
            } else {
                false
            }
        }
        Event::Split { .. } => false,
    }
}

// Moves the start of the last tree from index `inner` to index `outer`; if that tree is a field
// access that a float without a last dot ends, its receiver's too. Returns `false`, and changes
// nothing, if the tree is no node and no field access, or does not start at `inner`.
fn extend_last(events: &mut [Event], inner: usize, outer: usize) -> bool
    ensures { MatchBool result
        (map event_of events.new ≡ extended_entries inner outer (map event_of events.old))
        (map event_of events.new ++ Closed ERROR outer ∷ []
        ≡ extended_entries inner outer (map event_of events.old)) }
{
    let len = events.len();
    if len == 0 {
        return false;
    }
    match events[len - 1] {
        Event::Token { .. } => false,
        Event::Error { .. } => false,
        Event::Close { kind, start } => {
            if start != inner {
                return false;
            }
            events[len - 1] = Event::Close { kind, start: outer };
            // With one event, this is its own index, and a `Close` is left unchanged.
            let before = len.saturating_sub(2);
            events[before] = extend_access(events[before], inner, outer);
            true
        }
        Event::Split { ends_in_dot, start } => {
            if start != inner {
                return false;
            }
            let start = outer;
            events[len - 1] = Event::Split { ends_in_dot, start };
            true
        }
    }
}

// Returns the event with its start moved from `inner` to `outer`, if it ends a field access inside
// a float without a last dot. Returns other events unchanged.
fn extend_access(event: Event, inner: usize, outer: usize) -> Event
    ensures { event_of result ≡ access_from inner outer (event_of event) }
{
    match event {
        Event::Token { .. } => event,
        Event::Error { .. } => event,
        Event::Close { .. } => event,
        Event::Split { ends_in_dot, start } => {
            if ends_in_dot || start != inner {
                return event;
            }
            let start = outer;
            Event::Split { ends_in_dot, start }
        }
    }
}
