//! The marker of an open node, as the productions use it.

ghost use Rattle.std.specs.Prelude.{◌≡◌, IfSome};
ghost use Rattle.parser_input.specs.Kind.{raw_of};
ghost use Rattle.parser_events.specs.Stack.{Becomes, closed, place_of, IsInnermost};
ghost use Rattle.rust_grammar.specs.Meaning.{wrapped};
ghost use Rattle.rust_productions.specs.Looks.{Stays};
ghost use Rattle.rust_productions.specs.Reads.{Closes, Leaves, Extends, Does};

use crate::parser::Parser;
use parser_events::parser::{CompletedMarker, Marker as EventMarker};
use parser_input::syntax_kind::SyntaxKind;
use std::marker::Model;

/// A node that is open. It must be spent, by [`Marker::complete`], [`Marker::abandon`],
/// [`Marker::extend_left`] or [`Marker::wrap`]. Model: the number of nodes open around it.
pub struct Marker {
    pub(crate) events: EventMarker,
}

impl Model for Marker {
    ghost use Rattle.std.specs.Prelude.{ℕ};

    ghost Value = { ℕ };

    ghost view = { λ m. m.events };
}

impl Marker {
    /// Completes the node as one of this kind, and returns where it is.
    pub fn close(self, p: &mut Parser<'_>, kind: SyntaxKind) -> CompletedMarker
        requires { IsInnermost self p.old.nodes }
        ensures nodes { Becomes (closed (raw_of kind)) p.old.nodes p.new.nodes }
        ensures place { IfSome p.old.nodes (λ nodes. result ≡ place_of nodes) }
        ensures same { p.new ≡ record p.old { nodes = p.new.nodes } }
    {
        let Marker { events } = self;
        events.complete(&mut p.events, kind)
    }

    /// Completes the node as one of this kind.
    #[inline(never)]
    pub fn complete(self, p: &mut Parser<'_>, kind: SyntaxKind)
        requires { IsInnermost self p.old.nodes }
        ensures closes { Closes (raw_of kind) p.old p.new }
        ensures stays { Stays p.old p.new }
    {
        self.close(p, kind);
    }

    /// Abandons the node.
    pub fn abandon(self, p: &mut Parser<'_>)
        requires { IsInnermost self p.old.nodes }
        ensures leaves { Leaves p.old p.new }
        ensures stays { Stays p.old p.new }
    {
        let Marker { events } = self;
        events.abandon(&mut p.events);
    }

    /// Abandons the node, and makes what the node around it has so far the first children of the
    /// one tree that it has.
    #[inline(never)]
    pub fn extend_left(self, p: &mut Parser<'_>)
        requires { IsInnermost self p.old.nodes }
        ensures extends { Extends p.old p.new }
        ensures stays { Stays p.old p.new }
    {
        let Marker { events } = self;
        events.extend_left(&mut p.events);
    }

    /// Completes the node as one of this kind, and opens a node around it.
    #[inline(never)]
    pub fn wrap(self, p: &mut Parser<'_>, kind: SyntaxKind) -> Marker
        requires { IsInnermost self p.old.nodes }
        ensures wraps { Does (wrapped (raw_of kind)) p.old p.new }
        ensures marker { IsInnermost result p.new.nodes }
        ensures stays { Stays p.old p.new }
    {
        let closed = self.close(p, kind);
        p.precede(closed)
    }
}
