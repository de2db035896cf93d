//! Display of green values: their texts.
use crate::element_ref::{GreenNodeRef, GreenTokenRef, NodeReader};
use crate::node::GreenNode;
use crate::token::GreenToken;
use crate::utility_types::NodeOrToken;
use std::fmt;

impl fmt::Display for GreenToken {
    ghost use Rattle.std.specs.Prelude.{Some};

    ghost output = { λ t. Some t.text };

    fn fmt<W: fmt::Write>(&self, f: &mut fmt::Formatter<W>) -> fmt::Result {
        self.as_ref().fmt(f)
    }
}

impl<'a> fmt::Display for GreenTokenRef<'a> {
    ghost use Rattle.std.specs.Prelude.{Some};

    ghost output = { λ t. Some t.text };

    fn fmt<W: fmt::Write>(&self, f: &mut fmt::Formatter<W>) -> fmt::Result {
        f.write_str(self.text())
    }
}

impl fmt::Display for GreenNode {
    ghost use Rattle.std.specs.Prelude.{Some};
    ghost use Rattle.rowan_green.specs.Forest.{tree_text};

    ghost output = { λ t. Some (tree_text t) };

    fn fmt<W: fmt::Write>(&self, f: &mut fmt::Formatter<W>) -> fmt::Result {
        self.as_ref().fmt(f)
    }
}

impl<'a> fmt::Display for GreenNodeRef<'a> {
    ghost use Rattle.std.specs.Prelude.{Some};
    ghost use Rattle.rowan_green.specs.Forest.{tree_text};

    ghost output = { λ t. Some (tree_text t) };

    fn fmt<W: fmt::Write>(&self, f: &mut fmt::Formatter<W>) -> fmt::Result {
        let data = match self.reader() {
            NodeReader::Flat(node) => return f.write_str(node.text()),
            NodeReader::Data(data) => data,
        };
        let children = data.elements();
        for index in 0..children.len() {
            match children.at(index) {
                NodeOrToken::Node(node) => node.fmt(f)?,
                NodeOrToken::Token(token) => token.fmt(f)?,
            }
        }
        Ok(())
    }
}

impl<N: fmt::Display, T: fmt::Display> fmt::Display for NodeOrToken<N, T> {
    ghost use Rattle.rowan_green.specs.Either.{either};

    ghost output = { either N.output T.output };

    fn fmt<W: fmt::Write>(&self, f: &mut fmt::Formatter<W>) -> fmt::Result {
        match self {
            NodeOrToken::Node(node) => node.fmt(f),
            NodeOrToken::Token(token) => token.fmt(f),
        }
    }
}
