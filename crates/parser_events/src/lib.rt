//! The calls by which a grammar marks its nodes, and the steps of the trees that they make.
//!
//! A [`parser::Parser`] reads an input and records trees; a [`parser::Marker`] is an open node and
//! must be consumed. [`parser::Parser::finish`] returns an [`output::Output`], whose steps enter
//! and leave the nodes in order. The specs also define dressed trees: the trees of a parser with
//! the leaves of a text, its trivia, and the offset of each message.
#![tactic(auto)]

mod event;
mod fits;
mod float_parts;
pub mod laws;
pub mod message;
pub mod output;
pub mod parser;
mod recorder;
pub mod shortcuts;
pub mod step;
mod step_list;
pub mod str_sink;
pub mod str_step;
mod trivia;
mod unwinding;
