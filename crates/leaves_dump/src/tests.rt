//! Tests what contracts leave open: that the tables are the intended ones, by values written by
//! hand.

mod inputs;
mod known;
mod leaves;
mod prefaces;
mod words;
