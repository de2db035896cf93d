//! The form of the tables of calls that can run out of memory: rows, the loop that tries them, and
//! what is written for the answers.
#![tactic(auto)]

pub mod row;
pub mod shown;
