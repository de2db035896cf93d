//! Changes of a text that an editor tells by lines and columns.
//!
//! [`offset_in`] leads from a place to its offset, [`apply_change`] makes a change, and [`replaced_range`] says
//! where two texts differ.
#![tactic(auto)]

mod change;
mod difference;
pub mod laws;
mod place;

pub use change::{Change, apply_change};
pub use difference::{Difference, replaced_range};
pub use place::offset_in;
