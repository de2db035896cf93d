//! A document that a caller keeps between calls, and what each export of the library for C, Rust and
//! Python does with it.
#![tactic(auto)]

pub mod calls;
pub mod commit;
mod commit_levels;
pub mod dialect;
pub mod handle;
pub mod hold;
pub mod kept;
pub mod put;
pub mod reason;
mod rehearsal;
pub mod renaming;
mod request_levels;
pub mod texts;
mod tree_text;
pub mod views;

pub use handle::Handle;
pub use kept::Kept;
pub use reason::Reason;
