//! Files that are read and written whole.
//!
//! Code that is generic in a [`Target`] can read and write in no other way. [`Disk`] is the file
//! system; [`Memory`] has its files in memory, and promises everything. [`replace_file`] replaces a
//! file by the calls of a [`System`].
#![tactic(auto)]

mod disk;
mod error;
mod memory;
mod replace;
mod system;
mod target;
mod version;

pub use disk::Disk;
pub use error::TargetError;
pub use memory::Memory;
pub use replace::replace_file;
pub use system::{Status, System};
pub use target::{Contents, Target};
pub use version::Version;
