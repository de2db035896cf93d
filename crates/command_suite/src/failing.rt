//! Files in memory, of which one call fails.
use file_target::{Contents, Memory, Target, TargetError, Version};
use std::alloc::Global;
use std::cell::Cell;

/// Files in memory, of which one call fails.
pub(crate) struct Failing {
    pub(crate) memory: Memory,
    /// The number of calls up to the one that fails; 0 if none does.
    left: Cell<u32>,
}

impl Drop for Failing {
    fn drop(self) {
        let Failing {
            memory: _memory,
            left: _left,
        } = self;
    }
}

impl Failing {
    /// Returns files of which the call with this number fails, counted from 1.
    pub(crate) fn new(memory: Memory, call: u32) -> Failing {
        Failing {
            memory,
            left: Cell::new(call),
        }
    }

    /// Counts a call. Returns `true` if it fails.
    fn fails(&self) -> bool {
        let left = self.left.get();
        self.left.set(left.saturating_sub(1));
        left == 1
    }
}

impl Target for Failing {
    fn read(&self, alloc: Global, path: &str) -> Result<Contents, TargetError> {
        if self.fails() {
            return Err(TargetError::Changed);
        }
        self.memory.read(alloc, path)
    }

    fn write(
        &mut self,
        alloc: Global,
        path: &str,
        version: Version,
        bytes: &[u8],
    ) -> Result<(), TargetError> {
        if self.fails() {
            return Err(TargetError::Changed);
        }
        self.memory.write(alloc, path, version, bytes)
    }
}
