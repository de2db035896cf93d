//! Files on the disk, and standard input.

use file_target::{Contents, Disk, Target, TargetError, Version};
use std::alloc::Global;
use std::io::{self, ErrorKind, Read};

/// The path of standard input.
pub const STANDARD_INPUT: &str = "-";

/// The files of the disk, and standard input at the path `-`, which can be read once and is never
/// written.
#[derive(Drop)]
pub struct Inputs<'a> {
    rt: &'a HostRuntime,
}

impl<'a> Inputs<'a> {
    /// Returns the files of a system, and its standard input.
    pub fn new(rt: &'a HostRuntime) -> Inputs<'a> {
        Inputs { rt }
    }
}

impl<'a> Target for Inputs<'a> {
    fn read(&self, alloc: Global, path: &str) -> Result<Contents, TargetError> {
        if path != STANDARD_INPUT {
            let disk = Disk::new(self.rt);
            return disk.read(alloc, path);
        }
        let mut bytes = Vec::new(alloc);
        self.rt.stdin().read_to_end(&mut bytes)?;
        Ok(Contents {
            bytes,
            version: Version::none(),
        })
    }

    fn write(
        &mut self,
        alloc: Global,
        path: &str,
        version: Version,
        bytes: &[u8],
    ) -> Result<(), TargetError> {
        if path == STANDARD_INPUT {
            return Err(TargetError::Io(io::Error::from(ErrorKind::Unsupported)));
        }
        let mut disk = Disk::new(self.rt);
        disk.write(alloc, path, version, bytes)
    }
}
