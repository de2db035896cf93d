//! A file is replaced by a new one.

ghost use Rattle.std.specs.Prelude.{◌≡◌, ℕ, List, [], None, Some, IfOk, IfSome, OnErr, OnOk, string_bytes};
ghost use Rattle.file_target.specs.Calls.{AreWhole, Call, IsReplaced, NewFile, empty_file, new_file, whole_file};
ghost use Rattle.file_target.specs.Replacing.{Follows, HasFile, IsAt, IsLeft, IsPut, IsPutWhole};

use crate::error::TargetError;
use crate::system::{Status, System};
use crate::version::Version;
use std::alloc::Global;
use std::io::{self, ErrorKind};

/// How many names are tried for a file beside another.
const NAMES: u32 = 100;

/// Makes an empty file beside `target`, under the first name that is free. Returns its path.
fn create_beside<S: System>(
    alloc: Global,
    system: &mut S,
    target: &str,
) -> Result<String, TargetError>
    ensures made { IfOk result (λ beside. (bytes : List ℕ) (front : List Call)
        → IfSome (S.trace system.old) (IsAt bytes front None)
        → IfSome (S.trace system.new) (IsAt bytes front (Some (empty_file (string_bytes beside))))) }
    ensures none { OnErr result ((bytes : List ℕ) (front : List Call)
        → IfSome (S.trace system.old) (IsAt bytes front None)
        → IfSome (S.trace system.new) (IsAt bytes front None)) }
{
    for number in 0..NAMES {
        let beside = format!(in alloc; "{target}.{number}.new")?;
        match system.create(beside.as_str()) {
            Ok(()) => return Ok(beside),
            Err(error) if error.kind() == ErrorKind::AlreadyExists => {}
            Err(error) => return Err(TargetError::from(error)),
        }
    }
    Err(TargetError::Io(io::Error::from(ErrorKind::AlreadyExists)))
}

/// Gives the new file at `path` the owner and group of `status`, or the group alone, or neither, as far
/// as the system allows.
fn keep_owner<S: System>(system: &mut S, path: &str, status: &Status)
    ensures { (bytes : List ℕ) (front : List Call) (file : NewFile)
        → IfSome (S.trace system.old) (IsAt bytes front (Some file))
        → IfSome (S.trace system.new) (IsAt bytes front (Some file)) }
{
    let is_same = match system.status(path) {
        Ok(new) => new.owner == status.owner && new.group == status.group,
        Err(_) => false,
    };
    if is_same {
        return;
    }
    if system
        .set_owner(path, Some(status.owner), status.group)
        .is_err()
    {
        let _ = system.set_owner(path, None, status.group);
    }
}

/// Gives the new file a mode and bytes, and waits until it is on the disk.
fn fill<S: System>(system: &mut S, mode: u32, bytes: &[u8]) -> io::Result<()>
    ensures filled { OnOk result ((front : List Call) (path : List ℕ)
        → IfSome (S.trace system.old) (IsAt bytes.now front (Some (empty_file path)))
        → IfSome (S.trace system.new)
        (IsAt bytes.now front (Some (whole_file path bytes.now mode)))) }
    ensures part { OnErr result ((front : List Call) (path : List ℕ)
        → IfSome (S.trace system.old) (IsAt bytes.now front (Some (empty_file path)))
        → IfSome (S.trace system.new) (HasFile bytes.now front path)) }
{
    system.set_mode(mode)?;
    system.write(bytes)?;
    system.sync()?;
    Ok(())
}

/// Gives the new file at `from` the path `to`, if the file there is of this version.
fn put<S: System>(system: &mut S, from: &str, to: &str, version: Version) -> Result<(), TargetError>
    ensures put { OnOk result (IfSome (S.trace system.new)
        (Follows (S.trace system.old) (IsPut from.now to.now version))) }
    ensures whole { (bytes : List ℕ) (front : List Call) (mode : ℕ)
        → IfSome (S.trace system.old) (IsAt bytes front (Some (whole_file from.now bytes mode)))
        → IfSome (S.trace system.new) (IsLeft bytes front from.now) }
{
    if !system.status(to)?.version.is(version) {
        return Err(TargetError::Changed);
    }
    system.rename(from, to)?;
    let _ = system.sync_directory(to);
    Ok(())
}

/// Fills the new file at `from`, and gives it the path `to`.
fn fill_and_put<S: System>(
    system: &mut S,
    from: &str,
    to: &str,
    status: &Status,
    bytes: &[u8],
) -> Result<(), TargetError>
    ensures put { OnOk result ((front : List Call)
        → IfSome (S.trace system.old) (IsAt bytes.now front (Some (empty_file from.now)))
        → IfSome (S.trace system.new)
        (IsPutWhole bytes.now front from.now to.now status.now)) }
    ensures whole { (front : List Call)
        → IfSome (S.trace system.old) (IsAt bytes.now front (Some (empty_file from.now)))
        → IfSome (S.trace system.new) (IsLeft bytes.now front from.now) }
{
    keep_owner(system, from, status);
    fill(system, status.mode, bytes)?;
    put(system, from, to, status.version)
}

/// Replaces the file that `path` leads to, which is to be of this version, with a new file that has
/// these bytes and its mode.
///
/// The new file is made under a name that is free, and gets the path only once it is on the disk. So
/// whichever call is the last, each file has its old bytes or the new ones. A new file that does not
/// get the path is removed, as far as that succeeds.
///
/// # Errors
///
/// - [`TargetError::Changed`] if the file is of another version.
/// - [`TargetError::NoMemory`] if an allocation fails.
/// - [`TargetError::NotFound`], [`TargetError::Io`]: the error of a call that failed.
pub fn replace_file<S: System>(
    alloc: Global,
    system: &mut S,
    path: &str,
    version: Version,
    bytes: &[u8],
) -> Result<(), TargetError>
    requires { IfSome (S.trace system.old) (λ calls. calls ≡ []) }
    ensures whole { IfSome (S.trace system.new) (AreWhole bytes.now None) }
    ensures left { IfSome (S.trace system.new) (λ calls. new_file calls ≡ None) }
    ensures replaced { OnOk result
        (IfSome (S.trace system.new) (IsReplaced path.now version bytes.now)) }
{
    let target = system.resolve(alloc, path)?;
    let to = target.as_str();
    let status = system.status(to)?;
    if !status.version.is(version) {
        return Err(TargetError::Changed);
    }
    let beside = create_beside(alloc, system, to)?;
    let from = beside.as_str();
    match fill_and_put(system, from, to, &status, bytes) {
        Ok(()) => Ok(()),
        Err(error) => {
            let _ = system.remove(from);
            Err(error)
        }
    }
}
