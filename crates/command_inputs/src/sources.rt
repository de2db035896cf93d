//! The files that a command reads.

use crate::dialects::Dialects;
use crate::file_ids::file_id;
use crate::inputs::STANDARD_INPUT;
use clap::ArgMatches;
use file_paths::{FileId, first_same};
use path_globs::is_excluded;
use source_tools::Source;
use std::alloc::{AllocError, Global};
use std::io::ErrorKind;
use std::{fs, io};

/// The files of a command, each of them once, and whether a path was left out.
#[derive(Drop)]
pub struct SourceList {
    /// The files, each by the first path that leads to it.
    pub sources: Vec<Source>,
    /// A path was left out, which standard error names.
    pub has_faults: bool,
}

/// The paths of a command.
#[derive(Drop)]
struct PathList<'a> {
    rt: &'a HostRuntime,
    /// The patterns of what is left out in directories.
    excluded: &'a [&'a str],
    paths: Vec<String>,
    /// The identity of the file at each path, if it is known.
    ids: Vec<Option<FileId>>,
    has_faults: bool,
}

/// The folder that `cargo` builds in.
const BUILD_FOLDER: &str = "target";

/// What is at a path of the list.
#[derive(Drop)]
enum PathKind {
    File,
    Directory,
    Other,
}

/// Says that a file of a directory cannot be named.
fn report_entry(rt: &HostRuntime, directory: &str, error: &io::Error) {
    if error.kind() == ErrorKind::InvalidFilename {
        let _ = eprintln!(rt;
            "tevondimby: {directory}: a name in it is not UTF-8; that file is left out"
        );
    } else {
        let _ = eprintln!(rt; "tevondimby: {directory}: {error}");
    }
}

/// Returns the paths of the files and directories in a directory that are read, by name, the last
/// one first. Hidden directories, those that `cargo` builds in and what a pattern matches are left out.
fn entries(
    rt: &HostRuntime,
    directory: &str,
    excluded: &[&str],
    faults: &mut bool,
) -> io::Result<Vec<String>> {
    let alloc: Global = rt.alloc();
    let mut paths = Vec::new(alloc);
    for entry in fs::read_dir(rt, directory)? {
        let entry = match entry {
            Ok(entry) => entry,
            Err(error) => {
                report_entry(rt, directory, &error);
                *faults = true;
                continue;
            }
        };
        let kind = entry.file_type()?;
        let name = entry.file_name();
        let is_source = kind.is_file() && name.ends_with(".rs");
        let is_walked = kind.is_dir() && !name.starts_with('.') && name != BUILD_FOLDER;
        let path = entry.path();
        let is_read = is_walked || is_source;
        if is_read && !is_excluded(alloc, excluded, path.as_str(), name)? {
            paths.push(String::from_str(alloc, path.as_str())?)?;
        }
    }
    paths.sort()?;
    paths.as_mut_slice().reverse();
    Ok(paths)
}

/// Returns what is at a path, where a link in a directory is not followed.
fn kind_of(rt: &HostRuntime, path: &str, is_given: bool) -> io::Result<PathKind> {
    if is_given && path == STANDARD_INPUT {
        return Ok(PathKind::File);
    }
    let metadata = if is_given {
        fs::metadata(rt, path)?
    } else {
        fs::symlink_metadata(rt, path)?
    };
    Ok(if metadata.is_dir() {
        PathKind::Directory
    } else if is_given || metadata.is_file() {
        PathKind::File
    } else {
        PathKind::Other
    })
}

impl<'a> PathList<'a> {
    /// Adds the path of a file.
    fn push(&mut self, path: String) -> Result<(), AllocError> {
        self.ids.push(file_id(self.rt, path.as_str()))?;
        self.paths.push(path)?;
        Ok(())
    }

    /// Adds the path `given`, or the paths of the files in that directory.
    fn add(&mut self, given: &str) -> Result<(), AllocError> {
        let alloc: Global = self.rt.alloc();
        let mut rest = Vec::new(alloc);
        rest.push(String::from_str(alloc, given)?)?;
        let mut is_given = true;
        for _turn in 0..u64::MAX {
            let Some(path) = rest.pop() else {
                break;
            };
            match kind_of(self.rt, path.as_str(), is_given) {
                Ok(PathKind::Directory) => {
                    let found = entries(
                        self.rt,
                        path.as_str(),
                        self.excluded,
                        &mut self.has_faults,
                    );
                    match found {
                        Ok(mut paths) => rest.append(&mut paths)?,
                        Err(error) => self.report(path.as_str(), &error),
                    }
                }
                Ok(PathKind::File) => self.push(path)?,
                Ok(PathKind::Other) => {}
                Err(error) => self.report(path.as_str(), &error),
            }
            is_given = false;
        }
        Ok(())
    }

    /// Names a path that is left out.
    fn report(&mut self, path: &str, error: &io::Error) {
        let _ = eprintln!(self.rt; "tevondimby: {path}: {error}");
        self.has_faults = true;
    }

    /// Returns the files, each of them once: by the first path that leads to it.
    fn into_sources(self, dialects: &mut Dialects<'_>) -> Result<SourceList, AllocError> {
        let PathList {
            rt,
            excluded: _,
            paths,
            ids,
            has_faults,
        } = self;
        let mut sources = Vec::new(rt.alloc());
        for (index, path) in paths.into_iter().enumerate() {
            let is_new = index >= ids.len() || first_same(ids.as_slice(), index) == index;
            if is_new {
                let dialect = dialects.dialect(path.as_str())?;
                sources.push(Source { path, dialect })?;
            }
        }
        Ok(SourceList {
            sources,
            has_faults,
        })
    }
}

/// Returns the files at the given paths, in order, each of them once. In directories what a pattern of
/// `excluded` matches is left out.
///
/// # Errors
///
/// [`AllocError`] if an allocation fails.
pub fn source_list(
    rt: &HostRuntime,
    paths: &[&str],
    excluded: &[&str],
    dialects: &mut Dialects<'_>,
) -> Result<SourceList, AllocError> {
    let mut list = PathList {
        rt,
        excluded,
        paths: Vec::new(rt.alloc()),
        ids: Vec::new(rt.alloc()),
        has_faults: false,
    };
    for path in paths {
        list.add(path)?;
    }
    list.into_sources(dialects)
}

/// Returns the files that a command line names.
///
/// # Errors
///
/// [`AllocError`] if an allocation fails.
pub fn files_of(rt: &HostRuntime, matches: &ArgMatches<'_>) -> Result<SourceList, AllocError> {
    let mut dialects = Dialects::new(rt, matches);
    let paths = matches.get_strs("files").unwrap_or([].as_slice());
    let excluded = matches.get_strs("exclude").unwrap_or([].as_slice());
    source_list(rt, paths, excluded, &mut dialects)
}

/// Returns the path of the source with this index; empty if there is none.
pub fn path_of(sources: &[Source], index: usize) -> &str {
    match sources.get(index) {
        Some(source) => source.path.as_str(),
        None => "",
    }
}
