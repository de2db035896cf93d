//! The editions of files, by the nearest `Cargo.toml`.

use cargo_editions::{Said, said_in};
use parser_input::Edition;
use std::alloc::{AllocError, Global};
use std::fs;
use std::io::ErrorKind;
use std::path::{self, Path};
use toml::Value;

/// The most directories that are looked into for one file.
const MAX_DEPTH: usize = 4096;

/// What the manifest in a directory says.
#[derive(Drop)]
enum Found {
    Edition(Edition),
    /// The edition is the workspace's.
    Workspace,
    Nothing,
    /// There is none, since the manifest is wrong as the words say.
    Wrong(String),
}

/// Returns what a manifest says.
fn found_in(alloc: Global, manifest: &Value, of_workspace: bool) -> Result<Found, AllocError> {
    Ok(match said_in(manifest, of_workspace) {
        Said::Edition(edition) => Found::Edition(edition),
        Said::Workspace => Found::Workspace,
        Said::Nothing => Found::Nothing,
        Said::Unknown(name) => Found::Wrong(format!(in alloc;
            "edition `{name}`: one of 2015, 2018, 2021, 2024 or next is wanted"
        )?),
    })
}

/// Returns the lines of `text` as one, each but the first behind a colon.
fn one_line(alloc: Global, text: &str) -> Result<String, AllocError> {
    let mut line = String::new(alloc);
    for part in text.lines() {
        if !line.is_empty() {
            line.push_str(": ")?;
        }
        line.push_str(part)?;
    }
    Ok(line)
}

/// The editions of files. A manifest that is wrong is named once on standard error.
#[derive(Drop)]
pub struct Editions<'a> {
    rt: &'a HostRuntime,
    /// The manifests that were named.
    named: Vec<String>,
}

impl<'a> Editions<'a> {
    /// Returns the editions of the files of a system.
    pub fn new(rt: &'a HostRuntime) -> Editions<'a> {
        Editions {
            rt,
            named: Vec::new(rt.alloc()),
        }
    }

    /// Names a manifest and says what is wrong with it.
    fn report(&mut self, manifest: &str, words: &str) -> Result<(), AllocError> {
        let alloc: Global = self.rt.alloc();
        for named in self.named.as_slice() {
            if named.as_str() == manifest {
                return Ok(());
            }
        }
        let _ = eprintln!(self.rt;
            "tevondimby: {manifest}: {words}; its files are read by edition 2021"
        );
        self.named.push(String::from_str(alloc, manifest)?)?;
        Ok(())
    }

    /// Returns what the manifest in a directory says.
    fn found_at(&self, manifest: &str, of_workspace: bool) -> Result<Found, AllocError> {
        let alloc: Global = self.rt.alloc();
        let text = match fs::read_to_string(self.rt, manifest) {
            Ok(text) => text,
            Err(error) if error.kind() == ErrorKind::NotFound => return Ok(Found::Nothing),
            Err(error) if error.kind() == ErrorKind::NotADirectory => return Ok(Found::Nothing),
            Err(error) => return Ok(Found::Wrong(format!(in alloc; "{error}")?)),
        };
        match toml::table_from_str(alloc, text.as_str()) {
            Ok(table) => found_in(alloc, &Value::Table(table), of_workspace),
            Err(error) => {
                let words = format!(in alloc; "{error}")?;
                Ok(Found::Wrong(one_line(alloc, words.as_str())?))
            }
        }
    }

    /// Returns the edition that the manifest in a directory says, if it ends the search.
    fn edition_at(
        &mut self,
        directory: Path<'_>,
        of_workspace: &mut bool,
    ) -> Result<Option<Edition>, AllocError> {
        let manifest = directory.join(self.rt.alloc(), "Cargo.toml")?;
        let manifest = manifest.as_path().as_str();
        let mut found = self.found_at(manifest, *of_workspace)?;
        if let Found::Workspace = found {
            *of_workspace = true;
            found = self.found_at(manifest, true)?;
        }
        match found {
            Found::Edition(edition) => Ok(Some(edition)),
            Found::Wrong(words) => {
                self.report(manifest, words.as_str())?;
                Ok(Some(Edition::Edition2021))
            }
            Found::Workspace | Found::Nothing => Ok(None),
        }
    }

    /// Returns the edition of `file`, a path: of the nearest `Cargo.toml`, else 2021.
    ///
    /// # Errors
    ///
    /// [`AllocError`] if an allocation fails.
    pub fn edition_of(&mut self, file: &str) -> Result<Edition, AllocError> {
        let Ok(file) = path::absolute(self.rt, file) else {
            return Ok(Edition::Edition2021);
        };
        let mut place = file.as_path();
        let mut of_workspace = false;
        for _turn in 0..MAX_DEPTH {
            let Some(directory) = place.parent() else {
                break;
            };
            if let Some(edition) = self.edition_at(directory, &mut of_workspace)? {
                return Ok(edition);
            }
            place = directory;
        }
        Ok(Edition::Edition2021)
    }
}
