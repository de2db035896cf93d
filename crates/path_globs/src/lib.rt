//! Paths that patterns match.
#![tactic(auto)]

ghost use Rattle.std.specs.Prelude.{◌≡◌, IfOk, chars, map};
ghost use Rattle.path_globs.specs.Globs.{is_excluded, is_match, is_match_of, without_dot};

use std::alloc::{AllocError, Global};

/// Returns `true` if the pattern matches the whole text: `*` is any text, also with slashes, `?` is one
/// character, and each other character is itself.
fn is_match(pattern: &[char], text: &[char]) -> bool
    ensures { result ≡ is_match pattern.now text.now }
{
    match (pattern, text) {
        ([], _) => text.is_empty(),
        (['*', rest @ ..], []) => is_match(rest, text),
        (['*', rest @ ..], [_, behind @ ..]) => is_match(rest, text) || is_match(pattern, behind),
        (_, []) => false,
        ([first, rest @ ..], [c, behind @ ..]) => {
            (*first == '?' || first == c) && is_match(rest, behind)
        }
    }
}

/// Returns the characters of a text.
fn chars_of(alloc: Global, text: &str) -> Result<Vec<char>, AllocError>
    ensures { IfOk result (λ found. found.items ≡ chars text.now) }
{
    let mut found = Vec::new(alloc);
    for c in text.chars() {
        found.push(c)?;
    }
    Ok(found)
}

/// Returns `true` if the pattern `glob` matches the whole text.
fn is_match_of(alloc: Global, glob: &str, text: &str) -> Result<bool, AllocError>
    ensures { IfOk result (λ is. is ≡ is_match_of text.now glob.now) }
{
    let glob = chars_of(alloc, glob)?;
    let text = chars_of(alloc, text)?;
    Ok(is_match(glob.as_slice(), text.as_slice()))
}

/// Returns `path` without `./` at its start.
fn without_dot(path: &str) -> &str
    ensures { result.now ≡ without_dot path.now }
{
    match path.strip_prefix("./") {
        Some(rest) => rest,
        None => path,
    }
}

/// Returns `true` if one of the patterns matches a path, whole and without `./` at its start, or the
/// name that it ends with. In a pattern `*` is any text, also with slashes, `?` is one character, and
/// each other character is itself.
///
/// # Errors
///
/// Out of memory.
pub fn is_excluded(
    alloc: Global,
    globs: &[&str],
    path: &str,
    name: &str,
) -> Result<bool, AllocError>
    ensures { IfOk result (λ is. is
        ≡ is_excluded (map (λ glob. glob.now) globs.now) path.now name.now) }
{
    for glob in globs {
        let is_path = is_match_of(alloc, glob, without_dot(path))?;
        let is_name = is_match_of(alloc, glob, name)?;
        if is_path || is_name {
            return Ok(true);
        }
    }
    Ok(false)
}
