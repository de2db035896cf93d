//! The lines of a diff that name its texts.

ghost use Rattle.std.specs.Prelude.{◌≡◌, ◌++◌, OnOk};
ghost use Rattle.std.specs.List.{flat_map, list_any};
ghost use Rattle.text_diff.specs.Names.{escaped, is_special, name_text, names_text};

use std::alloc::AllocError;

/// Returns `true` for a byte that does not stand in a name as it is: a control character, a quote or a
/// backslash.
fn is_special(byte: u8) -> bool
    ensures { result ≡ is_special byte }
{
    byte < 32 || byte == b'"' || byte == b'\\' || byte == 127
}

/// Returns `true` if a byte of `path` does not stand in a name as it is.
fn has_special(path: &[u8]) -> bool
    ensures { result ≡ list_any is_special path.now }
{
    path.iter().any(|byte| is_special(*byte))
}

/// Appends a byte of a quoted name.
fn push_escaped(byte: u8, text: &mut Vec<u8>) -> Result<(), AllocError>
    ensures { OnOk result (text.new.items ≡ text.old.items ++ escaped byte) }
{
    if !is_special(byte) {
        text.push(byte)?;
    } else if byte == b'"' || byte == b'\\' {
        text.push(b'\\')?;
        text.push(byte)?;
    } else {
        text.push(b'\\')?;
        text.push(b'0' + byte / 64)?;
        text.push(b'0' + byte / 8 % 8)?;
        text.push(b'0' + byte % 8)?;
    }
    Ok(())
}

/// Appends the bytes of a quoted name.
fn push_all_escaped(path: &[u8], text: &mut Vec<u8>) -> Result<(), AllocError>
    ensures { OnOk result (text.new.items ≡ text.old.items ++ flat_map escaped path.now) }
{
    for byte in path {
        push_escaped(*byte, text)?;
    }
    Ok(())
}

/// Appends the name of a text, behind its side, `a` or `b`, and a slash; in quotes if a byte of it does not stand
/// as it is.
fn push_name(side: u8, path: &str, text: &mut Vec<u8>) -> Result<(), AllocError>
    ensures { OnOk result (text.new.items ≡ text.old.items ++ name_text side path.now) }
{
    let path = path.as_bytes();
    if has_special(path) {
        text.push(b'"')?;
        text.push(side)?;
        text.push(b'/')?;
        push_all_escaped(path, text)?;
        text.push(b'"')?;
    } else {
        text.push(side)?;
        text.push(b'/')?;
        text.extend_from_slice(path)?;
    }
    Ok(())
}

/// Appends the lines that name the texts.
pub(crate) fn push_names(path: &str, text: &mut Vec<u8>) -> Result<(), AllocError>
    ensures { OnOk result (text.new.items ≡ text.old.items ++ names_text path.now) }
{
    text.extend_from_slice(b"--- ")?;
    push_name(b'a', path, text)?;
    text.extend_from_slice(b"\t\n+++ ")?;
    push_name(b'b', path, text)?;
    text.extend_from_slice(b"\t\n")?;
    Ok(())
}
