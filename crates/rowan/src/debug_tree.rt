//! Debug output of the tree below a node.
ghost use Rattle.std.specs.Prelude.{◌≡◌, ◌≤◌, ◌<◌, ◌+◌, ◌^◌, ◌++◌, length, string_bytes, OnOk, IfOk, IfSome};
ghost use Rattle.std.specs.Fmt.{AppendsText, debug_str};
ghost use Rattle.rowan_green.specs.declared.utility_types.NodeOrToken.TheVariants.{Node};
ghost use Rattle.rowan.specs.Text.{IsCut};
ghost use Rattle.rowan.specs.Walk.{walk};
ghost use Rattle.rowan.specs.Debug.{excerpt_end, excerpt, line_front, line_text, line_of, lines_of};

use crate::api::{SyntaxElement, SyntaxNode};
use crate::element::ElementExt;
use crate::language::Language;
use crate::utility_types::WalkEvent;
use rowan_green::NodeOrToken;
use std::alloc::{AllocError, Global};
use std::fmt::Write;

/// Returns the offset at which a long text is cut: its first character boundary from byte 21 on.
fn excerpt_end(text: &str) -> usize
    requires { 21 ≤ length text.now }
    ensures end { result ≡ excerpt_end text.now }
    ensures cut { IsCut text.now result }
{
    let bytes = text.as_bytes();
    let mut end = 21;
    'bytes: while end < bytes.len() && bytes[end] >= 128 && bytes[end] < 192 {
        end += 1;
    }
    end
}

/// Appends a token's text, quoted; a long text is cut.
fn push_quoted(alloc: Global, text: &str, to: &mut String) -> Result<(), AllocError>
    ensures { OnOk result (AppendsText (string_bytes to.old) (string_bytes to.new)
        (debug_str (excerpt text.now))) }
{
    if text.len() < 25 {
        return write!(to, "{text:?}");
    }
    let front = &text[..excerpt_end(text)];
    let cut = format!(in alloc; "{front} ...")?;
    write!(to, "{cut:?}")
}

/// Appends the start of a line: two spaces for each level, a name and a range.
fn push_front(
    depth: u64,
    name: &str,
    start: u32,
    end: u32,
    to: &mut String,
) -> Result<(), AllocError>
    ensures front { OnOk result (string_bytes to.new
        ≡ string_bytes to.old ++ line_front depth name.now start end) }
    ensures fits { OnOk result (depth + 1 < 2 ^ 64) }
{
    'levels: for _level in 0..depth {
        to.push_str("  ")?;
    }
    prove!(depth <= to.len() as u64 / 2);
    write!(to, "{name}@{start}..{end}")
}

/// Appends the end of a token's line: its text, quoted.
fn push_text(alloc: Global, text: &str, to: &mut String) -> Result<(), AllocError>
    ensures { OnOk result
        (AppendsText (string_bytes to.old) (string_bytes to.new) (line_text text.now)) }
{
    to.push_str(" ")?;
    push_quoted(alloc, text, to)?;
    to.push_str("\n")?;
    Ok(())
}

/// Appends an element's line. If the indentation fits into a string, the depth of the next level
/// fits into a `u64`.
fn push_line<L: Language>(
    alloc: Global,
    element: &SyntaxElement<L>,
    depth: u64,
    to: &mut String,
) -> Result<(), AllocError>
    ensures line { OnOk result (AppendsText (string_bytes to.old) (string_bytes to.new)
        (line_of (λ raw. L.name_of (L.from_raw raw)) depth element.now)) }
    ensures fits { OnOk result (depth + 1 < 2 ^ 64) }
{
    let name = L::kind_name(element.kind());
    let range = element.text_range();
    push_front(depth, name, range.start().0, range.end().0, to)?;
    match element {
        NodeOrToken::Node(_) => to.push_str("\n")?,
        NodeOrToken::Token(token) => push_text(alloc, token.text(), to)?,
    }
    Ok(())
}

impl<L: Language> SyntaxNode<L> {
    /// Returns a line for the node and for each descendant, in preorder: two spaces for each level,
    /// the name of the kind, the range, and for a token its text, quoted. A text of 25 bytes or
    /// more is cut at its first character boundary from byte 21 on, and ` ...` follows.
    ///
    /// # Errors
    ///
    /// [`AllocError`] if an allocation fails or a reference count overflows.
    pub fn debug_tree(&self, alloc: Global) -> Result<String, AllocError>
        ensures { IfOk result (λ s. IfSome
            (lines_of (λ raw. L.name_of (L.from_raw raw)) 0 (walk (Node self.now)))
            (λ t. string_bytes s ≡ t)) }
    {
        let mut text = String::new(alloc);
        let mut depth: u64 = 0;
        let mut walk = self.preorder_with_tokens(alloc)?;
        'events: while let Some(event) = walk.next() {
            match event? {
                WalkEvent::Enter(element) => {
                    push_line(alloc, &element, depth, &mut text)?;
                    depth += 1;
                }
                WalkEvent::Leave(_) => depth = depth.saturating_sub(1),
            }
        }
        Ok(text)
    }
}
