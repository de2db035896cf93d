//! Texts around fragments, with which they are files.

use parser_input::SyntaxKind;
use tree_patterns::Fragment;
use tree_patterns::kinds::{EXPRESSIONS, PATTERNS, STATEMENTS, TYPES, is_among};

/// Returns the text before a fragment, with which it is a file.
pub fn before(fragment: Fragment) -> &'static str {
    match fragment {
        Fragment::Expression => "const _: () = ",
        Fragment::Type => "type A = ",
        Fragment::Pattern => "fn f() { let ",
        Fragment::Statement => "fn f() { ",
        Fragment::Item => "",
    }
}

/// Returns the text after a fragment, on a line of its own.
pub fn after(fragment: Fragment) -> &'static str {
    match fragment {
        Fragment::Expression => "\n;",
        Fragment::Type => "\n;",
        Fragment::Pattern => "\n= 1; }",
        Fragment::Statement => "\nlet _ = 0; }",
        Fragment::Item => "\n",
    }
}

/// Returns `true` if a node of the raw kind `kind` is such a fragment.
pub fn has_kind(fragment: Fragment, kind: u16) -> bool {
    match fragment {
        Fragment::Expression => is_among(&EXPRESSIONS, kind),
        Fragment::Type => is_among(&TYPES, kind),
        Fragment::Pattern => is_among(&PATTERNS, kind),
        Fragment::Statement => is_among(&STATEMENTS, kind),
        Fragment::Item => kind != SyntaxKind::ERROR.to_raw(),
    }
}
