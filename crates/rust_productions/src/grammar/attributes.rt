//! What an attribute says.

ghost use Rattle.std.specs.Prelude.{◌≤◌, IsTrue};
ghost use Rattle.rust_productions.specs.Looks.{tokens, Peeks};
ghost use Rattle.rust_grammar.specs.Rule as rules;
ghost use Rattle.rust_productions.specs.Reads.{looks, Saw, Condition};

use crate::grammar::paths::at_path;
use crate::parser::Parser;
use parser_input::syntax_kind::SyntaxKind;

/// Returns `true` if a meta item starts here: at a path, or in the whole language at `unsafe`.
pub fn at_meta(p: &mut Parser<'_>) -> bool
    ensures sees { (c : Condition) → Saw c (looks rules.meta) p.old result }
    ensures some { IsTrue result → 1 ≤ tokens p.old }
    ensures peeks { Peeks 4 p.old p.new }
{
    if at_path(p) {
        return true;
    }
    if p.at_new(SyntaxKind::UNSAFE_KW) {
        return true;
    }
    false
}
