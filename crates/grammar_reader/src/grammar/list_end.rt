//! Where a list of items or of statements ends.

ghost use Rattle.grammar_reader.specs.Told.{ends_of};
ghost use Rattle.rust_productions.specs.Looks.{Peeks};
ghost use Rattle.rust_productions.specs.Reads.{Saw};
ghost use Rattle.rust_productions.specs.declared.condition.Condition.{Condition};

use parser_input::syntax_kind::SyntaxKind;
use rust_productions::parser::Parser;

/// The end of a list: its closing brace or the end of the input, or the end of the input alone.
#[derive(Clone, Copy)]
pub(crate) enum ListEnd {
    Brace,
    Input,
}

/// Returns `true` if a list with this end ends here.
pub(crate) fn at_end_of(p: &mut Parser<'_>, end: ListEnd) -> bool
    ensures sees { (c : Condition) → Saw c (ends_of end) p.old result }
    ensures peeks { Peeks 1 p.old p.new }
{
    match p.current() {
        SyntaxKind::EOF => true,
        SyntaxKind::R_CURLY => match end {
            ListEnd::Brace => true,
            ListEnd::Input => false,
        },
        _ => false,
    }
}
