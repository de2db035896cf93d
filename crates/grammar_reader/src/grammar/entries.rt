//! What a whole input is read as, where nothing is left over.

ghost use Rattle.std.specs.Prelude.{◌≤◌, ◌+◌};
ghost use Rattle.rust_grammar.specs.Rule as rules;
ghost use Rattle.rust_productions.specs.Looks.{tokens, spent};
ghost use Rattle.rust_productions.specs.Reads.{Gives, looks};
ghost use Rattle.rust_productions.specs.declared.condition.Condition.TheVariants.{Off};

use crate::grammar::expressions::blocks::statements;
use crate::grammar::items::items;
use crate::grammar::list_end::ListEnd;
use parser_input::syntax_kind::SyntaxKind;
use rust_productions::parser::Parser;

/// Parses a source file: an optional shebang, an optional frontmatter, and items.
// mod a; fn f() {}
pub fn source_file(p: &mut Parser<'_>)
    ensures gives { Gives rules.source_file Off p.old p.new }
    ensures left { tokens p.new ≤ tokens p.old }
    ensures looks { spent p.new ≤ spent p.old + 4 }
{
    let file = p.start();
    p.eat(SyntaxKind::SHEBANG);
    p.eat(SyntaxKind::FRONTMATTER);
    items(p, ListEnd::Input);
    file.complete(p, SyntaxKind::SOURCE_FILE);
}

/// Parses the items that a macro expands to.
// mod a; fn f() {}
pub fn macro_items(p: &mut Parser<'_>)
    ensures gives { Gives rules.macro_items Off p.old p.new }
    ensures left { tokens p.new ≤ tokens p.old }
    ensures looks { spent p.new ≤ spent p.old + 2 }
{
    let list = p.start();
    items(p, ListEnd::Input);
    list.complete(p, SyntaxKind::MACRO_ITEMS);
}

/// Parses the statements that a macro expands to.
// f(); a
pub fn macro_statements(p: &mut Parser<'_>)
    ensures gives { Gives rules.macro_statements Off p.old p.new }
    ensures left { tokens p.new ≤ tokens p.old }
    ensures looks { spent p.new ≤ spent p.old + 901 }
{
    let list = p.start();
    statements(p, ListEnd::Input);
    list.complete(p, SyntaxKind::MACRO_STMTS);
}
