//! Entries by their names.
ghost use Rattle.std.specs.Prelude.{◌≡◌};
ghost use Rattle.tree_lines.specs.Names.{entry_point_named};

use ra_parser::TopEntryPoint;

/// What a text is read as, by its name; `Type` is the entry `Ty`.
pub fn entry_point(name: &str) -> Option<TopEntryPoint>
    ensures { result ≡ entry_point_named name.now }
{
    match name {
        "SourceFile" => Some(TopEntryPoint::SourceFile),
        "MacroStmts" => Some(TopEntryPoint::MacroStmts),
        "MacroItems" => Some(TopEntryPoint::MacroItems),
        "Pattern" => Some(TopEntryPoint::Pattern),
        "Type" => Some(TopEntryPoint::Ty),
        "Expr" => Some(TopEntryPoint::Expr),
        "MetaItem" => Some(TopEntryPoint::MetaItem),
        _ => None,
    }
}
