//! The first changes of elements that were named alone.
ghost use Rattle.std.specs.Prelude.{◌≡◌, ◌++◌, ◌∷◌, ◌&&◌, [], List, length, map, OnOk, OnErr};
ghost use Rattle.std.specs.List.{All, list_any};
ghost use Rattle.rowan.specs.Place.{term_by};
ghost use Rattle.syntax_tree.specs.Element.{Way, Element, term_of};
ghost use Rattle.syntax_tree.specs.Handle.{element_of};
ghost use Rattle.tree_rewrite.specs.Change as specs;
ghost use Rattle.tree_rewrite.specs.Moved.{same_kind};
ghost use Rattle.tree_rewrite.specs.Recorded.{recorded};
ghost use Rattle.syntax_editor.specs.Inside.{IsSound};
ghost use Rattle.syntax_editor.specs.Noted.{HasSingles, AreNoted};
ghost use Rattle.syntax_editor.specs.Recording.{is_deletion_at};
ghost use Rattle.syntax_editor.specs.ByWay.{way_of, number_at};

use crate::by_way::{Singles, number_at, put};
use crate::recorded::has_deletion_of;
use std::alloc::AllocError;
use syntax_tree::SyntaxElement;
use tree_rewrite::change::Change;

/// Returns `true` if a deletion of the element that has the path of `element`, named alone, is
/// among `changes`, and both have the same kind. The first `noted` changes are noted in `singles`.
pub(crate) fn is_deleted(
    element: &SyntaxElement,
    changes: &[Change],
    noted: usize,
    singles: &Singles,
) -> bool
    requires { AreNoted singles.now noted (map recorded changes.now) }
    ensures { (top : Element) → All (IsSound top) changes.now → result
        ≡ (same_kind (term_by top.place.root (way_of element.now))
        (term_of (element_of element.now))
        && list_any (is_deletion_at (way_of element.now)) (map recorded changes.now)) }
{
    // (there is none before the first change of that element alone)
    let start = number_at(singles, element).unwrap_or(noted);
    let (_, rest) = changes.split_at(start);
    has_deletion_of(element, rest)
}

/// Notes the change with index `number`, which follows those that are noted.
fn note(change: &Change, number: usize, singles: &mut Singles) -> Result<(), AllocError>
    ensures ok { OnOk result ((cs : List specs.Change) → length cs ≡ number
        → HasSingles singles.old cs →
        HasSingles singles.new (cs ++ recorded change.now ∷ [])) }
    ensures err { OnErr result ((w : Way) → number_at singles.new w ≡ number_at singles.old w) }
{
    let Change::Replace { first, single, .. } = change else {
        return Ok(());
    };
    if !*single {
        return Ok(());
    }
    if number_at(singles, first).is_some() {
        return Ok(());
    }
    let element = first.clone()?;
    put(singles, element, number)
}

/// Notes the changes that are not noted. On error, those that were noted so far stay noted.
pub(crate) fn note_all(
    changes: &[Change],
    noted: &mut usize,
    singles: &mut Singles,
) -> Result<(), AllocError>
    requires { AreNoted singles.old noted.old (map recorded changes.now) }
    ensures noted { AreNoted singles.new noted.new (map recorded changes.now) }
    ensures ok { OnOk result (noted.new ≡ length changes.now) }
{
    while *noted < changes.len() {
        note(&changes[*noted], *noted, singles)?;
        *noted += 1;
    }
    Ok(())
}
