//! Laws of changes that replace leaves. Each is the contract of a function that makes no call.

ghost use Rattle.plain_changes.specs.LeafChanges.{LeavesAreReplaced, ReplacedLeavesAreApart, ReplacingKeepsCounts, SmallTreesFit};

/// Changes that replace leaves by leaves, no two of them the same leaf, all have a place, and the
/// rewritten tree is the old one with the new leaves. Their up-paths are apart.
pub fn leaves_are_replaced()
    ensures tree { LeavesAreReplaced }
    ensures apart { ReplacedLeavesAreApart }
{}

/// A rewritten tree of fewer than 2^32 elements and bytes may have its children; replacing leaves
/// changes no number of elements.
pub fn small_trees_fit()
    ensures fit { SmallTreesFit }
    ensures counts { ReplacingKeepsCounts }
{}
