//! Laws of the definitions. Each is the contract of a function with an empty body.
ghost use Rattle.tree_indent.specs.Laws.{DedentingReplaces};

/// A dedented text has a line feed in place of each line feed with the spaces of the level after
/// it, replaced from left to right.
pub fn dedenting_replaces()
    ensures { DedentingReplaces }
{}
