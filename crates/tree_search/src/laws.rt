//! Laws of matches. Each is the contract of a function that makes no call.

ghost use Rattle.tree_search.specs.Instances.{InstancesMatch, MatchesAreInstances};

/// What fits is an instance of the pattern: the pattern with elements in its places, whitespace, comments
/// and the commas of lists aside.
pub fn matches_are_instances()
    ensures { MatchesAreInstances }
{}

/// Each instance of a pattern whose lists have one sequence at most fits it, with the elements in its
/// places bound, and with no others.
pub fn instances_match()
    ensures { InstancesMatch }
{}
