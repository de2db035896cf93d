//! Laws of the definitions. Each is the contract of a function that makes no call.
ghost use Rattle.annotated_elements.specs.Laws.{EndsAreOne, OriginsAgree, ChangedAgree};

/// By a mapping whose outputs are in trees of greater numbers each element leads to one end, in no
/// more steps than there are entries.
pub fn ends_are_one()
    ensures { EndsAreOne }
{}

/// The elements of a rewritten tree and their origins go side by side, in preorder.
pub fn origins_agree()
    ensures { OriginsAgree }
{}

/// The up-paths of the inserted elements are those with the mark `put`, in preorder.
pub fn changed_agree()
    ensures { ChangedAgree }
{}
