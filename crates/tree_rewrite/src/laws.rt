//! Laws of the definitions. Each is the contract of a function with an empty body.
ghost use Rattle.tree_rewrite.specs.Laws.{OrderExists, OrdersAgree, ClimbsEnd, SwapsAgree, RootStays, RangesAgree};

/// Changes that are applied one at a time, in any admitted order, lead to the tree with all of them
/// applied atomically.
pub fn orders_agree()
    ensures { OrdersAgree }
{}

/// Changes that have a place each and do not collide have an admitted order.
pub fn order_exists()
    ensures { OrderExists }
{}

/// By a mapping whose outputs are in trees of greater numbers, a climb from a replaced node to its
/// payload ends within its bound: one step for each entry, and one more.
pub fn climbs_end()
    ensures { ClimbsEnd }
{}

/// Two adjacent changes that do not both insert into the same gap may be recorded in either order:
/// neither the error nor the tree depends on it.
pub fn swaps_agree()
    ensures { SwapsAgree }
{}

/// If each change that replaces the root replaces it by one node, the rewritten tree is one node.
pub fn root_stays()
    ensures { RootStays }
{}

/// The changed ranges are those of the elements at the changed up-paths.
pub fn ranges_agree()
    ensures { RangesAgree }
{}
