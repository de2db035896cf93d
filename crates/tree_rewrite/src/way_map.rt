//! Maps from up-paths to numbers.
ghost use Rattle.std.specs.Prelude.{◌≡◌, Some, if◌then◌else◌, OnOk, OnErr};
ghost use Rattle.syntax_tree.specs.Element.{Way, same_way};
ghost use Rattle.tree_rewrite.specs.WayMap.{number_at};

use std::alloc::AllocError;
use std::collections::HashMap;

/// A map from up-paths to numbers.
pub type WayMap = HashMap<Vec<usize>, usize>;

/// Returns the number of up-path `way`, if it has one.
pub fn number_at(map: &WayMap, way: &[usize]) -> Option<usize>
    ensures { result ≡ number_at map.now way.now }
{
    map.get(way).copied()
}

/// Maps `way` to `number`, which replaces any earlier number. On error, each up-path keeps its
/// number.
pub fn put(map: &mut WayMap, way: Vec<usize>, number: usize) -> Result<(), AllocError>
    ensures ok { OnOk result ((w : Way) →
        number_at map.new w ≡ (if same_way way.items w then Some number else number_at map.old w)) }
    ensures err { OnErr result ((w : Way) → number_at map.new w ≡ number_at map.old w) }
{
    map.insert(way, number)?;
    Ok(())
}
