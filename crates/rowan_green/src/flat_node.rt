//! A node of an arena.
ghost use Rattle.std.specs.Prelude.{◌≡◌, [], length};
ghost use Rattle.rowan_green.specs.Forest.{tree_text};
ghost use Rattle.rowan_green.specs.declared.utility_types.NodeOrToken.TheVariants.{Node};
ghost use Rattle.rowan_green.specs.Arena.{IsSound, items_in, terms_at};
ghost use Rattle.rowan_green.specs.FlatNode.{IsLast, last_tree};

use crate::arena::Arena;
use std::marker::Model;
use std::rc::Rc;

/// A node of an arena. It keeps the whole arena alive.
#[derive(Drop)]
pub(crate) struct FlatNode {
    pub(crate) index: u32,
    pub(crate) arena: Rc<Arena>,
}

impl Model for FlatNode {
    ghost use Rattle.rowan_green.specs.Forest.{Tree, tree_code};

    ghost Value = { Tree };

    ghost coded = { tree_code };

    ghost use Rattle.rowan_green.specs.FlatNode.{IsNodeAt, tree_at};

    ghost view = { λ n. tree_at n.arena.value n.index };

    ghost invariant = { λ n. IsNodeAt n.arena.value n.index };
}

impl FlatNode {
    /// Returns the last entry of `arena`, which is a node. Releases spare capacity.
    pub(crate) fn of_last(mut arena: Rc<Arena>) -> FlatNode
        requires sound { IsSound arena.value [] }
        requires last { IsLast (terms_at (items_in arena.value)) (Node (last_tree arena.value)) }
        ensures { result ≡ last_tree arena.value }
    {
        shrink(&mut arena);
        FlatNode {
            index: (arena.entries.len() - 1) as u32,
            arena,
        }
    }
}

/// Releases the spare capacity of an arena that has one owner.
fn shrink(arena: &mut Rc<Arena>)
    requires { IsSound arena.old.value [] }
    ensures sound { IsSound arena.new.value [] }
    ensures terms { terms_at (items_in arena.new.value) ≡ terms_at (items_in arena.old.value) }
{
    if let Some(inside) = Rc::get_mut(arena) {
        inside.shrink();
    }
}
