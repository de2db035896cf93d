//! Clones of elements.
ghost use Rattle.std.specs.Prelude.{◌≡◌, ◌≤◌, ◌++◌, length, drop, take, IfOk, OnOk};

use crate::element::GreenElement;
use crate::element_list::ElementList;
use std::alloc::{AllocError, Global};

/// Returns clones of `elements`.
pub(crate) fn clones(
    alloc: Global,
    elements: &[GreenElement],
) -> Result<Vec<GreenElement>, AllocError>
    ensures { IfOk result (λ v. v.items ≡ elements.now) }
{
    let mut all = Vec::with_capacity(alloc, elements.len())?;
    for element in elements {
        all.push(element.clone()?)?;
    }
    Ok(all)
}

/// Appends clones of the elements of `from` from index `start` to before `end`.
pub(crate) fn push_clones(
    to: &mut Vec<GreenElement>,
    from: &ElementList,
    start: usize,
    end: usize,
) -> Result<(), AllocError>
    requires ordered { start ≤ end }
    requires in_bounds { end ≤ length from.now.0 }
    ensures { OnOk result (to.new.items ≡ to.old.items ++ drop start (take end from.now.0)) }
{
    for index in start..end {
        to.push(from.at(index).to_owned()?)?;
    }
    Ok(())
}
