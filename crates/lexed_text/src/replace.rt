//! Replaces items of a vector in place.

ghost use Rattle.std.specs.Prelude.{◌≡◌, ◌≤◌, length, OnOk, OnErr};
ghost use Rattle.std.specs.List.{remove_range, splice};

use std::alloc::AllocError;

/// Removes the items from `start` up to `end`.
fn remove<T: Copy>(items: &mut Vec<T>, start: usize, end: usize)
    requires in_order { start ≤ end }
    requires within { end ≤ length items.old.items }
    ensures { items.new.items ≡ remove_range items.old.items start end }
{
    let left = items.len() - (end - start);
    items[start..].rotate_left(end - start);
    items.truncate(left);
}

/// Replaces the items from `start` up to `end` with `new`. Allocates only if the vector grows past
/// its capacity.
///
/// # Errors
///
/// [`AllocError`] if an allocation fails. On error, `items` is unchanged.
pub(crate) fn replace<T: Copy>(
    items: &mut Vec<T>,
    start: usize,
    end: usize,
    new: &[T],
) -> Result<(), AllocError>
    requires in_order { start ≤ end }
    requires within { end ≤ length items.old.items }
    ensures replaced { OnOk result (items.new.items ≡ splice items.old.items start end new.now) }
    ensures unchanged { OnErr result (items.new.items ≡ items.old.items) }
{
    let old = end - start;
    if new.len() <= old {
        let next = start + new.len();
        remove(items, next, end);
        items[start..next].copy_from_slice(new);
        return Ok(());
    }
    let (over, more) = new.split_at(old);
    items.extend_from_slice(more)?;
    items[end..].rotate_right(more.len());
    items[start..end].copy_from_slice(over);
    Ok(())
}
