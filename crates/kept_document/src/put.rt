//! Buffers of a caller.
ghost use Rattle.std.specs.Prelude.{◌≡◌, length};
ghost use Rattle.kept_document.specs.Buffers.{ArePut, IsPut};

/// Writes items to the front of a buffer that holds them, and their count. A shorter buffer is
/// unchanged, and the code is 1.
pub fn put<T: Copy>(items: &[T], out: &mut [T], written: &mut usize) -> u32
    ensures { IsPut items.now result out.old out.new written.new }
{
    *written = items.len();
    if items.len() > out.len() {
        return 1;
    }
    out[..items.len()].copy_from_slice(items);
    0
}

/// Writes items to the fronts of two buffers that hold them. If one is shorter, both are unchanged,
/// and the code is 1.
pub fn put_both<T: Copy, U: Copy>(items: &[T], out: &mut [T], more: &[U], more_out: &mut [U]) -> u32
    ensures { ArePut items.now more.now result out.old out.new more_out.old more_out.new }
{
    if items.len() > out.len() || more.len() > more_out.len() {
        return 1;
    }
    out[..items.len()].copy_from_slice(items);
    more_out[..more.len()].copy_from_slice(more);
    0
}
