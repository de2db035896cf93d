//! The bytes in which two texts differ.

ghost use Rattle.std.specs.Prelude.{◌≡◌, ◌≤◌, ◌-◌, length, take, drop, IsCharBoundary};
ghost use Rattle.text_changes.specs.Differences.{IsDifference};

/// The bytes in which two texts differ: from `start` to `old_end` in the old text, to `new_end` in the new one.
#[derive(Clone, Copy, Debug, PartialEq, Eq, Drop)]
pub struct Difference {
    /// Where the texts first differ.
    pub start: usize,
    /// Where the rest of the old text begins, which is that of the new one.
    pub old_end: usize,
    /// Where the rest of the new text begins.
    pub new_end: usize,
}

/// Returns the length of the longest common front of two texts.
fn common_front(old: &[u8], new: &[u8]) -> usize
    ensures old { result ≤ length old.now }
    ensures new { result ≤ length new.now }
    ensures same { take result old.now ≡ take result new.now }
{
    let most = old.len().min(new.len());
    let mut len = 0;
    while len < most && old[len] == new[len] {
        len += 1;
    }
    len
}

/// Returns the length of the longest common back of two texts that has at most `most` bytes.
fn common_back(old: &[u8], new: &[u8], most: usize) -> usize
    requires old { most ≤ length old.now }
    requires new { most ≤ length new.now }
    ensures bound { result ≤ most }
    ensures same { drop (length old.now - result) old.now ≡ drop (length new.now - result) new.now }
{
    let mut len = 0;
    while len < most && old[old.len() - 1 - len] == new[new.len() - 1 - len] {
        len += 1;
    }
    len
}

/// Returns the length of the longest common front that cuts no character of either text.
fn front_of(old: &str, new: &str) -> usize
    ensures same { take result old.now ≡ take result new.now }
    ensures cuts_old { IsCharBoundary old.now result }
    ensures cuts_new { IsCharBoundary new.now result }
{
    let front = common_front(old.as_bytes(), new.as_bytes());
    new.floor_char_boundary(old.floor_char_boundary(front))
}

/// Returns where `new` differs from `old`: the shortest ranges that cut no character, from the first difference on.
pub fn replaced_range(old: &str, new: &str) -> Difference
    ensures { IsDifference old.now new.now result.start result.old_end result.new_end }
{
    let start = front_of(old, new);
    let most = old.len().min(new.len()) - start;
    let back = common_back(old.as_bytes(), new.as_bytes(), most);
    let kept = old.len() - old.ceil_char_boundary(old.len() - back);
    let new_end = new.ceil_char_boundary(new.len() - kept);
    Difference {
        start,
        old_end: old.len() - (new.len() - new_end),
        new_end,
    }
}
