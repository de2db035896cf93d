//! Ranges of text.
use super::hash_of;
use rowan_green::{TextRange, TextSize};

fn range(start: u32, end: u32) -> TextRange {
    let start = TextSize::new(start);
    TextRange::new(start, TextSize::from(end.max(u32::from(start))))
}

/// Returns start, end and length of `five`, and start and end of the smallest range that covers it
/// and offset 9.
fn ends(five: TextRange) -> [u32; 5] {
    let cover = five.cover(TextRange::empty(TextSize(9)));
    [
        five.start().0,
        five.end().0,
        five.len().0,
        cover.start().0,
        cover.end().0,
    ]
}

/// Returns the length of the intersection of `five` and another range, or 99 if there is none.
fn common_length(five: TextRange, start: u32, end: u32) -> u32 {
    match five.intersect(range(start, end)) {
        Some(common) => common.len().0,
        None => 99,
    }
}

/// Returns whether `five` contains offset 2, offset 5, the empty range at 5, and the range 4 to 6.
fn contains(five: TextRange) -> [bool; 4] {
    [
        five.contains(TextSize(2)),
        five.contains(TextSize(5)),
        five.contains_range(TextRange::empty(TextSize(5))),
        five.contains_range(range(4, 6)),
    ]
}

#[test]
fn ranges(rt: HostRuntime) {
    let five = range(2, 5);
    assert!(rt; ends(five) == [2, 5, 3, 2, 9]);
    assert!(rt; common_length(five, 4, 9) == 1);
    assert!(rt; common_length(five, 5, 9) == 0);
    assert!(rt; common_length(five, 6, 9) == 99);
    assert!(rt; contains(five) == [true, false, true, false]);
    assert!(rt; !five.is_empty());
}

#[test]
fn ranges_are_values(rt: HostRuntime) {
    let five = range(2, 5);
    let at = TextRange::at(TextSize(2), TextSize(3));
    assert!(rt; (five == at) & (hash_of(&five) == hash_of(&at)));
    assert!(rt; (usize::from(TextSize(7)) == 7) & (TextSize(1) < TextSize(2)));
}
