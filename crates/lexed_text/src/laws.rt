//! Laws of the token counts, each the contract of a function that makes no call.

ghost use Rattle.lexed_text.specs.Laws.{FrontStays, BackStays, CountsSum, CountsAreOne};

/// States that the front tokens are the first tokens of the new text.
pub fn front_stays()
    ensures { FrontStays }
{}

/// States that the back tokens are the last tokens of the new text.
pub fn back_stays()
    ensures { BackStays }
{}

/// States that the counts sum to the number of tokens of the new text.
pub fn counts_sum()
    ensures { CountsSum }
{}

/// States that the counts of an edit are unique.
pub fn counts_are_one()
    ensures { CountsAreOne }
{}
