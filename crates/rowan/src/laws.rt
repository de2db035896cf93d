//! Laws of the definitions. Each is the contract of a function with an empty body.
ghost use Rattle.rowan.specs.Laws.{TextsAreSlices, WalksAreWords, TokensStandInOrder};

/// States that the text at a place is a slice of the root's text: the bytes from the start of the
/// place to its end.
pub fn texts_are_slices()
    ensures { TextsAreSlices }
{}

/// States that the walk through an element, without its places, is the word of the calls that build
/// the element.
pub fn walks_are_words()
    ensures { WalksAreWords }
{}

/// States that the tokens of a tree are those before one of them, that token, and those after it.
pub fn tokens_stand_in_order()
    ensures { TokensStandInOrder }
{}
