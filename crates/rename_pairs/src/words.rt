//! Words that are pairs of names.

ghost use Rattle.std.specs.Prelude.{◌≡◌, ◌≤◌, false, MatchOption, length, map};
ghost use Rattle.rename_pairs.specs.Words.{IsPair, has_sign, leading_pairs};

use crate::pairs::NamePair;

/// Returns the pair that a word like `OLD=NEW` is: what is before its first `=`, and what is behind it;
/// `None` if it has no `=`.
pub fn pair_of(word: &str) -> Option<NamePair<'_>>
    ensures { MatchOption result (has_sign word.now ≡ false)
        (λ pair. IsPair word.now pair.old.now pair.new.now) }
{
    match word.split_once('=') {
        Some((old, new)) => Some(NamePair { old, new }),
        None => None,
    }
}

/// Returns the number of words, from the first on, that are pairs.
pub fn leading_pairs(words: &[&str]) -> usize
    ensures count { result ≡ leading_pairs (map (λ word. word.now) words.now) }
    ensures within { result ≤ length words.now }
{
    for (i, word) in words.iter().enumerate() {
        if pair_of(word).is_none() {
            return i;
        }
    }
    words.len()
}
