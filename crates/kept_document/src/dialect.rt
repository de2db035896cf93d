//! Editions and grammars by number.
ghost use Rattle.std.specs.Prelude.{◌≡◌};
ghost use Rattle.kept_document.specs.Dialect.{edition_of, grammar_of};

use rust_document::{Edition, Grammar};

/// Returns the edition of a number, if there is one: a year, or 0 for the next edition.
pub fn edition_of(number: u32) -> Option<Edition>
    ensures { result ≡ edition_of number }
{
    match number {
        2015 => Some(Edition::Edition2015),
        2018 => Some(Edition::Edition2018),
        2021 => Some(Edition::Edition2021),
        2024 => Some(Edition::Edition2024),
        0 => Some(Edition::EditionNext),
        _ => None,
    }
}

/// Returns the grammar of a number, if there is one: 0 for the profile, 1 for the whole language.
pub fn grammar_of(number: u32) -> Option<Grammar>
    ensures { result ≡ grammar_of number }
{
    match number {
        0 => Some(Grammar::Profile),
        1 => Some(Grammar::Whole),
        _ => None,
    }
}
