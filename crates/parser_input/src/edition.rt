//! The editions of Rust.

ghost use Rattle.std.specs.Prelude.{◌≡◌};
ghost use Rattle.parser_input.specs.Edition.{edition_named, is_from};

/// An edition of Rust. A later edition is greater.
#[derive(Clone, Copy, PartialEq, Eq, PartialOrd, Ord, Hash, Debug)]
pub enum Edition {
    Edition2015,
    Edition2018,
    Edition2021,
    Edition2024,
    /// The next edition.
    EditionNext,
}

impl Edition {
    /// Returns the edition with this name: a year, or `next`; `None` if there is none.
    pub fn from_name(name: &str) -> Option<Edition>
        ensures { result ≡ edition_named name.now }
    {
        match name {
            "2015" => Some(Edition::Edition2015),
            "2018" => Some(Edition::Edition2018),
            "2021" => Some(Edition::Edition2021),
            "2024" => Some(Edition::Edition2024),
            "next" => Some(Edition::EditionNext),
            _ => None,
        }
    }

    /// Returns `true` if this is the edition `first` or a later one.
    pub(crate) fn is_from(self, first: Edition) -> bool
        ensures { result ≡ is_from first self }
    {
        self >= first
    }
}
