//! What a pattern is read as.

/// What a pattern is read as.
#[derive(Clone, Copy, Debug, PartialEq, Eq)]
pub enum Fragment {
    Expression,
    Type,
    Pattern,
    Statement,
    Item,
}

/// The fragments, in the order in which they are tried.
pub const FRAGMENTS: [Fragment; 5] = [
    Fragment::Expression,
    Fragment::Type,
    Fragment::Pattern,
    Fragment::Statement,
    Fragment::Item,
];

impl Fragment {
    /// Returns its name.
    pub fn name(self) -> &'static str {
        match self {
            Fragment::Expression => "expression",
            Fragment::Type => "type",
            Fragment::Pattern => "pattern",
            Fragment::Statement => "statement",
            Fragment::Item => "item",
        }
    }

    /// Returns the fragment with a name.
    pub fn from_name(name: &str) -> Option<Fragment> {
        for fragment in FRAGMENTS {
            if fragment.name() == name {
                return Some(fragment);
            }
        }
        None
    }
}
