//! What a command came to.

ghost use Rattle.std.specs.Prelude.{◌≡◌, ◌==◌, if◌then◌else◌};
ghost use Rattle.command_report.specs.Outcomes.{rename_outcome, search_outcome, status_of, worse};

/// What a command came to. Of several, the last in this list counts.
#[derive(Clone, Copy, Debug, PartialEq, Eq, Drop)]
pub enum Outcome {
    /// All is done, and there is nothing to find.
    Done,
    /// Something is found, as a message or a file that would change; or there is nothing to do.
    Found,
    /// Something is not done: a file is left out, or the command stopped.
    Fault,
}

impl Outcome {
    /// Returns the status that the process ends with.
    pub fn status(self) -> u8
        ensures { result ≡ status_of self }
    {
        match self {
            Outcome::Done => 0,
            Outcome::Found => 1,
            Outcome::Fault => 2,
        }
    }

    /// Returns the outcome of doing both.
    pub fn and(self, other: Outcome) -> Outcome
        ensures { result ≡ worse self other }
    {
        match (self, other) {
            (Outcome::Fault, _) | (_, Outcome::Fault) => Outcome::Fault,
            (Outcome::Found, _) | (_, Outcome::Found) => Outcome::Found,
            (Outcome::Done, Outcome::Done) => Outcome::Done,
        }
    }
}

/// Returns what a search came to that found `count` matches. Without a match its status is 1, as `grep`'s.
pub fn search_outcome(count: usize, has_faults: bool) -> Outcome
    ensures { result ≡ search_outcome count has_faults }
{
    match (has_faults, count) {
        (true, _) => Outcome::Fault,
        (false, 0) => Outcome::Found,
        (false, _) => Outcome::Done,
    }
}

/// How much a renaming changes and leaves.
#[derive(Clone, Copy, Debug, PartialEq, Eq, Drop)]
pub struct RenameCounts {
    /// The identifiers that change.
    pub names: usize,
    /// The files that change.
    pub files: usize,
    /// The places that still spell the old name.
    pub left: usize,
}

impl RenameCounts {
    /// Returns what a renaming came to that no file refuses. With `--check` it is `Found` if a file
    /// would change or a place would still spell the name, else if no file changes.
    pub fn outcome(self, is_check: bool) -> Outcome
        ensures { result ≡ rename_outcome is_check self }
    {
        let is_changed = self.files != 0;
        let is_found = if is_check {
            is_changed || self.left != 0
        } else {
            !is_changed
        };
        if is_found {
            Outcome::Found
        } else {
            Outcome::Done
        }
    }
}
