//! Pairs of names that are renamed together.

ghost use Rattle.std.specs.Prelude.{◌≡◌, ◌<◌, length};
ghost use Rattle.rename_pairs.specs.Pairs.{has_old, is_wrong};
ghost use Rattle.rename_pairs.specs.declared.pairs.NamePair.{NamePair};

/// The old name and the new name of a renaming.
#[derive(Clone, Copy, Debug, PartialEq, Eq, Drop)]
pub struct NamePair<'a> {
    pub old: &'a str,
    pub new: &'a str,
}

/// Returns `true` if `name` is the old name of a pair.
fn has_old(name: &str, pairs: &[NamePair<'_>]) -> bool
    ensures { result ≡ has_old name.now pairs.now }
{
    for pair in pairs {
        if pair.old == name {
            return true;
        }
    }
    false
}

/// Returns `true` if a pair cannot be renamed together with the others, all at once: its old name is
/// empty or that of a pair before it, or its new name is an old one, its own or that of another pair.
pub fn is_wrong(pairs: &[NamePair<'_>], index: usize) -> bool
    requires { index < length pairs.now }
    ensures { (d : NamePair) → result ≡ is_wrong pairs.now index d }
{
    let pair = &pairs[index];
    pair.old.is_empty() || has_old(pair.new, pairs) || has_old(pair.old, &pairs[..index])
}
