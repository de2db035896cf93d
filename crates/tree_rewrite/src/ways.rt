//! Up-paths: child indices from an element up to the root, innermost first; and ranges of siblings,
//! given by the up-path of the first and the number of further ones. A path is the list of the same
//! indices from the root down.
ghost use Rattle.std.specs.Prelude.{◌≡◌, reverse};
ghost use Rattle.syntax_tree.specs.Element.{same_way};
ghost use Rattle.tree_rewrite.specs.Change.{covers, is_within, is_between};

/// Returns `true` if `way` is the up-path of the element at `first` or of one of the `more`
/// siblings after it.
pub fn covers(first: &[usize], more: usize, way: &[usize]) -> bool
    ensures { result ≡ covers first.now more way.now }
{
    let Some((start, above)) = first.split_first() else {
        return way.is_empty();
    };
    let Some((index, up)) = way.split_first() else {
        return false;
    };
    above == up && *start <= *index && *index - *start <= more
}

/// Returns `true` if `way` is the up-path of an element of the range of siblings, or leads through
/// one.
pub fn is_within(first: &[usize], more: usize, way: &[usize]) -> bool
    ensures { result ≡ is_within first.now more way.now }
{
    let mut rest = way;
    loop {
        if covers(first, more, rest) {
            return true;
        }
        let Some((_, up)) = rest.split_first() else {
            return false;
        };
        rest = up;
    }
}

/// Returns `true` if `way` is the up-path of the element at `path`. Paths of other lengths are not
/// examined.
pub fn has_path(way: &[usize], path: &[usize]) -> bool
    ensures { result ≡ same_way way.now (reverse path.now) }
{
    if way.len() != path.len() {
        return false;
    }
    let mut below = way;
    let mut rest = path;
    while let Some((last, up)) = rest.split_last() {
        let Some((first, above)) = below.split_first() else {
            return false;
        };
        if *first != *last {
            return false;
        }
        below = above;
        rest = up;
    }
    below.is_empty()
}

/// Variant of `covers` for an element at `path`.
pub fn covers_path(first: &[usize], more: usize, path: &[usize]) -> bool
    ensures { result ≡ covers first.now more (reverse path.now) }
{
    let Some((start, above)) = first.split_first() else {
        return path.is_empty();
    };
    let Some((index, up)) = path.split_last() else {
        return false;
    };
    has_path(above, up) && *start <= *index && *index - *start <= more
}

/// Returns `true` if gap `index` of the node at up-path `parent` is between two elements of the
/// range of siblings.
pub fn is_between(first: &[usize], more: usize, parent: &[usize], index: usize) -> bool
    ensures { result ≡ is_between first.now more parent.now index }
{
    let Some((start, above)) = first.split_first() else {
        return false;
    };
    above == parent && *start < index && index - *start <= more
}
