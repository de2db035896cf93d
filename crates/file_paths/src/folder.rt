//! Folders, and the names of files in them. Paths are absolute and have no empty part, no `.` and no
//! `..`; the root is the empty text.

ghost use Rattle.std.specs.Prelude.{◌≡◌, IfSome, IfNone};
ghost use Rattle.file_paths.specs.Folders.{IsIn, IsNamed};

/// Returns the name of the file at `path` in a folder, or `None` if it is not in that folder.
pub fn name_in<'a>(folder: &str, path: &'a str) -> Option<&'a str>
    ensures named { IfSome result (λ name. IsNamed folder.now path.now name.now) }
    ensures outside { IfNone result (IsIn folder.now path.now → ⊥) }
{
    match path.strip_prefix(folder) {
        Some(rest) => rest.strip_prefix("/"),
        None => None,
    }
}

/// Returns the folder around a folder; of the root this is the root.
fn around(folder: &str) -> &str {
    match folder.rsplit_once("/") {
        Some((front, _)) => front,
        None => "",
    }
}

/// Returns a folder that has the file at `path` in it: `folder`, or the first one around it that has it.
fn folder_of<'a>(folder: &'a str, path: &str) -> &'a str {
    let mut place = folder;
    for _turn in 0..folder.len() {
        if name_in(place, path).is_some() {
            return place;
        }
        place = around(place);
    }
    ""
}

/// Returns the innermost folder that has all files in it: `folder`, or one around it.
pub fn common_folder<'a>(folder: &'a str, paths: &[String]) -> &'a str {
    let mut place = folder;
    for path in paths {
        place = folder_of(place, path.as_str());
    }
    place
}
