//! What a manifest says of the edition of its files.

ghost use Rattle.std.specs.Prelude.{◌≡◌, option_map};
ghost use Rattle.toml.specs.View.{view};
ghost use Rattle.cargo_editions.specs.Manifests.{answer_in, answer_of, package_answer, package_data};

use parser_input::Edition;
use toml::Value;

/// What a manifest says of the edition of its files.
#[derive(Clone, Copy, Debug, Drop)]
pub enum Said<'a> {
    /// An edition.
    Edition(Edition),
    /// The edition is the workspace's.
    Workspace,
    /// The manifest has no package, and says nothing.
    Nothing,
    /// A text that is the name of no edition.
    Unknown(&'a str),
}

/// Returns what the table of a package says. A package that has no edition is of 2015.
fn said_by(table: &Value) -> Said<'_>
    ensures { answer_of result ≡ package_answer (view table.now) }
{
    let Some(value) = table.get("edition") else {
        return Said::Edition(Edition::Edition2015);
    };
    let Some(name) = value.as_str() else {
        return Said::Workspace;
    };
    match Edition::from_name(name) {
        Some(edition) => Said::Edition(edition),
        None => Said::Unknown(name),
    }
}

/// Returns the package of a manifest, or that of its workspace.
fn package_in(manifest: &Value, of_workspace: bool) -> Option<&Value>
    ensures { option_map (λ found. view found.now) result
        ≡ package_data of_workspace (view manifest.now) }
{
    if !of_workspace {
        return manifest.get("package");
    }
    match manifest.get("workspace") {
        Some(workspace) => workspace.get("package"),
        None => None,
    }
}

/// Returns what a manifest says of the edition of its package, or of those of its workspace.
pub fn said_in(manifest: &Value, of_workspace: bool) -> Said<'_>
    ensures { answer_of result ≡ answer_in of_workspace (view manifest.now) }
{
    match package_in(manifest, of_workspace) {
        Some(package) => said_by(package),
        None => Said::Nothing,
    }
}
