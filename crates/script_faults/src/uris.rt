//! The file that a uri names.
ghost use Rattle.std.specs.Prelude.{◌≡◌, codes, IfOk};
ghost use Rattle.folder_rules.specs.Scripts as spec;
ghost use Rattle.xml_pieces.specs.Runs.{option_now};
ghost use Rattle.xml_pieces.specs.Written.{strip};

use chan_values::{NoMemory, Text};
use std::alloc::Global;

/// The path behind `pkg:/`, where the uri begins so.
fn from_root(uri: &str) -> Option<&str>
    ensures { option_now result ≡ strip (codes "pkg:/") uri.now }
{
    uri.strip_prefix("pkg:/")
}

/// A path up to its last slash, empty where it has none.
fn folder_of(path: &str) -> &str
    ensures { result.now ≡ spec.folder_of path.now }
{
    match path.rfind('/') {
        Some(slash) => &path[..slash + 1],
        None => "",
    }
}

/// The path of the file that a uri names, below the channel's folder: the one behind `pkg:/`, or the uri in the folder of the component file whose
/// path is `path`. It is taken as written: `.` and `..` aren't resolved.
///
/// Source: SceneGraph XML Guide, "script", its attribute uri.
pub fn path_of_uri(alloc: Global, path: &str, uri: &str) -> Result<Text, NoMemory>
    ensures { IfOk result (λ file. file ≡ spec.path_of_uri path.now uri.now) }
{
    let mut file = Text::new(alloc);
    match from_root(uri) {
        Some(behind) => file.push_str(behind)?,
        None => {
            file.push_str(folder_of(path))?;
            file.push_str(uri)?;
        }
    }
    Ok(file)
}
