//! Paths below a root.
ghost use Rattle.std.specs.Prelude.{◌≡◌, ◌↔◌, [], ◌∷◌, IsTrue, IfOk, map};
ghost use Rattle.std.specs.Option.{option_copied};
ghost use Rattle.std.specs.Ordering.{nat_cmp};
ghost use Rattle.std.specs.Char.{to_ascii_lowercase};
ghost use Rattle.std.specs.Cmp.Lexicographic.{slice_cmp};
ghost use Rattle.outside.specs.Folder.{after_prefix, below_root, ends_in, is_shallow, is_read, if_read, whole_path};

use chan_values::{NoMemory, Text};
use std::alloc::Global;
use std::cmp::Ordering;

fn is_shallow(path: &str) -> bool
    ensures { result ≡ is_shallow path.now }
{
    path.bytes().filter(|byte| *byte == b'/').count() < 8
}

#[tactic(auto, using(crate::proofs::Endings::too_short))]
fn ends_in(path: &[u8], ending: &[u8]) -> bool
    requires { map to_ascii_lowercase ending.now ≡ ending.now }
    ensures { result ≡ ends_in ending.now path.now }
{
    match path.len().checked_sub(ending.len()) {
        Some(start) => path[start..].eq_ignore_ascii_case(ending),
        None => false,
    }
}

/// Whether a channel is read from this path below its folder: the path has at most eight parts and is `manifest`, lies below
/// `source` and ends in `.brs`, or lies below `components` and ends in `.brs` or `.xml`. The endings stand in any case.
pub fn is_read(path: &str) -> bool
    ensures { result ≡ is_read path.now }
{
    let bytes = path.as_bytes();
    is_shallow(path)
        && (path == "manifest"
            || (bytes.starts_with(b"source/") && ends_in(bytes, b".brs"))
            || (bytes.starts_with(b"components/")
                && (ends_in(bytes, b".brs") || ends_in(bytes, b".xml"))))
}

/// Whether a path comes before another by its bytes.
pub fn is_before(path: &str, other: &str) -> bool
    ensures { IsTrue result ↔ (slice_cmp nat_cmp path.now other.now ≡ Ordering.Less) }
{
    path.cmp(&other) == Ordering::Less
}

fn after_text<'a>(prefix: &str, path: &'a str) -> Option<&'a str>
    ensures { option_copied result ≡ after_prefix prefix.now path.now }
{
    path.strip_prefix(prefix)
}

fn after_slash(path: &str) -> Option<&str>
    ensures { option_copied result ≡ after_prefix (47 ∷ []) path.now }
{
    path.strip_prefix('/')
}

fn if_read(path: &str) -> Option<&str>
    ensures { option_copied result ≡ if_read path.now }
{
    if is_read(path) { Some(path) } else { None }
}

/// The path of a file below a root, where a channel is read from it.
#[tactic(auto, using(crate::proofs::Below::after_prefix_two))]
pub fn below_root<'a>(root: &str, path: &'a str) -> Option<&'a str>
    ensures { option_copied result ≡ below_root root.now path.now }
{
    match after_text(root, path) {
        None => None,
        Some(rest) => match after_slash(rest) {
            None => None,
            Some(rest) => if_read(rest),
        },
    }
}

/// The whole path of what is listed below a root: the root, `/` and the path.
pub fn whole_path(alloc: Global, root: &str, path: &str) -> Result<Text, NoMemory>
    ensures { IfOk result (λ whole. whole ≡ whole_path root.now path.now) }
{
    let mut whole = Text::new(alloc);
    whole.push_str(root)?;
    whole.push_str("/")?;
    whole.push_str(path)?;
    Ok(whole)
}
