//! What is looked for along the bases of a kind.
ghost use Rattle.std.specs.Prelude.{◌≡◌, length, map};
ghost use Rattle.std.specs.Map.{keys_of};
ghost use Rattle.std.specs.Option.{option_copied};
ghost use Rattle.chan_values.specs.Folded.{folded};
ghost use Rattle.ordered_names.specs.Values.{behind};
ghost use Rattle.kind_tables.specs.Ascending.{earlier, least};
ghost use Rattle.kind_tables.specs.Rows as spec;

use crate::ancestry::Ancestry;
use chan_values::Text;

/// The number of a function: that of the first of these kinds whose own scripts have it.
pub(crate) fn function_along(mut kinds: Ancestry<'_>, name: &[u8]) -> Option<u32>
    ensures { result ≡ spec.number_along kinds.entry (folded name.now) }
{
    while let Some(kind) = kinds.next() {
        if let Some(number) = kind.functions.get(name) {
            return Some(*number);
        }
    }
    None
}

/// The function that a field calls at its change: that of the last of these kinds whose own fields have it.
pub(crate) fn handler_along<'a>(mut kinds: Ancestry<'a>, id: &[u8]) -> Option<&'a Option<Text>>
    ensures { option_copied result ≡ spec.handler_along kinds.entry (folded id.now) }
{
    let mut found = None;
    while let Some(kind) = kinds.next() {
        found = kind.handlers.get(id).or(found);
    }
    found
}

/// Whether the interface of one of these kinds has a function.
pub(crate) fn has_interface_along(mut kinds: Ancestry<'_>, name: &[u8]) -> bool
    ensures { result ≡ spec.interface_along kinds.entry (folded name.now) }
{
    while let Some(kind) = kinds.next() {
        if kind.interface.get(name).is_some() {
            return true;
        }
    }
    false
}

/// The earlier of two names, or the one that is there.
fn earlier<'a>(first: Option<&'a Text>, second: Option<&'a Text>) -> Option<&'a Text>
    ensures { option_copied result ≡ earlier (option_copied first.entry) (option_copied second.entry) }
{
    match (first, second) {
        (Some(first), Some(second)) => {
            if second.as_str().cmp(first.as_str()).is_lt() {
                Some(second)
            } else {
                Some(first)
            }
        }
        (None, second) => second,
        (first, None) => first,
    }
}

/// The first name behind a name, or of all, of the functions of these kinds' own scripts.
pub(crate) fn first_along<'a>(mut kinds: Ancestry<'a>, name: Option<&str>) -> Option<&'a Text>
    ensures { option_copied result ≡ least (behind (option_copied name.entry) (spec.names_along kinds.entry)) }
{
    let mut first = None;
    while let Some(kind) = kinds.next() {
        first = earlier(first, kind.functions.first_behind(name));
    }
    first
}
