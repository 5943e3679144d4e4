//! The places of kinds.
ghost use Rattle.std.specs.Prelude.{◌≡◌};
ghost use Rattle.folder_rules.specs.Names.{number_in};
ghost use Rattle.kind_plans.specs.Places.{place_or_node, AreBelow};

use folder_rules::NameTable;

/// The place of a kind that stands folded, that of the kind Node where it isn't there.
pub(crate) fn kind_place(places: &NameTable, kind: &str) -> u32
    requires { AreBelow 4294967296 places.now }
    ensures { result ≡ place_or_node (number_in places.now kind.now) }
{
    match places.get(kind) {
        Some(place) => place as u32,
        None => 0,
    }
}
