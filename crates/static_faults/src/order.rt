//! Which of two faults stands first.
ghost use Rattle.std.specs.Prelude.{◌≡◌};
ghost use Rattle.static_faults.specs.First as spec;

use crate::fault::StaticFault;

fn is_before(a: StaticFault, b: StaticFault) -> bool
    ensures { result ≡ spec.is_before a b }
{
    if a.line == b.line {
        a.column < b.column
    } else {
        a.line < b.line
    }
}

/// The one that stands first, and the first of the two where both stand at one place.
pub(crate) fn earlier(a: Option<StaticFault>, b: Option<StaticFault>) -> Option<StaticFault>
    ensures { result ≡ spec.earlier a b }
{
    match (a, b) {
        (None, b) => b,
        (Some(a), None) => Some(a),
        (Some(a), Some(b)) => { if is_before(b, a) { Some(b) } else { Some(a) } }
    }
}
