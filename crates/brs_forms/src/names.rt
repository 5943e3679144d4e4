//! Names without regard to case.
ghost use Rattle.std.specs.Prelude.{◌≡◌, IfOk};
ghost use Rattle.chan_values.specs.Folded.{folded, folded_byte};
ghost use Rattle.brs_forms.specs.Words as spec;

use chan_values::NoMemory;
use sqlite_items::Items;
use std::alloc::{AllocError, Global};

fn folded_byte(b: u8) -> u8
    ensures { result ≡ folded_byte b }
{
    if b >= b'A' && b <= b'Z' { b + 32 } else { b }
}

/// The name with each ASCII capital letter as the small one.
///
/// Source: BrightScript Language Reference, "Identifiers": identifiers are not case sensitive.
pub fn folded_bytes(alloc: Global, name: &[u8]) -> Result<Items<u8>, NoMemory>
    ensures { IfOk result (λ x. x ≡ folded name.now) }
{
    match name.iter().map(|b| folded_byte(*b)).collect(alloc) {
        Ok(folded) => Ok(Items::from_vec(folded)),
        Err(AllocError) => Err(NoMemory),
    }
}

/// Whether a folded name is `m`, which reads as the `m` of the call and is no local. Takes no memory.
///
/// Source: BrightScript Language Reference, "m" of "Identifiers".
pub fn is_m(name: &[u8]) -> bool
    ensures { result ≡ spec.is_m name.now }
{
    match name {
        [b] => *b == b'm',
        _ => false,
    }
}
