//! Names of fields, folded.
ghost use Rattle.std.specs.Prelude.{◌≡◌, ◌≤◌, length, take, OnOk, OnErr, IfOk};
ghost use Rattle.chan_values.specs.Folded.{folded, folded_byte};

use chan_values::NoMemory;
use std::alloc::Global;

fn fold_byte(byte: u8) -> u8
    ensures { result ≡ folded_byte byte }
{
    match byte {
        b'A'..=b'Z' => byte + 32,
        _ => byte,
    }
}

/// The name with each ASCII capital letter as the small one.
pub fn folded_name(alloc: Global, field: &[u8]) -> Result<Vec<u8>, NoMemory>
    ensures { IfOk result (λ name. name.items ≡ folded field.now) }
{
    let name: Result<Vec<u8>, _> = field.iter().map(|byte| fold_byte(*byte)).collect(alloc);
    match name {
        Ok(name) => Ok(name),
        Err(_) => Err(NoMemory),
    }
}

/// Writes the folded name into the front of a room that is long enough, and leaves what is behind it.
pub fn fold_into(field: &[u8], room: &mut Vec<u8>)
    requires { length field.now ≤ length room.old.items }
    ensures front { take (length field.now) room.new.items ≡ folded field.now }
    ensures same { length room.new.items ≡ length room.old.items }
{
    for (at, byte) in field.iter().enumerate() {
        room[at] = fold_byte(*byte);
    }
}
