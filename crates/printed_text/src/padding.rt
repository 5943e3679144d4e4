//! Zones of 16 characters.
ghost use Rattle.std.specs.Prelude.{◌≡◌, OnOk};
ghost use Rattle.plain_operations.specs.Texts.{character_count};
ghost use Rattle.brs_meaning.specs.Printing.{padded};

use chan_values::{NoMemory, Text};

/// How many characters a zone has.
const ZONE: usize = 16;

#[tactic(auto, using(crate::proofs::Characters::chars_from_encodes))]
pub fn count_characters(s: &str) -> usize
    ensures { result ≡ character_count s.now }
{
    s.chars().count()
}

/// Adds spaces up to the begin of the next zone, of which there is at least one.
pub fn pad(out: &mut Text) -> Result<(), NoMemory>
    ensures { OnOk result (out.new ≡ padded out.old) }
{
    let used = count_characters(out.as_str()) % ZONE;
    for _i in used..ZONE {
        out.push(' ')?;
    }
    Ok(())
}
