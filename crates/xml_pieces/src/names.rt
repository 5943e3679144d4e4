//! Names that no two attributes of a tag may share.
ghost use Rattle.std.specs.Prelude.{◌≡◌, IfOk};
ghost use Rattle.xml_pieces.specs.Written as spec;

use crate::name_set::NameSet;
use crate::piece::AttributeText;
use chan_values::{NoMemory, copy_text};
use std::alloc::Global;

/// Whether no two attributes have one name. A tag may have many, so each name is looked for among those behind it in a set.
pub(crate) fn are_distinct(alloc: Global, attributes: &[AttributeText]) -> Result<bool, NoMemory>
    ensures { IfOk result (λ distinct. distinct ≡ spec.are_distinct attributes.now) }
{
    let mut behind = NameSet::new(alloc);
    let mut rest = attributes;
    while let [front @ .., last] = rest {
        let name = copy_text(alloc, &last.name)?;
        if !behind.add(name)? {
            return Ok(false);
        }
        rest = front;
    }
    Ok(true)
}
