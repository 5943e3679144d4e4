//! The order of a channel's components.
ghost use Rattle.std.specs.Prelude.{◌≡◌, length, IfOk};
ghost use Rattle.folder_rules.specs.Kinds.{kind_names};
ghost use Rattle.folder_rules.specs.Names.{HasPlaces};
ghost use Rattle.kind_order.specs.GoodOrder.{HasNoCycle, IsGoodOrder};
ghost use Rattle.kind_order.specs.Graph.{named_in, IsWithoutCycle};
ghost use Rattle.kind_order.specs.Order as spec;

use crate::lists::unmarked;
use crate::named::{NamedComponents, named_rows};
use crate::walk::walk;
use chan_values::NoMemory;
use folder_rules::{NameTable, PathedComponent};
use std::alloc::Global;

fn order_of(alloc: Global, rows: &[NamedComponents]) -> Result<Vec<usize>, NoMemory>
    requires { IsWithoutCycle (length rows.now) (named_in rows.now) }
    ensures { IfOk result (λ order. order.items ≡ spec.order_of_first (length rows.now) (named_in rows.now) (length rows.now)) }
{
    let mut marks = unmarked(alloc, rows.len())?;
    let mut order = Vec::new(alloc);
    for place in 0..rows.len() {
        walk(alloc, rows, place, &mut marks, &mut order)?;
    }
    Ok(order)
}

/// The places of the components, counted from 0, each once, behind its base and the kinds of its child elements: depth first, the base first, then
/// the kinds of the child elements in the order in which they begin, inner ones included. `names` is the table that `kind_table` gives. The time
/// grows with the number of components and of the kinds that they name, but for the look-ups of names. No chain of bases is too long.
///
/// Source: SceneGraph XML Guide, "component", its attribute extends, and "children".
pub fn kind_order(
    alloc: Global,
    names: &NameTable,
    components: &[PathedComponent],
) -> Result<Vec<usize>, NoMemory>
    requires places { HasPlaces names.now (kind_names components.now) }
    requires cycles { HasNoCycle components.now }
    ensures order { IfOk result (λ order. order.items ≡ spec.kind_order components.now) }
    ensures good { IfOk result (λ order. IsGoodOrder components.now order.items) }
{
    let rows = named_rows(alloc, names, components)?;
    order_of(alloc, rows.as_slice())
}
