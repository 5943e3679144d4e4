//! The child elements of a component as plans.
ghost use Rattle.std.specs.Prelude.{◌≡◌, ℕ, ◌<◌, [], ◌∷◌, ◌++◌, List, map, IfOk, OnOk};
ghost use Rattle.field_types.specs.Elements.{element_of};
ghost use Rattle.field_types.specs.Plans.{elements_of, AreElements, IsElement};
ghost use Rattle.folder_rules.specs.Names.{HasPlaces};
ghost use Rattle.kind_plans.specs.Children.{child_of, planned_child, planned_children};
ghost use Rattle.kind_plans.specs.Places.{AreBelow};

use crate::places::kind_place;
use chan_values::{NoMemory, fold_name};
use component_files::ChildElement;
use field_faults::FieldTable;
use field_plans::attribute_values;
use field_types::{ChildPlan, ChildPlanList};
use folder_rules::NameTable;
use std::alloc::Global;

/// Adds a child element at the end.
fn push_child(plans: &mut ChildPlanList, plan: ChildPlan) -> Result<(), NoMemory>
    ensures { OnOk result (plans.new ≡ plans.old ++ plan ∷ []) }
{
    match plans.push(plan) {
        Ok(()) => Ok(()),
        Err(_) => Err(NoMemory),
    }
}

/// The plans of child elements, with those in them.
#[cycle(children)]
pub(crate) fn child_plans(
    alloc: Global,
    table: &FieldTable<'_>,
    places: &NameTable,
    elements: &[ChildElement],
) -> Result<ChildPlanList, NoMemory>
    requires { AreBelow 4294967296 places.now }
    ensures plans { IfOk result (λ plans. (names : List (List ℕ)) → HasPlaces places.now names → map child_of plans ≡ planned_children table.now names elements.now) }
    ensures below { IfOk result (λ plans. (limit : ℕ) → 0 < limit → AreBelow limit places.now → AreElements limit (elements_of plans)) }
{
    let mut plans = ChildPlanList::new(alloc);
    for element in elements {
        let plan = child_plan(alloc, table, places, element)?;
        push_child(&mut plans, plan)?;
    }
    Ok(plans)
}

#[cycle(children)]
fn child_plan(
    alloc: Global,
    table: &FieldTable<'_>,
    places: &NameTable,
    element: &ChildElement,
) -> Result<ChildPlan, NoMemory>
    requires { AreBelow 4294967296 places.now }
    ensures plan { IfOk result (λ plan. (names : List (List ℕ)) → HasPlaces places.now names → child_of plan ≡ planned_child table.now names element.now) }
    ensures below { IfOk result (λ plan. (limit : ℕ) → 0 < limit → AreBelow limit places.now → IsElement limit (element_of plan)) }
{
    let kind = fold_name(alloc, element.kind.as_str().as_bytes())?;
    let values = attribute_values(alloc, table, kind.as_str(), element.attributes.as_slice())?;
    let children = child_plans(alloc, table, places, element.children.as_slice())?;
    Ok(ChildPlan {
        place: kind_place(places, kind.as_str()),
        values,
        children,
    })
}
