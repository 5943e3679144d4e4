//! A plan more.
ghost use Rattle.std.specs.Prelude.{◌≡◌, [], ◌∷◌, ◌++◌, length, map, OnOk};
ghost use Rattle.field_plans.specs.Fields.{field_of, NameNoNodes};
ghost use Rattle.field_types.specs.Plans.{elements_of, AreElements, IsBase};
ghost use Rattle.kind_plans.specs.Children.{child_of};
ghost use Rattle.kind_plans.specs.Plans.{plan_of};

use crate::nodes::plan_nodes;
use chan_values::{NoMemory, Text};
use field_types::{ChildPlanList, FieldPlanList, KindPlan, PlanTable};

/// Adds the plan of a kind at the end.
pub(crate) fn push_plan(
    table: &mut PlanTable,
    kind: Text,
    base: Option<u32>,
    fields: FieldPlanList,
    children: ChildPlanList,
) -> Result<(), NoMemory>
    requires base { IsBase (length table.old) kind base }
    requires openings { NameNoNodes fields }
    requires elements { AreElements (length table.old) (elements_of children) }
    ensures { OnOk result (map plan_of table.new ≡ map plan_of table.old ++ record { kind = kind; base = base; fields = map field_of fields; children = map child_of children } ∷ []) }
{
    let nodes = plan_nodes(table, base, children.as_slice());
    table.push(KindPlan {
        kind,
        base,
        fields,
        children,
        nodes,
    })
}
