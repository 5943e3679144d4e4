//! How many nodes one making makes.
ghost use Rattle.std.specs.Prelude.{◌≡◌, ◌+◌, ◌≤◌, min, slice_get};
ghost use Rattle.field_types.specs.Elements.{element_of};
ghost use Rattle.field_types.specs.Plans as spec;
ghost use Rattle.field_types.specs.Plans.{element_nodes, elements_nodes, elements_of, too_many};

use field_types::{ChildPlan, PlanTable};

/// The most nodes that there may be, and one more.
const TOO_MANY: u32 = 1_048_577;

/// The sum of two numbers of nodes.
fn capped(a: u32, b: u32) -> u32
    ensures { result ≡ min too_many (a + b) }
{
    a.saturating_add(b).min(TOO_MANY)
}

/// How many nodes a making of the kind at a place makes, 0 where there is no such kind.
fn made_by(table: &PlanTable, place: u32) -> u32
    ensures { result ≡ spec.made_by (slice_get table.now place) }
{
    match table.get(place as usize) {
        Some(plan) => plan.nodes,
        None => 0,
    }
}

/// So many nodes, and those that child elements make.
#[cycle(nodes)]
fn with_children(table: &PlanTable, children: &[ChildPlan], so_far: u32) -> u32
    requires { so_far ≤ too_many }
    ensures { result ≡ min too_many (so_far + elements_nodes table.now (elements_of children.now)) }
{
    let mut nodes = so_far;
    for child in children {
        nodes = with_child(table, child, nodes);
    }
    nodes
}

#[cycle(nodes)]
fn with_child(table: &PlanTable, child: &ChildPlan, so_far: u32) -> u32
    ensures { result ≡ min too_many (so_far + element_nodes table.now (element_of child.now)) }
{
    let with_own = capped(so_far, made_by(table, child.place));
    with_children(table, child.children.as_slice(), with_own)
}

/// The node itself, with the nodes below it that its base makes.
fn base_nodes(table: &PlanTable, base: Option<u32>) -> u32
    ensures { result ≡ spec.base_nodes table.now base }
{
    match base {
        Some(place) => made_by(table, place),
        None => 1,
    }
}

/// How many nodes one making of a kind makes that stands behind these.
pub(crate) fn plan_nodes(table: &PlanTable, base: Option<u32>, children: &[ChildPlan]) -> u32
    ensures { result ≡ min too_many (spec.base_nodes table.now base + elements_nodes table.now (elements_of children.now)) }
{
    let so_far = capped(0, base_nodes(table, base));
    with_children(table, children, so_far)
}
