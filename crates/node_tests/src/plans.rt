//! Plans to test with, put together at run time.
ghost use Rattle.std.specs.Prelude.{◌≡◌, [], List, IsTrue, IfOk, OnOk};
ghost use Rattle.std.specs.List.{AllByRecursion};
ghost use Rattle.chan_values.specs.View.{tree_of};
ghost use Rattle.field_types.specs.NamedNodes.{nodes_in};
ghost use Rattle.field_types.specs.Plans.{IsBase, NameNoNode, base_nodes};
ghost use Rattle.field_types.specs.declared.plans.KindPlan.{KindPlan as Plan};
ghost use Rattle.node_tests.specs.Fits.{Fits};

use chan_values::{NoMemory, Portable, Text};
use field_types::{
    AttributeList, AttributeValue, ChildPlan, ChildPlanList, FieldPlan, FieldPlanList, FieldType,
    KindPlan, PlanTable, read_attribute,
};
use std::alloc::Global;
use std::test::Fail;

const TOO_MANY: u32 = 1_048_577;

/// Child elements, and how many nodes they make.
#[derive(Drop)]
pub struct Children {
    pub list: ChildPlanList,
    pub nodes: u32,
}

pub fn text_of(alloc: Global, t: &str) -> Result<Text, NoMemory>
    ensures { IfOk result (λ text. text ≡ t.now) }
{
    let mut text = Text::new(alloc);
    text.push_str(t)?;
    Ok(text)
}

/// Whether a value surely names no node.
fn is_plain(p: &Portable) -> bool
    ensures { IsTrue result → nodes_in (tree_of p.now) ≡ [] }
{
    match p {
        Portable::Nothing => true,
        Portable::Truth(_) => true,
        Portable::Small(_) => true,
        Portable::Big(_) => true,
        Portable::Words(_) => true,
        _ => false,
    }
}

/// The value that an attribute text gives a field, where that is no list.
fn value_of(alloc: Global, t: FieldType, text: &str) -> Result<Portable, Fail>
    ensures { IfOk result (λ p. nodes_in (tree_of p) ≡ []) }
{
    match read_attribute(alloc, t, text.as_bytes()) {
        Ok(value) => {
            if is_plain(&value) {
                Ok(value)
            } else {
                Err("a list")?
            }
        }
        Err(_) => Err("no value")?,
    }
}

/// Adds a field of a kind's own, whose opening value is that of an attribute text.
pub fn add_own(
    alloc: Global,
    fields: &mut FieldPlanList,
    id: &str,
    kind: FieldType,
    always: bool,
    text: &str,
) -> Result<(), Fail>
    requires { AllByRecursion (λ f. nodes_in (tree_of f.opening) ≡ []) fields.old }
    ensures { OnOk result (AllByRecursion (λ f. nodes_in (tree_of f.opening) ≡ []) fields.new) }
{
    let field = FieldPlan {
        id: text_of(alloc, id)?,
        kind,
        always,
        opening: value_of(alloc, kind, text)?,
    };
    fields.push(field)?;
    Ok(())
}

/// Adds what an attribute says.
pub fn add_value(
    alloc: Global,
    values: &mut AttributeList,
    field: &str,
    kind: FieldType,
    text: &str,
) -> Result<(), Fail>
    requires { NameNoNode values.old }
    ensures { OnOk result (NameNoNode values.new) }
{
    let value = AttributeValue {
        field: text_of(alloc, field)?,
        value: value_of(alloc, kind, text)?,
    };
    values.push(value)?;
    Ok(())
}

pub fn no_children(alloc: Global) -> Children
    ensures { (plans : List Plan) → Fits plans result.list result.nodes }
{
    Children {
        list: ChildPlanList::new(alloc),
        nodes: 0,
    }
}

/// Adds a child element of the kind at a place, with attributes and with child elements in it.
pub fn add_child(
    plans: &PlanTable,
    children: &mut Children,
    place: u32,
    values: AttributeList,
    inner: Children,
) -> Result<(), Fail>
    requires values { NameNoNode values }
    requires inner { Fits plans.now inner.list inner.nodes }
    requires children { Fits plans.now children.old.list children.old.nodes }
    ensures { OnOk result (Fits plans.now children.new.list children.new.nodes) }
{
    let Some(plan) = plans.get(place as usize) else {
        return Err("no such kind")?;
    };
    let Some(nodes) = inner.nodes.checked_add(plan.nodes) else {
        return Err("too many")?;
    };
    let Some(all) = children.nodes.checked_add(nodes) else {
        return Err("too many")?;
    };
    let child = ChildPlan {
        place,
        values,
        children: inner.list,
    };
    children.list.push(child)?;
    children.nodes = all;
    Ok(())
}

/// Whether a kind may stand at a place with such a base.
fn is_base(at: usize, kind: &str, base: Option<u32>) -> bool
    ensures { IsTrue result → IsBase at kind.now base }
{
    match base {
        None => at == 0 && kind.as_bytes() == b"Node".as_slice(),
        Some(base) => (base as usize) < at,
    }
}

fn base_count(plans: &PlanTable, base: Option<u32>) -> u32
    ensures { result ≡ base_nodes plans.now base }
{
    match base {
        None => 1,
        Some(base) => match plans.get(base as usize) {
            None => 0,
            Some(plan) => plan.nodes,
        },
    }
}

/// Adds a kind.
pub fn add_kind(
    alloc: Global,
    plans: &mut PlanTable,
    kind: &str,
    base: Option<u32>,
    fields: FieldPlanList,
    children: Children,
) -> Result<(), Fail>
    requires fields { AllByRecursion (λ f. nodes_in (tree_of f.opening) ≡ []) fields }
    requires children { Fits plans.old children.list children.nodes }
{
    if !is_base(plans.len(), kind, base) {
        return Err("no base")?;
    }
    let Some(nodes) = base_count(plans, base).checked_add(children.nodes) else {
        return Err("too many")?;
    };
    plans.push(KindPlan {
        kind: text_of(alloc, kind)?,
        base,
        fields,
        children: children.list,
        nodes: nodes.min(TOO_MANY),
    })?;
    Ok(())
}
