//! New nodes, and the fields that they begin with.
ghost use Rattle.std.specs.Prelude.{◌≡◌, [], ◌++◌, length, map, reverse, slice_get, Some, IfOk, OnOk};
ghost use Rattle.chan_values.specs.View.{tree_of};
ghost use Rattle.field_types.specs.Plans.{IsPlanTable};
ghost use Rattle.node_tree.specs.Fields.{with_value};
ghost use Rattle.node_tree.specs.Making.{opening_field, base_in, kind_in, own_fields, lineage, kind_fields, with_attributes, made_node};

use crate::children::ChildList;
use crate::field::Field;
use crate::field_list::FieldList;
use crate::held::Held;
use crate::node::Node;
use chan_values::{NoMemory, Text, copy_portable, copy_text, fold_name};
use field_types::{AttributeValue, FieldPlan, KindPlan, PlanTable};
use std::alloc::Global;

/// A field as a new node has it.
fn opening_field(alloc: Global, plan: &FieldPlan) -> Result<Field, NoMemory>
    ensures { IfOk result (λ f. f ≡ opening_field plan.now) }
{
    Ok(Field {
        id: fold_name(alloc, plan.id.as_str().as_bytes())?,
        kind: plan.kind,
        always: plan.always,
        value: Held::new(copy_portable(alloc, &plan.opening)?),
        opening: Held::new(copy_portable(alloc, &plan.opening)?),
    })
}

/// Adds the fields of a kind's own. After an `Err` some may be there.
fn push_own(alloc: Global, fields: &mut FieldList, plan: &KindPlan) -> Result<(), NoMemory>
    ensures { OnOk result (fields.new ≡ fields.old ++ map opening_field plan.now.fields) }
{
    for field in plan.fields.as_slice() {
        fields.push(opening_field(alloc, field)?)?;
    }
    Ok(())
}

/// The places of a kind and of the kinds that it extends, the kind first.
fn lineage(alloc: Global, plans: &PlanTable, place: u32) -> Result<Vec<u32>, NoMemory>
    ensures { IfOk result (λ v. reverse v.items ≡ lineage (length plans.now) plans.now (Some place)) }
{
    let mut places = Vec::new(alloc);
    let mut next = Some(place);
    for _ in 0..plans.len() {
        let Some(here) = next else {
            return Ok(places);
        };
        let Ok(()) = places.push(here) else {
            return Err(NoMemory);
        };
        next = base_of(plans, here);
    }
    Ok(places)
}

/// The place of the kind that a kind extends.
fn base_of(plans: &PlanTable, place: u32) -> Option<u32>
    ensures { result ≡ base_in (slice_get plans.now place) }
{
    match plans.get(place as usize) {
        None => None,
        Some(plan) => plan.base,
    }
}

/// The fields of a kind, its base's first.
fn kind_fields(alloc: Global, plans: &PlanTable, place: u32) -> Result<FieldList, NoMemory>
    ensures { IfOk result (λ fields. fields ≡ kind_fields plans.now place) }
{
    let mut places = lineage(alloc, plans, place)?;
    let mut fields = FieldList::new(alloc);
    while let Some(here) = places.pop() {
        push_fields_at(alloc, &mut fields, plans, here)?;
    }
    Ok(fields)
}

fn push_fields_at(
    alloc: Global,
    fields: &mut FieldList,
    plans: &PlanTable,
    place: u32,
) -> Result<(), NoMemory>
    ensures { OnOk result (fields.new ≡ fields.old ++ own_fields plans.now place) }
{
    match plans.get(place as usize) {
        None => Ok(()),
        Some(plan) => push_own(alloc, fields, plan),
    }
}

/// The field that an attribute names holds what the attribute says. After an `Err` the fields are as they were.
fn set_attribute(
    alloc: Global,
    fields: &mut FieldList,
    attribute: &AttributeValue,
) -> Result<(), NoMemory>
    ensures { OnOk result (fields.new ≡ with_value attribute.now.field (tree_of attribute.now.value) fields.old) }
{
    let value = copy_portable(alloc, &attribute.value)?;
    fields.set(attribute.field.as_str().as_bytes(), Held::new(value));
    Ok(())
}

/// The fields that the attributes of a child element name hold what these say.
fn set_attributes(
    alloc: Global,
    fields: &mut FieldList,
    attributes: &[AttributeValue],
) -> Result<(), NoMemory>
    ensures { OnOk result (fields.new ≡ with_attributes attributes.now fields.old) }
{
    for attribute in attributes {
        set_attribute(alloc, fields, attribute)?;
    }
    Ok(())
}

fn kind_name(alloc: Global, plans: &PlanTable, place: u32) -> Result<Text, NoMemory>
    ensures name { IfOk result (λ name. name ≡ kind_in (slice_get plans.now place)) }
    ensures table { IsPlanTable plans.now }
{
    match plans.get(place as usize) {
        None => Ok(Text::new(alloc)),
        Some(plan) => copy_text(alloc, &plan.kind),
    }
}

/// A node of a kind, without children.
pub fn new_node(
    alloc: Global,
    plans: &PlanTable,
    place: u32,
    values: &[AttributeValue],
    owner: u32,
    parent: Option<u32>,
) -> Result<Node, NoMemory>
    ensures node { IfOk result (λ node. node ≡ made_node plans.now owner parent place values.now []) }
    ensures table { IsPlanTable plans.now }
{
    let kind = kind_name(alloc, plans, place)?;
    let mut fields = kind_fields(alloc, plans, place)?;
    set_attributes(alloc, &mut fields, values)?;
    Ok(Node {
        kind,
        owner,
        parent,
        children: ChildList::new(alloc),
        fields,
    })
}
