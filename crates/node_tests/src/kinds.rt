//! The kinds that every channel has.
use crate::plans::{add_kind, add_own, no_children};
use field_types::{FieldPlanList, FieldType, PlanTable};
use std::alloc::Global;
use std::test::Fail;

pub const NODE: u32 = 0;

pub const GROUP: u32 = 1;

pub const LABEL: u32 = 4;

pub const POSTER: u32 = 6;

const NODE_FIELDS: [(&str, FieldType, &str); 3] = [
    ("id", FieldType::String, ""),
    ("focusable", FieldType::Boolean, "false"),
    ("focusedChild", FieldType::Node, ""),
];

const GROUP_FIELDS: [(&str, FieldType, &str); 1] = [("visible", FieldType::Boolean, "true")];

const LABEL_FIELDS: [(&str, FieldType, &str); 2] = [
    ("text", FieldType::String, ""),
    ("color", FieldType::String, ""),
];

const RECTANGLE_FIELDS: [(&str, FieldType, &str); 3] = [
    ("width", FieldType::Integer, "0"),
    ("height", FieldType::Integer, "0"),
    ("color", FieldType::String, ""),
];

const POSTER_FIELDS: [(&str, FieldType, &str); 3] = [
    ("uri", FieldType::String, ""),
    ("width", FieldType::Integer, "0"),
    ("height", FieldType::Integer, "0"),
];

const CONTENT_FIELDS: [(&str, FieldType, &str); 3] = [
    ("title", FieldType::String, ""),
    ("description", FieldType::String, ""),
    ("url", FieldType::String, ""),
];

const TASK_FIELDS: [(&str, FieldType, &str); 3] = [
    ("functionName", FieldType::String, ""),
    ("control", FieldType::String, ""),
    ("state", FieldType::String, "init"),
];

fn add(
    alloc: Global,
    plans: &mut PlanTable,
    kind: &str,
    base: Option<u32>,
    rows: &[(&str, FieldType, &str)],
) -> Result<(), Fail> {
    let mut fields = FieldPlanList::new(alloc);
    for (id, kind, opening) in rows {
        add_own(alloc, &mut fields, id, *kind, false, opening)?;
    }
    let children = no_children(alloc);
    add_kind(alloc, plans, kind, base, fields, children)
}

/// The kinds in the order of the core nodes' table, each behind its base.
pub fn core_kinds(alloc: Global) -> Result<PlanTable, Fail> {
    let mut plans = PlanTable::new(alloc);
    add(alloc, &mut plans, "Node", None, &NODE_FIELDS)?;
    add(alloc, &mut plans, "Group", Some(NODE), &GROUP_FIELDS)?;
    add(alloc, &mut plans, "LayoutGroup", Some(GROUP), &[])?;
    add(alloc, &mut plans, "Scene", Some(GROUP), &[])?;
    add(alloc, &mut plans, "Label", Some(GROUP), &LABEL_FIELDS)?;
    add(
        alloc,
        &mut plans,
        "Rectangle",
        Some(GROUP),
        &RECTANGLE_FIELDS,
    )?;
    add(alloc, &mut plans, "Poster", Some(GROUP), &POSTER_FIELDS)?;
    add(
        alloc,
        &mut plans,
        "ContentNode",
        Some(NODE),
        &CONTENT_FIELDS,
    )?;
    add(alloc, &mut plans, "Task", Some(NODE), &TASK_FIELDS)?;
    Ok(plans)
}
