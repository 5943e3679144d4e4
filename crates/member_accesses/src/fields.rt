//! Accesses to the fields of nodes.
ghost use Rattle.std.specs.Prelude.{◌≡◌, [], ◌∷◌, IfOk};
ghost use Rattle.heap_meaning.specs.Heap.{content_at};
ghost use Rattle.heap_meaning.specs.Reading.{plain_of, text_in};
ghost use Rattle.chan_values.specs.declared.access.Access.TheVariants as c;
ghost use Rattle.chan_values.specs.declared.error_code.ErrorCode.TheVariants.{E9};
ghost use Rattle.object_operations.specs.declared.applied.Applied.TheVariants as a;
ghost use Rattle.member_accesses.specs.declared.reached.Reached.TheVariants as r;
ghost use Rattle.member_accesses.specs.Reaching.{Reaches};
ghost use Rattle.member_accesses.specs.Fields.{node_in, field_read, field_write, field_write_at};

use crate::Reached;
use brs_copy::{CopyFault, copy_out};
use brs_heap::{Heap, Plain, Value};
use chan_values::{Access, ErrorCode, NoMemory, Text, copy_text};
use object_operations::Applied;
use std::alloc::Global;

/// The node that a value is, `None` exactly where it is none. Takes no memory.
pub fn node_of(heap: &Heap, v: &Value) -> Option<u32>
    ensures { result ≡ node_in (plain_of v.now) }
{
    match heap.plain(v) {
        Some(Plain::Node(node)) => Some(node),
        _ => None,
    }
}

/// A read of a field.
pub fn get_field(alloc: Global, node: u32, field: &Text) -> Result<Reached, NoMemory>
    ensures { IfOk result (λ reached. reached ≡ r.Asks (c.Get node field.now)) }
{
    let field = copy_text(alloc, field)?;
    Ok(Reached::Asks(Access::Get { node, field }))
}

/// A read of the field that a value names.
pub fn get_field_at(alloc: Global, heap: &Heap, node: u32, i: &Value) -> Result<Reached, NoMemory>
    ensures { IfOk result (λ reached. reached ≡ field_read node (text_in (content_at heap.now i.now))) }
{
    match heap.text(i) {
        None => Ok(Reached::Done(Applied::Raised(ErrorCode::E2))),
        Some(field) => get_field(alloc, node, field),
    }
}

/// The error of a value that is too deep or too large to leave its heap.
fn cannot_leave() -> Reached
    ensures { result ≡ r.Done (a.Raised E9) }
{
    Reached::Done(Applied::Raised(ErrorCode::E9))
}

/// A write to a field, for which the value leaves its heap.
pub fn set_field(
    alloc: Global,
    heap: &Heap,
    node: u32,
    field: &Text,
    v: &Value,
) -> Result<Reached, NoMemory>
    ensures { IfOk result (λ reached. Reaches heap.now heap.now (v.now ∷ []) reached (field_write node field.now)) }
{
    let field = copy_text(alloc, field)?;
    match copy_out(alloc, heap, v) {
        Ok(value) => Ok(Reached::Asks(Access::Set { node, field, value })),
        Err(CopyFault::NoMemory) => Err(NoMemory),
        Err(CopyFault::TooDeep) => Ok(cannot_leave()),
        Err(CopyFault::TooLarge) => Ok(cannot_leave()),
    }
}

/// A write to the field that a value names.
pub fn set_field_at(
    alloc: Global,
    heap: &Heap,
    node: u32,
    i: &Value,
    v: &Value,
) -> Result<Reached, NoMemory>
    ensures { IfOk result (λ reached. Reaches heap.now heap.now (i.now ∷ v.now ∷ []) reached (field_write_at node)) }
{
    match heap.text(i) {
        None => Ok(Reached::Done(Applied::Raised(ErrorCode::E2))),
        Some(field) => set_field(alloc, heap, node, field, v),
    }
}
