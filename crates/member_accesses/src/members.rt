//! Reads and writes of members and of indexes, of nodes too.
ghost use Rattle.std.specs.Prelude.{◌≡◌, ◌+◌, ◌<◌, ◌≤◌, length, IfOk};
ghost use Rattle.member_accesses.specs.Reaching.{Reaches};
ghost use Rattle.member_accesses.specs.Rows.{member_read_row, index_read_row, member_write_row, index_write_row};

use crate::Reached;
use crate::fields::{get_field, get_field_at, node_of, set_field, set_field_at};
use crate::named::{read_named, write_named};
use brs_heap::{Heap, Value};
use chan_values::{NoMemory, Text};
use std::alloc::Global;

/// `x.name`. The operands are `x` alone, and stay the caller's. Memory is taken for a node alone.
///
/// Source: BrightScript Language Reference, "Expressions, Variables, and Types": dot operator; SceneGraph, "ifSGNodeField".
pub fn read_member(
    alloc: Global,
    heap: &mut Heap,
    operands: &[Value],
    name: &Text,
) -> Result<Reached, NoMemory>
    requires operand { length operands.now ≡ 1 }
    requires shares { 0 < heap.old.shares }
    ensures answer { IfOk result (λ reached. Reaches heap.old heap.new operands.now reached (member_read_row name.now)) }
    ensures shares { heap.old.shares ≤ heap.new.shares + 1 }
{
    let [x] = operands else { unreachable!() };
    match node_of(heap, x) {
        Some(node) => get_field(alloc, node, name),
        None => {
            let member = read_named(heap, x, name);
            Ok(Reached::Done(member))
        }
    }
}

/// `x[i]`. The operands are `x` and `i`, and stay the caller's. A node with a text reads as the member of that name.
///
/// Source: BrightScript Language Reference, "Expressions, Variables, and Types": array operator; SceneGraph, "ifSGNodeField".
pub fn read_index(alloc: Global, heap: &mut Heap, operands: &[Value]) -> Result<Reached, NoMemory>
    requires operands { length operands.now ≡ 2 }
    requires shares { 0 < heap.old.shares }
    ensures answer { IfOk result (λ reached. Reaches heap.old heap.new operands.now reached index_read_row) }
    ensures shares { heap.old.shares ≤ heap.new.shares + 1 }
{
    let [x, i] = operands else { unreachable!() };
    match node_of(heap, x) {
        Some(node) => get_field_at(alloc, heap, node, i),
        None => {
            let item = object_operations::read_index(alloc, heap, operands)?;
            Ok(Reached::Done(item))
        }
    }
}

/// `x.name = v`. The operands are `x` and `v`, and stay the caller's. Where it is done at once, the value is to be released.
///
/// Source: BrightScript Language Reference, "Expressions, Variables, and Types": dot operator; SceneGraph, "ifSGNodeField".
pub fn write_member(
    alloc: Global,
    heap: &mut Heap,
    operands: &[Value],
    name: &Text,
) -> Result<Reached, NoMemory>
    requires operands { length operands.now ≡ 2 }
    requires shares { 0 < heap.old.shares }
    ensures answer { IfOk result (λ reached. Reaches heap.old heap.new operands.now reached (member_write_row name.now)) }
    ensures shares { heap.old.shares ≤ heap.new.shares + 1 }
{
    let [x, v] = operands else { unreachable!() };
    match node_of(heap, x) {
        Some(node) => set_field(alloc, heap, node, name, v),
        None => {
            let written = write_named(heap, x, name, v)?;
            Ok(Reached::Done(written))
        }
    }
}

/// `x[i] = v`. The operands are `x`, `i` and `v`, and stay the caller's. A node with a text is written as the member of that name. Where
/// it is done at once, the value is to be released.
///
/// Source: BrightScript Language Reference, "Expressions, Variables, and Types": array operator; SceneGraph, "ifSGNodeField".
pub fn write_index(alloc: Global, heap: &mut Heap, operands: &[Value]) -> Result<Reached, NoMemory>
    requires operands { length operands.now ≡ 3 }
    requires shares { 0 < heap.old.shares }
    ensures answer { IfOk result (λ reached. Reaches heap.old heap.new operands.now reached index_write_row) }
    ensures shares { heap.old.shares ≤ heap.new.shares + 1 }
{
    let [x, i, v] = operands else { unreachable!() };
    match node_of(heap, x) {
        Some(node) => set_field_at(alloc, heap, node, i, v),
        None => {
            let written = object_operations::write_index(alloc, heap, operands)?;
            Ok(Reached::Done(written))
        }
    }
}
