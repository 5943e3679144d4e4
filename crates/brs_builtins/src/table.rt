//! Operations by their table.
ghost use Rattle.std.specs.Prelude.{◌+◌, ◌^◌, ◌≤◌, IfOk};
ghost use Rattle.object_operations.specs.Applies.{Applies};
ghost use Rattle.brs_builtins.specs.Table.{applied};

use crate::operation::Operation;
use crate::outcomes::{apply_function, apply_operator, apply_plain_method, apply_unary};
use brs_heap::{Heap, Value};
use chan_values::NoMemory;
use object_makers::{call_append, call_data, call_keys, call_message_method, create_object};
use object_operations::{
    Applied, call_array_method, call_map_method, call_type, read_index, read_member, write_index,
    write_member,
};
use std::alloc::Global;

/// Applies an operation to arguments, which stay the caller's; a value that it answers is the caller's to release.
/// Errors come in the order E7, E4, E6, E2, E3 and E12. Where an error is raised, nothing has changed.
///
/// Source: BrightScript Language Reference, "Operators", "Global Utility Functions", "BrightScript Interfaces".
pub fn apply(
    alloc: Global,
    heap: &mut Heap,
    operation: Operation,
    arguments: &[Value],
) -> Result<Applied, NoMemory>
    requires shares { 2 ^ 20 ≤ heap.old.shares }
    ensures answer { IfOk result (λ r. Applies heap.old heap.new arguments.now r (applied operation)) }
    ensures shares { heap.old.shares ≤ heap.new.shares + 2 ^ 20 }
{
    match operation {
        Operation::Operator(operator) => apply_operator(alloc, heap, operator, arguments),
        Operation::UnaryOperator(operator) => apply_unary(heap, operator, arguments),
        Operation::ReadMember => read_member(alloc, heap, arguments),
        Operation::WriteMember => write_member(alloc, heap, arguments),
        Operation::ReadIndex => read_index(alloc, heap, arguments),
        Operation::WriteIndex => write_index(alloc, heap, arguments),
        Operation::Function(function) => apply_function(alloc, heap, function, arguments),
        Operation::TypeName => call_type(alloc, heap, arguments),
        Operation::CreateObject => create_object(alloc, heap, arguments),
        Operation::PlainMethod(method) => apply_plain_method(alloc, heap, method, arguments),
        Operation::ArrayMethod(method) => call_array_method(heap, method, arguments),
        Operation::MapMethod(method) => call_map_method(alloc, heap, method, arguments),
        Operation::Keys => call_keys(alloc, heap, arguments),
        Operation::AppendEntries => call_append(alloc, heap, arguments),
        Operation::MessageMethod(method) => call_message_method(alloc, heap, method, arguments),
        Operation::MessageData => call_data(alloc, heap, arguments),
    }
}
