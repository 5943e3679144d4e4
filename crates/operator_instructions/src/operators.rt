//! Instructions of operators.
ghost use Rattle.std.specs.Prelude.{◌≡◌, ◌+◌, ◌<◌, ◌≤◌, ◌^◌, length, IfOk};
ghost use Rattle.frame_stack.specs.Frame.{operands_of};
ghost use Rattle.brs_code.specs.declared.instr.Instr.TheVariants as i;
ghost use Rattle.machine_meaning.specs.Instructions.{operation};
ghost use Rattle.moving_instructions.specs.Behind.{HasPlaceBehind};
ghost use Rattle.operator_instructions.specs.Operated.{Operated};

use crate::operating::operate_on;
use brs_builtins::Operation;
use brs_heap::Heap;
use chan_values::{ErrorCode, NoMemory};
use frame_stack::FrameStack;
use plain_operations::{Operator, UnaryOperator};
use std::alloc::Global;

/// The operator of the table that an operator of code is.
fn operator_of(operator: brs_code::Operator) -> Operator
    ensures { result ≡ operation operator }
{
    match operator {
        brs_code::Operator::Or => Operator::Or,
        brs_code::Operator::And => Operator::And,
        brs_code::Operator::Equal => Operator::Equal,
        brs_code::Operator::NotEqual => Operator::NotEqual,
        brs_code::Operator::Less => Operator::Less,
        brs_code::Operator::Greater => Operator::Greater,
        brs_code::Operator::LessEqual => Operator::LessOrEqual,
        brs_code::Operator::GreaterEqual => Operator::GreaterOrEqual,
        brs_code::Operator::ShiftLeft => Operator::ShiftLeft,
        brs_code::Operator::ShiftRight => Operator::ShiftRight,
        brs_code::Operator::Add => Operator::Add,
        brs_code::Operator::Subtract => Operator::Subtract,
        brs_code::Operator::Multiply => Operator::Multiply,
        brs_code::Operator::Divide => Operator::Divide,
        brs_code::Operator::Modulo => Operator::Remainder,
    }
}

/// `Binary`. It answers the error that the operator raises, and then the calls are as they were. After an `Err` the actor has no further
/// step.
///
/// Source: BrightScript Language Reference, "Operators".
pub fn binary(
    alloc: Global,
    heap: &mut Heap,
    frames: &mut FrameStack,
    operator: brs_code::Operator,
) -> Result<Option<ErrorCode>, NoMemory>
    requires shares { 2 ^ 20 ≤ heap.old.shares }
    requires there { 0 < length frames.old }
    requires operands { 2 ≤ length (operands_of frames.old) }
    requires inside { HasPlaceBehind frames.old }
    ensures ok { IfOk result (λ error. Operated error heap.old frames.old heap.new frames.new (i.Binary operator)) }
    ensures shares { heap.old.shares ≤ heap.new.shares + 2 ^ 20 }
{
    let of_table = operator_of(operator);
    operate_on(alloc, heap, frames, Operation::Operator(of_table), 2)
}

/// `Negate`. It answers the error that the operator raises, and then the calls are as they were. After an `Err` the actor has no further
/// step.
///
/// Source: BrightScript Language Reference, "Operators".
pub fn negate(
    alloc: Global,
    heap: &mut Heap,
    frames: &mut FrameStack,
) -> Result<Option<ErrorCode>, NoMemory>
    requires shares { 2 ^ 20 ≤ heap.old.shares }
    requires there { 0 < length frames.old }
    requires operand { 1 ≤ length (operands_of frames.old) }
    requires inside { HasPlaceBehind frames.old }
    ensures ok { IfOk result (λ error. Operated error heap.old frames.old heap.new frames.new i.Negate) }
    ensures shares { heap.old.shares ≤ heap.new.shares + 2 ^ 20 }
{
    operate_on(
        alloc,
        heap,
        frames,
        Operation::UnaryOperator(UnaryOperator::Negate),
        1,
    )
}

/// `Not`. It answers the error that the operator raises, and then the calls are as they were. After an `Err` the actor has no further
/// step.
///
/// Source: BrightScript Language Reference, "Operators".
pub fn not(
    alloc: Global,
    heap: &mut Heap,
    frames: &mut FrameStack,
) -> Result<Option<ErrorCode>, NoMemory>
    requires shares { 2 ^ 20 ≤ heap.old.shares }
    requires there { 0 < length frames.old }
    requires operand { 1 ≤ length (operands_of frames.old) }
    requires inside { HasPlaceBehind frames.old }
    ensures ok { IfOk result (λ error. Operated error heap.old frames.old heap.new frames.new i.Not) }
    ensures shares { heap.old.shares ≤ heap.new.shares + 2 ^ 20 }
{
    operate_on(
        alloc,
        heap,
        frames,
        Operation::UnaryOperator(UnaryOperator::Not),
        1,
    )
}
