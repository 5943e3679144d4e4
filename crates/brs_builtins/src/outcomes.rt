//! Operations on values that are no objects: what each gives of its operands, and the value that is made of it.
ghost use Rattle.std.specs.Prelude.{◌≡◌, IfOk};
ghost use Rattle.plain_operations.specs.Outcome.{outcome_of};
ghost use Rattle.plain_operations.specs.Functions.{function_result};
ghost use Rattle.object_operations.specs.Applies.{Applies};
ghost use Rattle.brs_builtins.specs.Operands.{operands_at, answer_of};
ghost use Rattle.brs_builtins.specs.Outcomes as spec;
ghost use Rattle.brs_builtins.specs.Outcomes.{on_operands};
ghost use Rattle.brs_builtins.specs.Delivers.{Delivers};

use crate::operands::{operand_at, shape_at};
use brs_heap::{Heap, Plain, Value};
use chan_values::{ErrorCode, NoMemory};
use object_operations::Applied;
use plain_operations::{
    Operator, Outcome, PlainFunction, PlainMethod, UnaryOperator, call_function, call_method,
    operate, operate_alone,
};
use std::alloc::Global;

fn operator_outcome(
    alloc: Global,
    heap: &Heap,
    operator: Operator,
    arguments: &[Value],
) -> Result<Outcome, NoMemory>
    ensures { IfOk result (λ o. outcome_of o ≡ spec.operator_outcome operator (operands_at heap.now arguments.now)) }
{
    let [left, right] = arguments else {
        return Ok(Outcome::Raised(ErrorCode::E6));
    };
    operate(
        alloc,
        operator,
        operand_at(heap, left),
        operand_at(heap, right),
    )
}

fn unary_outcome(heap: &Heap, operator: UnaryOperator, arguments: &[Value]) -> Outcome
    ensures { outcome_of result ≡ spec.unary_outcome operator (operands_at heap.now arguments.now) }
{
    let [operand] = arguments else {
        return Outcome::Raised(ErrorCode::E6);
    };
    operate_alone(operator, operand_at(heap, operand))
}

fn function_outcome(
    alloc: Global,
    heap: &Heap,
    function: PlainFunction,
    arguments: &[Value],
) -> Result<Outcome, NoMemory>
    ensures { IfOk result (λ o. outcome_of o ≡ function_result function (operands_at heap.now arguments.now)) }
{
    call_function(alloc, function, arguments.len(), shape_at(heap, arguments))
}

fn method_outcome(
    alloc: Global,
    heap: &Heap,
    method: PlainMethod,
    arguments: &[Value],
) -> Result<Outcome, NoMemory>
    ensures { IfOk result (λ o. outcome_of o ≡ spec.method_outcome method (operands_at heap.now arguments.now)) }
{
    let [receiver, others @ ..] = arguments else {
        return Ok(Outcome::Raised(ErrorCode::E6));
    };
    call_method(alloc, method, operand_at(heap, receiver), others.len())
}

/// The outcome as a value of this heap.
fn deliver(heap: &mut Heap, outcome: Outcome) -> Result<Applied, NoMemory>
    ensures answer { IfOk result (λ r. Delivers heap.old heap.new r (answer_of (outcome_of outcome))) }
    ensures shares { heap.new.shares ≡ heap.old.shares }
{
    match outcome {
        Outcome::Invalid => Ok(Applied::Value(Value::plain(Plain::Invalid))),
        Outcome::Boolean(b) => Ok(Applied::Value(Value::plain(Plain::Truth(b)))),
        Outcome::Integer(n) => Ok(Applied::Value(Value::plain(Plain::Small(n)))),
        Outcome::LongInteger(n) => Ok(Applied::Value(Value::plain(Plain::Big(n)))),
        Outcome::Words(text) => Ok(Applied::Value(heap.make_text(text)?)),
        Outcome::Raised(error) => Ok(Applied::Raised(error)),
    }
}

/// Applies an operator between two operands.
pub(crate) fn apply_operator(
    alloc: Global,
    heap: &mut Heap,
    operator: Operator,
    arguments: &[Value],
) -> Result<Applied, NoMemory>
    ensures answer { IfOk result (λ r. Applies heap.old heap.new arguments.now r (on_operands (spec.operator_outcome operator))) }
    ensures shares { heap.new.shares ≡ heap.old.shares }
{
    let outcome = operator_outcome(alloc, heap, operator, arguments)?;
    deliver(heap, outcome)
}

/// Applies an operator before its one operand.
pub(crate) fn apply_unary(
    heap: &mut Heap,
    operator: UnaryOperator,
    arguments: &[Value],
) -> Result<Applied, NoMemory>
    ensures answer { IfOk result (λ r. Applies heap.old heap.new arguments.now r (on_operands (spec.unary_outcome operator))) }
    ensures shares { heap.new.shares ≡ heap.old.shares }
{
    let outcome = unary_outcome(heap, operator, arguments);
    deliver(heap, outcome)
}

/// Calls a function of numbers and texts.
pub(crate) fn apply_function(
    alloc: Global,
    heap: &mut Heap,
    function: PlainFunction,
    arguments: &[Value],
) -> Result<Applied, NoMemory>
    ensures answer { IfOk result (λ r. Applies heap.old heap.new arguments.now r (on_operands (function_result function))) }
    ensures shares { heap.new.shares ≡ heap.old.shares }
{
    let outcome = function_outcome(alloc, heap, function, arguments)?;
    deliver(heap, outcome)
}

/// Calls a method of texts, numbers and Booleans.
pub(crate) fn apply_plain_method(
    alloc: Global,
    heap: &mut Heap,
    method: PlainMethod,
    arguments: &[Value],
) -> Result<Applied, NoMemory>
    ensures answer { IfOk result (λ r. Applies heap.old heap.new arguments.now r (on_operands (spec.method_outcome method))) }
    ensures shares { heap.new.shares ≡ heap.old.shares }
{
    let outcome = method_outcome(alloc, heap, method, arguments)?;
    deliver(heap, outcome)
}
