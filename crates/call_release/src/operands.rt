//! Operands that are taken back.
ghost use Rattle.std.specs.Prelude.{◌≡◌, ◌≤◌, length, take};
ghost use Rattle.heap_meaning.specs.Heap.{Moves, no_references};
ghost use Rattle.frame_stack.specs.Operand.{each_of, operand_of};
ghost use Rattle.frame_stack.specs.Frame.{operands_of, changed, without_operands};
ghost use Rattle.call_release.specs.References.{operand_references, all_operand_references};

use brs_heap::Heap;
use frame_stack::{Each, FrameStack, Operand};

/// Takes what a `for each` goes over back. Takes no memory.
fn release_each(heap: &mut Heap, each: Each)
    ensures moves { Moves heap.old heap.new (λ k. operand_references k (each_of each)) no_references }
    ensures shares { heap.new.shares ≡ heap.old.shares }
{
    match each {
        Each::Items(array, _next) => heap.release(array),
        Each::Keys(_keys) => {}
    }
}

/// Takes an operand back. Takes no memory.
pub fn release_operand(heap: &mut Heap, operand: Operand)
    ensures moves { Moves heap.old heap.new (λ k. operand_references k (operand_of operand)) no_references }
    ensures shares { heap.new.shares ≡ heap.old.shares }
{
    match operand {
        Operand::Value(v) => heap.release(v),
        Operand::Each(each) => release_each(heap, each),
    }
}

/// Takes so many of the last operands of the innermost call away, and takes them back. Takes no memory.
pub fn drop_operands(heap: &mut Heap, frames: &mut FrameStack, n: usize)
    requires { n ≤ length (operands_of frames.old) }
    ensures moves { Moves heap.old heap.new (λ k. all_operand_references k (take n (operands_of frames.old))) no_references }
    ensures frames { frames.new ≡ changed (without_operands n) frames.old }
    ensures shares { heap.new.shares ≡ heap.old.shares }
{
    for _i in 0..n {
        let operand = frames.pop();
        release_operand(heap, operand);
    }
}
