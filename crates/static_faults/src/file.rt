//! The first static fault of a file.
ghost use Rattle.std.specs.Prelude.{◌≡◌, ◌↔◌, [], IsNone, IfSome};
ghost use Rattle.brs_grammar.specs.View.{named_of};
ghost use Rattle.static_faults.specs.Faults.{faults, named_faults};
ghost use Rattle.static_faults.specs.First.{first_by_place, StandsFirst};
ghost use Rattle.static_faults.specs.Parts.{body_faults, function_names};

use crate::fault::StaticFault;
use crate::names::{function_fault, function_gives_value, name_of_function, sub_gives_value};
use crate::order::earlier;
use crate::walk::function;
use brs_grammar::tree::{FileTree, NamedFunction};

#[tactic(auto, using(crate::proofs::Walked::walked))]
fn body(named: &NamedFunction) -> Option<StaticFault>
    ensures { result ≡ first_by_place (body_faults named.now) }
{
    match named {
        NamedFunction::Function(_, _, rest) => function(rest, function_gives_value(rest.value)),
        NamedFunction::Sub(_, _, rest) => function(rest, sub_gives_value(rest.value)),
    }
}

#[tactic(auto, using(crate::proofs::Earlier::first_append))]
fn named(before: &[NamedFunction], named: &NamedFunction) -> Option<StaticFault>
    ensures { result ≡ first_by_place (named_faults (function_names before.now) (named_of named.now)) }
{
    earlier(function_fault(before, name_of_function(named)), body(named))
}

fn first_of(functions: &[NamedFunction]) -> Option<StaticFault>
    ensures { result ≡ first_by_place (faults functions.now) }
{
    let mut found = None;
    for (i, function) in functions.iter().enumerate() {
        found = earlier(found, named(&functions[..i], function));
    }
    found
}

/// The first static fault of a file by place, None exactly where there is none. Takes no memory.
///
/// The walk reads each part of the tree once. A parameter's name is compared with those before it in its list, and a function's
/// name with those before it in the file, so a file of n functions takes n * n / 2 comparisons of lengths, and of bytes where lengths agree.
///
/// Source: BrightScript Language Reference, "Reserved words", "Function declarations" and "Statements".
pub fn static_fault(tree: &FileTree) -> Option<StaticFault>
    ensures exact { result ≡ first_by_place (faults tree.now.functions) }
    ensures none { IsNone result ↔ (faults tree.now.functions ≡ []) }
    ensures first { IfSome result (λ fault. StandsFirst fault (faults tree.now.functions)) }
{
    first_of(tree.functions.as_slice())
}
