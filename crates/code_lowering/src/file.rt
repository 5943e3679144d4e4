//! The code of a file.
ghost use Rattle.std.specs.Prelude.{◌≡◌, List, [], length, map, All, IfOk, OnOk};
ghost use Rattle.code_relation.specs.Standing.{FunctionForm};
ghost use Rattle.brs_code.specs.declared.function.Function.{Function as Made};
ghost use Rattle.code_drafts.specs.declared.draft.Draft.{out-Draft};
ghost use Rattle.code_lowering.specs.Lowered.{Begins, IsFunction, NamedOf, FileOf};
ghost use Rattle.code_lowering.specs.Takes.{FunctionTakes, form_draft, StandsTo};

use crate::function::{Heading, lower_function};
use brs_code::{Code, Function, FunctionList};
use chan_values::NoMemory;
use code_drafts::Draft;
use std::alloc::Global;

/// The function of a draft. Its anonymous functions are added to the file's before it.
fn named(alloc: Global, file: &mut FunctionList, draft: &Draft) -> Result<Function, NoMemory>
    requires { IsFunction draft.now }
    ensures file { OnOk result (Begins Made file.old file.new) }
    ensures stands { IfOk result (λ g. (all : List Made) → Begins Made file.new all → NamedOf all (length file.old) (out-Draft draft.now) g (length file.new)) }
{
    match draft {
        Draft::Function(line, parameters, needed, value, size, code) => {
            let heading = Heading {
                line: *line,
                needed: *needed,
                value: *value,
                size: *size,
            };
            lower_function(alloc, file, heading, parameters.as_slice(), code.as_slice())
        }
        _ => unreachable!(),
    }
}

/// The code of a file whose named functions have these drafts, without scopes. The anonymous functions are numbered in the order in which
/// their code ends.
pub fn lowered(alloc: Global, drafts: &[Draft]) -> Result<Code, NoMemory>
    requires { All IsFunction drafts.now }
    ensures functions { IfOk result (λ code. FileOf code.anonymous 0 drafts.now code.named (length code.anonymous)) }
    ensures stands { IfOk result (λ code. (forms : List FunctionForm) → drafts.now ≡ map form_draft forms → All FunctionTakes forms → StandsTo code forms) }
    ensures scopes { IfOk result (λ code. code.scopes ≡ []) }
{
    let mut code = Code::new(alloc);
    for draft in drafts {
        let made = named(alloc, &mut code.anonymous, draft)?;
        code.named.push(made)?;
    }
    Ok(code)
}
