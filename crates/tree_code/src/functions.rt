//! The code of functions.
ghost use Rattle.std.specs.Prelude.{◌≡◌, map, reverse, OnOk, IfOk};
ghost use Rattle.brs_grammar.specs.View.{parameter_of, params, rest_of};
ghost use Rattle.code_drafts.specs.DraftCode.{params_code, params_drafts, function_draft};
ghost use Rattle.code_drafts.specs.StatementCode.{formal_code};
ghost use Rattle.tree_code.specs.FileCode.{parameter_draft};

use crate::expressions::expression;
use crate::statements::block;
use brs_code::Instr;
use brs_forms::folded_bytes;
use brs_grammar::tree::{Parameter, Rest};
use chan_values::NoMemory;
use code_drafts::{Buffer, Draft, DraftParameter, needed, no_loops, value_type};
use sqlite_items::Items;
use std::alloc::Global;

/// A parameter before so many instructions.
fn draft_parameter(alloc: Global, x: &Parameter, after: usize) -> Result<DraftParameter, NoMemory>
    ensures { IfOk result (λ d. d ≡ parameter_draft x.now after) }
{
    Ok(DraftParameter {
        name: folded_bytes(alloc, x.name.text.as_slice())?,
        kind: value_type(x.kind),
        after,
    })
}

/// Puts the default of the parameter of this number, and what gives it to the parameter, in front.
#[cycle(walk)]
#[tactic(auto, using(crate::proofs::Callees::required_code, crate::proofs::Callees::optional_code))]
fn default(alloc: Global, code: &mut Buffer, number: usize, x: &Parameter) -> Result<(), NoMemory>
    ensures { OnOk result (code.new ≡ formal_code number (parameter_of x.now) code.old) }
{
    match &x.default {
        None => Ok(()),
        Some(value) => {
            code.push(Draft::Plain(Instr::Bind(number), x.name.place.line))?;
            expression(alloc, code, value)
        }
    }
}

/// The parameters, from the last to the first.
#[cycle(walk)]
#[tactic(auto, using(crate::proofs::Callees::code_done, crate::proofs::Callees::drafts_done))]
fn parameters(
    alloc: Global,
    code: &mut Buffer,
    all: &[Parameter],
) -> Result<Items<DraftParameter>, NoMemory>
    ensures code { OnOk result (code.new ≡ params_code 0 (params (map parameter_of all.now)) code.old) }
    ensures drafts { IfOk result (λ drafts. drafts ≡ reverse (params_drafts 0 (params (map parameter_of all.now)) code.old)) }
{
    let mut drafts = Items::new(alloc);
    for i in 0..all.len() {
        let number = all.len() - 1 - i;
        let x = &all[number];
        default(alloc, code, number, x)?;
        match drafts.push(draft_parameter(alloc, x, code.len())?) {
            Ok(()) => {}
            Err(_) => return Err(NoMemory),
        }
    }
    Ok(drafts)
}

/// The function whose first word stands in this line.
#[cycle(walk)]
#[tactic(auto, using(crate::proofs::Callees::function_rules))]
pub(crate) fn function(alloc: Global, line: u32, rest: &Rest) -> Result<Draft, NoMemory>
    ensures { IfOk result (λ d. d ≡ function_draft line (rest_of rest.now)) }
{
    let mut code = Buffer::new(alloc);
    code.push(Draft::Plain(Instr::End, 0))?;
    code.append(block(alloc, rest.body.as_slice(), no_loops())?)?;
    let size = code.len();
    let all = rest.parameters.as_slice();
    let drafts = parameters(alloc, &mut code, all)?;
    let value = value_type(rest.value);
    Ok(Draft::Function(line, drafts, needed(all), value, size, code.into_items()))
}
