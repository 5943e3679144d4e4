//! The code of a function.
ghost use Rattle.std.specs.Prelude.{◌≡◌, ℕ, List, [], ◌∷◌, ◌++◌, length, reverse, slice_get, Some, IfOk, OnOk};
ghost use Rattle.brs_code.specs.declared.function.Function.{Function as Made};
ghost use Rattle.brs_code.specs.declared.instr.Placed.{Placed as Stood};
ghost use Rattle.lowering_parts.specs.Operands.{after};
ghost use Rattle.lowering_parts.specs.Places as places;
ghost use Rattle.code_drafts.specs.declared.draft.Draft.{out-Draft};
ghost use Rattle.code_drafts.specs.declared.draft.Draft.TheOpen as opened;
ghost use Rattle.code_lowering.specs.Lowered.{Begins, Grows, Reads, ParametersOf, OneAt, Codes, FunctionOf};

use brs_code::{Function, FunctionList, Instr, Mark, Parameter, Placed, ValueType};
use chan_values::{NoMemory, Text};
use code_drafts::{Draft, DraftParameter};
use lowering_parts::{Tables, at_place, operands_after, with_index};
use sqlite_items::Items;
use std::alloc::Global;

/// What stands before the code of a function: its line, how many arguments it needs, what its value has to be, and how many instructions
/// its body has with its end.
#[derive(Clone, Copy, Debug, PartialEq, Eq)]
pub(crate) struct Heading {
    pub line: u32,
    pub needed: usize,
    pub value: ValueType,
    pub size: usize,
}

/// Where an instruction stands: its place, with how many operands it begins, and its line.
#[derive(Clone, Copy, Debug, PartialEq, Eq)]
struct Spot {
    at: usize,
    operands: usize,
    line: u32,
}

impl Spot {
    fn holds(self, instr: Instr) -> Placed
        ensures instr { result.instr ≡ instr }
        ensures line { result.line ≡ self.line }
        ensures operands { result.operands ≡ self.operands }
    {
        Placed {
            instr,
            line: self.line,
            operands: self.operands,
        }
    }
}

/// The parameters of a function whose code has so many instructions, each with a slot.
fn parameters(
    alloc: Global,
    tables: &mut Tables,
    all: &[DraftParameter],
    count: usize,
) -> Result<Items<Parameter>, NoMemory>
    ensures { IfOk result (λ xs. (names : List (List ℕ)) → Begins (List ℕ) tables.new.slots names → ParametersOf names count (reverse all.now) xs) }
{
    let mut parameters = Items::new(alloc);
    for i in 0..all.len() {
        let parameter = &all[all.len() - 1 - i];
        let slot = tables.slot(alloc, parameter.name.as_slice())?;
        let Ok(()) = parameters.push(Parameter {
            slot,
            kind: parameter.kind,
            entry: count.saturating_sub(parameter.after),
        }) else {
            return Err(NoMemory);
        };
    }
    Ok(parameters)
}

/// The instruction of a draft that names entries of tables, at its place.
fn indexed(index: usize, at: usize, instr: Instr) -> Result<Instr, NoMemory>
    ensures { IfOk result (λ x. x ≡ places.with_index index (places.at_place at instr)) }
{
    Ok(with_index(index, at_place(at, instr)?))
}

/// An instruction that names a variable.
fn slot_placed(
    alloc: Global,
    tables: &mut Tables,
    place: Spot,
    instr: Instr,
    name: &[u8],
) -> Result<Placed, NoMemory>
    ensures grows { OnOk result (Grows tables.old tables.new) }
    ensures stands { IfOk result (λ x. (all : List Made) (f : Made) (n : ℕ) → Reads tables.new f → slice_get f.code place.at ≡ Some x → OneAt all f place.at n place.operands (opened.Slot instr place.line name.now) n (after x.instr place.operands)) }
{
    let index = tables.slot(alloc, name)?;
    Ok(place.holds(indexed(index, place.at, instr)?))
}

/// An instruction that names a text.
fn word_placed(
    alloc: Global,
    tables: &mut Tables,
    place: Spot,
    instr: Instr,
    text: &Text,
) -> Result<Placed, NoMemory>
    ensures grows { OnOk result (Grows tables.old tables.new) }
    ensures stands { IfOk result (λ x. (all : List Made) (f : Made) (n : ℕ) → Reads tables.new f → slice_get f.code place.at ≡ Some x → OneAt all f place.at n place.operands (opened.Word instr place.line text.now) n (after x.instr place.operands)) }
{
    let index = tables.text(alloc, text)?;
    Ok(place.holds(indexed(index, place.at, instr)?))
}

/// An instruction that names texts.
fn words_placed(
    alloc: Global,
    tables: &mut Tables,
    place: Spot,
    instr: Instr,
    words: &[Text],
) -> Result<Placed, NoMemory>
    ensures grows { OnOk result (Grows tables.old tables.new) }
    ensures stands { IfOk result (λ x. (all : List Made) (f : Made) (n : ℕ) → Reads tables.new f → slice_get f.code place.at ≡ Some x → OneAt all f place.at n place.operands (opened.Words instr place.line words.now) n (after x.instr place.operands)) }
{
    let index = tables.words(alloc, words)?;
    Ok(place.holds(indexed(index, place.at, instr)?))
}

/// An instruction that names marks.
fn marks_placed(
    alloc: Global,
    tables: &mut Tables,
    place: Spot,
    instr: Instr,
    marks: &[Mark],
) -> Result<Placed, NoMemory>
    ensures grows { OnOk result (Grows tables.old tables.new) }
    ensures stands { IfOk result (λ x. (all : List Made) (f : Made) (n : ℕ) → Reads tables.new f → slice_get f.code place.at ≡ Some x → OneAt all f place.at n place.operands (opened.Marks instr place.line marks.now) n (after x.instr place.operands)) }
{
    let index = tables.marks(alloc, marks)?;
    Ok(place.holds(indexed(index, place.at, instr)?))
}

/// An instruction at its place, where it begins with so many operands. An anonymous function is added to the file's, and its number is
/// named.
#[cycle(lower)]
fn lower_instruction(
    alloc: Global,
    file: &mut FunctionList,
    tables: &mut Tables,
    at: usize,
    operands: usize,
    draft: &Draft,
) -> Result<Placed, NoMemory>
    ensures tables { OnOk result (Grows tables.old tables.new) }
    ensures file { OnOk result (Begins Made file.old file.new) }
    ensures stands { IfOk result (λ x. (all : List Made) (f : Made) → Begins Made file.new all → Reads tables.new f → slice_get f.code at ≡ Some x → OneAt all f at (length file.old) operands (out-Draft draft.now) (length file.new) (after x.instr operands)) }
{
    match draft {
        Draft::Plain(instr, line) => {
            let place = Spot {
                at,
                operands,
                line: *line,
            };
            Ok(place.holds(at_place(at, *instr)?))
        }
        Draft::Slot(instr, line, name) => {
            let place = Spot {
                at,
                operands,
                line: *line,
            };
            slot_placed(alloc, tables, place, *instr, name.as_slice())
        }
        Draft::Word(instr, line, text) => {
            let place = Spot {
                at,
                operands,
                line: *line,
            };
            word_placed(alloc, tables, place, *instr, text)
        }
        Draft::Words(instr, line, words) => {
            let place = Spot {
                at,
                operands,
                line: *line,
            };
            words_placed(alloc, tables, place, *instr, words.as_slice())
        }
        Draft::Marks(instr, line, marks) => {
            let place = Spot {
                at,
                operands,
                line: *line,
            };
            marks_placed(alloc, tables, place, *instr, marks.as_slice())
        }
        Draft::Function(line, parameters, needed, value, size, code) => {
            let heading = Heading {
                line: *line,
                needed: *needed,
                value: *value,
                size: *size,
            };
            let made = lower_function(
                alloc,
                file,
                heading,
                parameters.as_slice(),
                code.as_slice(),
            )?;
            let number = file.len();
            file.push(made)?;
            let place = Spot {
                at,
                operands,
                line: *line,
            };
            Ok(place.holds(Instr::Function(number)))
        }
    }
}

/// The code of drafts that stand from the last instruction to the first.
#[cycle(lower)]
fn lower_body(
    alloc: Global,
    file: &mut FunctionList,
    tables: &mut Tables,
    code: &[Draft],
) -> Result<Items<Placed>, NoMemory>
    ensures tables { OnOk result (Grows tables.old tables.new) }
    ensures file { OnOk result (Begins Made file.old file.new) }
    ensures count { IfOk result (λ xs. length xs ≡ length code.now) }
    ensures stands { IfOk result (λ xs. (all : List Made) (f : Made) → Begins Made file.new all → Reads tables.new f → Begins Stood xs f.code → Codes all f (length file.old) (reverse code.now) (length code.now) (length file.new)) }
{
    let mut list = Items::new(alloc);
    let mut operands = 0;
    for at in 0..code.len() {
        let one = lower_instruction(
            alloc,
            file,
            tables,
            at,
            operands,
            &code[code.len() - 1 - at],
        )?;
        operands = operands_after(one.instr, operands)?;
        let Ok(()) = list.push(one) else {
            return Err(NoMemory);
        };
    }
    Ok(list)
}

/// The function of a draft. Its anonymous functions are added to the file's before it.
#[cycle(lower)]
pub(crate) fn lower_function(
    alloc: Global,
    file: &mut FunctionList,
    heading: Heading,
    parameter_drafts: &[DraftParameter],
    code: &[Draft],
) -> Result<Function, NoMemory>
    ensures file { OnOk result (Begins Made file.old file.new) }
    ensures function { IfOk result (λ g. (all : List Made) → Begins Made file.new all → FunctionOf all (length file.old) heading.line parameter_drafts.now heading.needed heading.value heading.size code.now g (length file.new)) }
{
    let mut tables = Tables::new(alloc);
    let parameters = parameters(alloc, &mut tables, parameter_drafts, code.len())?;
    let list = lower_body(alloc, file, &mut tables, code)?;
    let names = tables.slots.names(alloc)?;
    let Tables {
        slots: _slots,
        texts,
        marks,
    } = tables;
    Ok(Function {
        path: 0,
        line: heading.line,
        first: 0,
        parameters,
        needed: heading.needed,
        value: heading.value,
        names,
        texts,
        marks,
        start: code.len().saturating_sub(heading.size),
        code: list,
    })
}
