//! What the words of a tree are as instructions.
ghost use Rattle.std.specs.Prelude.{◌≡◌, ◌+◌, [], ◌∷◌, ◌++◌, map, IfOk, OnOk};
ghost use Rattle.chan_values.specs.Folded.{folded};
ghost use Rattle.brs_forms.specs.Words.{readable, key_of};
ghost use Rattle.brs_grammar.specs.View.{key_of as form_key};
ghost use Rattle.brs_forms.specs.Words as words;
ghost use Rattle.brs_grammar.specs.View as view;
ghost use Rattle.code_drafts.specs.declared.draft.Draft.TheVariants as draft;
ghost use Rattle.code_relation.specs.Heads as heads;
ghost use Rattle.code_drafts.specs.DraftCode as drafts;

use crate::draft::Draft;
use brs_code::{Instr, Operator, ValueType};
use brs_forms::{folded_bytes, is_m, key_text, number_of, readable_text};
use brs_grammar::tree::{
    ComparisonSign, CountSign, Key, Name, ProductSign, ShiftSign, SumSign, TypeWord, UpdateSign,
};
use brs_tokens::NumberValue;
use chan_values::{NoMemory, Text};
use std::alloc::Global;

/// The sum of two numbers of instructions. One that is too large for a machine word is too large for memory.
pub fn sum(a: usize, b: usize) -> Result<usize, NoMemory>
    ensures { IfOk result (λ n. n ≡ a + b) }
{
    match a.checked_add(b) {
        Some(n) => Ok(n),
        None => Err(NoMemory),
    }
}

pub fn comparison_operator(sign: ComparisonSign) -> Operator
    ensures { result ≡ heads.comparison_operator sign }
{
    match sign {
        ComparisonSign::Equal => Operator::Equal,
        ComparisonSign::NotEqual => Operator::NotEqual,
        ComparisonSign::Less => Operator::Less,
        ComparisonSign::Greater => Operator::Greater,
        ComparisonSign::LessEqual => Operator::LessEqual,
        ComparisonSign::GreaterEqual => Operator::GreaterEqual,
    }
}

pub fn shift_operator(sign: ShiftSign) -> Operator
    ensures { result ≡ heads.shift_operator sign }
{
    match sign {
        ShiftSign::Left => Operator::ShiftLeft,
        ShiftSign::Right => Operator::ShiftRight,
    }
}

pub fn sum_operator(sign: SumSign) -> Operator
    ensures { result ≡ heads.sum_operator sign }
{
    match sign {
        SumSign::Plus => Operator::Add,
        SumSign::Minus => Operator::Subtract,
    }
}

pub fn product_operator(sign: ProductSign) -> Operator
    ensures { result ≡ heads.product_operator sign }
{
    match sign {
        ProductSign::Times => Operator::Multiply,
        ProductSign::Divide => Operator::Divide,
        ProductSign::Modulo => Operator::Modulo,
    }
}

pub fn update_operator(sign: UpdateSign) -> Operator
    ensures { result ≡ heads.update_operator sign }
{
    match sign {
        UpdateSign::Plus => Operator::Add,
        UpdateSign::Minus => Operator::Subtract,
        UpdateSign::Times => Operator::Multiply,
        UpdateSign::Divide => Operator::Divide,
    }
}

/// `++` adds, and `--` subtracts.
pub fn count_operator(sign: CountSign) -> Operator
    ensures { result ≡ heads.update_operator (view.counted sign) }
{
    match sign {
        CountSign::Increment => Operator::Add,
        CountSign::Decrement => Operator::Subtract,
    }
}

/// What a type takes.
///
/// Source: BrightScript Language Reference, "Types".
pub fn value_type(word: Option<TypeWord>) -> ValueType
    ensures { result ≡ heads.value_type word }
{
    match word {
        None => ValueType::Any,
        Some(TypeWord::Integer) => ValueType::Integer,
        Some(TypeWord::LongInteger) => ValueType::LongInteger,
        Some(TypeWord::String) => ValueType::String,
        Some(TypeWord::Boolean) => ValueType::Boolean,
        Some(TypeWord::Function) => ValueType::Function,
        Some(TypeWord::Object) => ValueType::Any,
        Some(TypeWord::Dynamic) => ValueType::Any,
        Some(TypeWord::Interface) => ValueType::Any,
        Some(TypeWord::Void) => ValueType::Any,
    }
}

pub fn number_instr(number: &[u8]) -> Instr
    ensures { result ≡ heads.number_instr (words.number_of number.now) }
{
    match number_of(number) {
        NumberValue::Integer(n) => Instr::Integer(n),
        NumberValue::LongInteger(n) => Instr::LongInteger(n),
    }
}

/// The read of a variable, or of `m`.
pub fn name_draft(alloc: Global, name: &Name, line: u32) -> Result<Draft, NoMemory>
    ensures { IfOk result (λ d. d ≡ drafts.name_draft (folded name.now.text) line) }
{
    let folded = folded_bytes(alloc, name.text.as_slice())?;
    if is_m(folded.as_slice()) {
        Ok(Draft::Plain(Instr::LoadM, line))
    } else {
        Ok(Draft::Slot(Instr::Load(0), line, folded))
    }
}

/// An instruction that names a variable.
pub fn slot_draft(alloc: Global, instr: Instr, line: u32, name: &Name) -> Result<Draft, NoMemory>
    ensures { IfOk result (λ d. d ≡ draft.Slot instr line (folded name.now.text)) }
{
    Ok(Draft::Slot(instr, line, folded_bytes(alloc, name.text.as_slice())?))
}

/// The folded name of a member.
pub fn member_text(alloc: Global, name: &Name) -> Result<Text, NoMemory>
    ensures { IfOk result (λ t. t ≡ readable (folded name.now.text)) }
{
    let folded = folded_bytes(alloc, name.text.as_slice())?;
    readable_text(alloc, folded.as_slice())
}

/// An instruction that names a member.
pub fn word_draft(alloc: Global, instr: Instr, line: u32, name: &Name) -> Result<Draft, NoMemory>
    ensures { IfOk result (λ d. d ≡ draft.Word instr line (readable (folded name.now.text))) }
{
    Ok(Draft::Word(instr, line, member_text(alloc, name)?))
}

/// The folded key of a pair.
pub fn key_word(alloc: Global, key: &Key) -> Result<Text, NoMemory>
    ensures { IfOk result (λ t. t ≡ key_of (form_key key.now)) }
{
    match key {
        Key::Word(name) => member_text(alloc, name),
        Key::Quoted(_, text) => key_text(alloc, text.as_slice()),
    }
}
