//! What a sign or the name of a type stands for, and whether a name with what stands behind it is a call.
ghost use Rattle.std.specs.Prelude.{◌≡◌};
ghost use Rattle.brs_grammar.specs.Leaves as leaves;
ghost use Rattle.brs_grammar.specs.StatementWords as words;
ghost use Rattle.brs_grammar.specs.Statements as statements;

use crate::tree::{
    ComparisonSign, CountSign, Postfix, ProductSign, ShiftSign, SumSign, Target, TypeWord,
    UpdateSign,
};
use grammar_rules::Word;

/// The operator of a product. A word that is none of its signs counts as `mod`.
#[tactic(auto, unfolding(grammar_rules::specs::Words::same_word))]
pub fn product_sign(word: Word) -> ProductSign
    ensures { result ≡ leaves.product_sign word }
{
    match word {
        Word::Star => ProductSign::Times,
        Word::Backslash => ProductSign::Divide,
        _ => ProductSign::Modulo,
    }
}

/// The operator of a sum. A word that is none of its signs counts as `-`.
#[tactic(auto, unfolding(grammar_rules::specs::Words::same_word))]
pub fn sum_sign(word: Word) -> SumSign
    ensures { result ≡ leaves.sum_sign word }
{
    match word {
        Word::Plus => SumSign::Plus,
        _ => SumSign::Minus,
    }
}

/// The operator of a shift. A word that is none of its signs counts as `>>`.
#[tactic(auto, unfolding(grammar_rules::specs::Words::same_word))]
pub fn shift_sign(word: Word) -> ShiftSign
    ensures { result ≡ leaves.shift_sign word }
{
    match word {
        Word::ShiftLeft => ShiftSign::Left,
        _ => ShiftSign::Right,
    }
}

/// The operator of a comparison. A word that is none of its signs counts as `>=`.
#[tactic(auto, unfolding(grammar_rules::specs::Words::same_word))]
pub fn comparison_sign(word: Word) -> ComparisonSign
    ensures { result ≡ leaves.comparison_sign word }
{
    match word {
        Word::Equal => ComparisonSign::Equal,
        Word::NotEqual => ComparisonSign::NotEqual,
        Word::Less => ComparisonSign::Less,
        Word::Greater => ComparisonSign::Greater,
        Word::LessEqual => ComparisonSign::LessEqual,
        _ => ComparisonSign::GreaterEqual,
    }
}

/// The operator of `+=` and its kin. A word that is none of its signs counts as `\=`.
#[tactic(auto, unfolding(grammar_rules::specs::Words::same_word))]
pub fn update_sign(word: Word) -> UpdateSign
    ensures { result ≡ words.update_sign word }
{
    match word {
        Word::PlusEqual => UpdateSign::Plus,
        Word::MinusEqual => UpdateSign::Minus,
        Word::StarEqual => UpdateSign::Times,
        _ => UpdateSign::Divide,
    }
}

/// `++` or `--`. A word that is neither counts as `--`.
#[tactic(auto, unfolding(grammar_rules::specs::Words::same_word))]
pub fn count_sign(word: Word) -> CountSign
    ensures { result ≡ words.count_sign word }
{
    match word {
        Word::PlusPlus => CountSign::Increment,
        _ => CountSign::Decrement,
    }
}

/// The type of a name. A word that is no type counts as `void`.
#[tactic(auto, unfolding(grammar_rules::specs::Words::same_word))]
pub fn type_of(word: Word) -> TypeWord
    ensures { result ≡ words.type_of word }
{
    match word {
        Word::Integer => TypeWord::Integer,
        Word::LongInteger => TypeWord::LongInteger,
        Word::String => TypeWord::String,
        Word::Boolean => TypeWord::Boolean,
        Word::Object => TypeWord::Object,
        Word::Dynamic => TypeWord::Dynamic,
        Word::Function => TypeWord::Function,
        Word::Interface => TypeWord::Interface,
        _ => TypeWord::Void,
    }
}

fn is_call(part: &Postfix) -> bool
    ensures { result ≡ statements.is_call part.now }
{
    match part {
        Postfix::Arguments(_, _) => true,
        _ => false,
    }
}

fn last_is_call(parts: &[Postfix]) -> bool
    ensures { result ≡ statements.last_is_call parts.now }
{
    let mut found = false;
    for part in parts {
        found = is_call(part);
    }
    found
}

/// Whether a name with what stands behind it ends in a call: then it is a statement, and else a target. Takes no memory.
pub fn ends_in_call(target: &Target) -> bool
    ensures { result ≡ statements.ends_in_call target.now }
{
    last_is_call(target.more.as_slice())
}
