//! Classes of words: the signs of each level, and the words that begin a form.
ghost use Rattle.std.specs.Prelude.{◌≡◌};
ghost use Rattle.brs_grammar.specs.Leaves as leaves;
ghost use Rattle.brs_grammar.specs.ReadLeaves as begins;
ghost use Rattle.brs_grammar.specs.ReadStatementWords as begins_statement;
ghost use Rattle.brs_grammar.specs.StatementWords as words;

use grammar_rules::{Word, is_name, is_word, same_word};

/// `*`, `\` or `mod`.
#[tactic(auto, unfolding(grammar_rules::specs::Words::same_word))]
pub fn is_product_sign(word: Word) -> bool
    ensures { result ≡ leaves.is_product_sign word }
{
    matches!(word, Word::Star | Word::Backslash | Word::Mod)
}

/// `+` or `-`.
#[tactic(auto, unfolding(grammar_rules::specs::Words::same_word))]
pub fn is_sum_sign(word: Word) -> bool
    ensures { result ≡ leaves.is_sum_sign word }
{
    matches!(word, Word::Plus | Word::Minus)
}

/// `<<` or `>>`.
#[tactic(auto, unfolding(grammar_rules::specs::Words::same_word))]
pub fn is_shift_sign(word: Word) -> bool
    ensures { result ≡ leaves.is_shift_sign word }
{
    matches!(word, Word::ShiftLeft | Word::ShiftRight)
}

/// `=`, `<>`, `<`, `>`, `<=` or `>=`.
#[tactic(auto, unfolding(grammar_rules::specs::Words::same_word))]
pub fn is_comparison_sign(word: Word) -> bool
    ensures { result ≡ leaves.is_comparison_sign word }
{
    matches!(
        word,
        Word::Equal
            | Word::NotEqual
            | Word::Less
            | Word::Greater
            | Word::LessEqual
            | Word::GreaterEqual
    )
}

/// `+=`, `-=`, `*=` or `\=`.
#[tactic(auto, unfolding(grammar_rules::specs::Words::same_word))]
pub fn is_update_sign(word: Word) -> bool
    ensures { result ≡ words.is_update_sign word }
{
    matches!(
        word,
        Word::PlusEqual | Word::MinusEqual | Word::StarEqual | Word::BackslashEqual
    )
}

/// `++` or `--`.
#[tactic(auto, unfolding(grammar_rules::specs::Words::same_word))]
pub fn is_count_sign(word: Word) -> bool
    ensures { result ≡ words.is_count_sign word }
{
    matches!(word, Word::PlusPlus | Word::MinusMinus)
}

/// The name of a type, or the keyword `function`.
#[tactic(auto, unfolding(grammar_rules::specs::Words::same_word))]
pub fn is_type(word: Word) -> bool
    ensures { result ≡ words.is_type word }
{
    matches!(
        word,
        Word::Integer
            | Word::LongInteger
            | Word::String
            | Word::Boolean
            | Word::Object
            | Word::Dynamic
            | Word::Function
            | Word::Interface
            | Word::Void
    )
}

/// Begins a gap between items.
#[tactic(auto, unfolding(grammar_rules::specs::Words::same_word))]
pub fn begins_gap(word: Word) -> bool
    ensures { result ≡ begins.begins_gap word }
{
    matches!(word, Word::Newline | Word::Comma)
}

/// Begins a pair.
pub fn begins_key(word: Word) -> bool
    ensures { result ≡ begins.begins_key word }
{
    is_word(word) || same_word(Word::Text, word)
}

/// Begins a primary expression.
#[tactic(auto, unfolding(grammar_rules::specs::Words::same_word))]
pub fn begins_value(word: Word) -> bool
    ensures { result ≡ begins.begins_value word }
{
    matches!(
        word,
        Word::Number
            | Word::Text
            | Word::True
            | Word::False
            | Word::Invalid
            | Word::Open
            | Word::OpenBracket
            | Word::OpenBrace
            | Word::Function
            | Word::Sub
    ) || is_name(word)
}

/// Begins an operand of a product.
pub fn begins_minus(word: Word) -> bool
    ensures { result ≡ begins.begins_minus word }
{
    same_word(Word::Minus, word) || begins_value(word)
}

/// Begins an expression.
pub fn begins_expression(word: Word) -> bool
    ensures { result ≡ begins.begins_expression word }
{
    same_word(Word::Not, word) || begins_minus(word)
}

/// Begins a member, an index or arguments.
#[tactic(auto, unfolding(grammar_rules::specs::Words::same_word))]
pub fn begins_postfix(word: Word) -> bool
    ensures { result ≡ begins.begins_postfix word }
{
    matches!(word, Word::Dot | Word::OpenBracket | Word::Open)
}

/// Ends a statement.
#[tactic(auto, unfolding(grammar_rules::specs::Words::same_word))]
pub fn begins_separator(word: Word) -> bool
    ensures { result ≡ begins_statement.begins_separator word }
{
    matches!(word, Word::Newline | Word::Colon)
}

/// Begins an `exit`.
#[tactic(auto, unfolding(grammar_rules::specs::Words::same_word))]
pub fn begins_exit(word: Word) -> bool
    ensures { result ≡ begins_statement.begins_exit word }
{
    matches!(word, Word::Exit | Word::ExitFor | Word::ExitWhile)
}

/// Stands between the values of a `print`.
#[tactic(auto, unfolding(grammar_rules::specs::Words::same_word))]
pub fn begins_print_separator(word: Word) -> bool
    ensures { result ≡ begins_statement.begins_print_separator word }
{
    matches!(word, Word::Semicolon | Word::Comma)
}

/// Begins a `print`.
#[tactic(auto, unfolding(grammar_rules::specs::Words::same_word))]
pub fn begins_print(word: Word) -> bool
    ensures { result ≡ begins_statement.begins_print word }
{
    matches!(word, Word::Print | Word::Question)
}

/// Begins a statement that stands in one line.
pub fn begins_simple(word: Word) -> bool
    ensures { result ≡ begins_statement.begins_simple word }
{
    is_name(word) || begins_print(word) || same_word(Word::Return, word) || begins_exit(word)
}

/// Begins a statement or is an empty line.
#[tactic(auto, unfolding(grammar_rules::specs::Words::same_word))]
pub fn begins_line(word: Word) -> bool
    ensures { result ≡ begins_statement.begins_line word }
{
    is_name(word)
        || matches!(
            word,
            Word::Newline
                | Word::Colon
                | Word::Print
                | Word::Question
                | Word::Return
                | Word::Exit
                | Word::ExitFor
                | Word::ExitWhile
                | Word::If
                | Word::For
                | Word::While
        )
}

/// Begins a named function.
#[tactic(auto, unfolding(grammar_rules::specs::Words::same_word))]
pub fn begins_named(word: Word) -> bool
    ensures { result ≡ begins_statement.begins_named word }
{
    matches!(word, Word::Function | Word::Sub)
}
