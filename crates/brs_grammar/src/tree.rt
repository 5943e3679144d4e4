//! The syntax tree of a source file.
//!
//! A rule with several forms is an enum with a variant for each form, and the parts of a form stand in the rule's order. Each repetition and
//! each chain of operators of one level is one form with a list, so no tree is deeper than a fixed multiple of the nesting number. A tree owns
//! its texts, as they were written. A `Place` is that of the first token of a form, or of the operator, sign, dot or opening bracket beside it.
//!
//! Source: BrightScript Language Reference, "Statements" and "Expressions".

use brs_tokens::Place;
use sqlite_items::{Boxed, Items};

/// A name, or a word behind a dot or before a colon.
#[derive(Drop)]
pub struct Name {
    pub place: Place,
    /// The bytes as written.
    pub text: Items<u8>,
}

/// The type of a parameter or of a function's value.
#[derive(Clone, Copy, Debug, PartialEq, Eq)]
pub enum TypeWord {
    Integer,
    LongInteger,
    String,
    Boolean,
    Object,
    Dynamic,
    Function,
    Interface,
    Void,
}

/// The kind of loop that an `exit` leaves. A `for each` is a loop of the kind `For`.
#[derive(Clone, Copy, Debug, PartialEq, Eq)]
pub enum LoopKind {
    For,
    While,
}

/// `+=`, `-=`, `*=` or `\=`.
#[derive(Clone, Copy, Debug, PartialEq, Eq)]
pub enum UpdateSign {
    Plus,
    Minus,
    Times,
    Divide,
}

/// `++` or `--`.
#[derive(Clone, Copy, Debug, PartialEq, Eq)]
pub enum CountSign {
    Increment,
    Decrement,
}

/// `=`, `<>`, `<`, `>`, `<=` or `>=`.
#[derive(Clone, Copy, Debug, PartialEq, Eq)]
pub enum ComparisonSign {
    Equal,
    NotEqual,
    Less,
    Greater,
    LessEqual,
    GreaterEqual,
}

/// `<<` or `>>`.
#[derive(Clone, Copy, Debug, PartialEq, Eq)]
pub enum ShiftSign {
    Left,
    Right,
}

/// `+` or `-`.
#[derive(Clone, Copy, Debug, PartialEq, Eq)]
pub enum SumSign {
    Plus,
    Minus,
}

/// `*`, `\` or `mod`.
#[derive(Clone, Copy, Debug, PartialEq, Eq)]
pub enum ProductSign {
    Times,
    Divide,
    Modulo,
}

/// A source file: its named functions in order.
#[derive(Drop)]
pub struct FileTree {
    pub functions: Items<NamedFunction>,
}

/// A named function or sub, with the place of its first word.
#[derive(Drop)]
pub enum NamedFunction {
    Function(Place, Name, Rest),
    Sub(Place, Name, Rest),
}

/// What follows the name of a function, or the first word of one without a name: its parameters, the type of its value, and its body.
#[cycle(tree)]
#[derive(Drop)]
pub struct Rest {
    pub parameters: Items<Parameter>,
    pub value: Option<TypeWord>,
    pub body: Items<Statement>,
}

/// A parameter, its default and its type.
#[cycle(tree)]
#[derive(Drop)]
pub struct Parameter {
    pub name: Name,
    pub default: Option<Expression>,
    pub kind: Option<TypeWord>,
}

/// A statement of a block.
#[cycle(tree)]
#[derive(Drop)]
pub enum Statement {
    Simple(Simple),
    /// The first arm, the further arms in order, and the block behind `else`.
    BlockIf(BlockArm, Items<BlockArm>, Option<Items<Statement>>),
    /// The place of `for`, the variable, the start, the end, the step, and the block.
    /// The three expressions are boxed, since they would make each statement of a block more than twice as large.
    For(
        Place,
        Name,
        Boxed<Expression>,
        Boxed<Expression>,
        Option<Boxed<Expression>>,
        Items<Statement>,
    ),
    /// The place of `for`, the variable, what is gone over, and the block.
    ForEach(Place, Name, Expression, Items<Statement>),
    While(Place, Expression, Items<Statement>),
    /// An `if` in one line: the first arm, the further arms in order, and the statements behind `else`.
    LineIf(LineArm, Items<LineArm>, Option<Items<Simple>>),
}

/// An arm of an `if` with blocks: the place of `if`, `elseif` or `else`, the condition, and the block.
#[cycle(tree)]
#[derive(Drop)]
pub struct BlockArm {
    pub place: Place,
    pub condition: Expression,
    pub block: Items<Statement>,
}

/// An arm of an `if` in one line: the place of `if`, `elseif` or `else`, the condition, and the statements.
#[cycle(tree)]
#[derive(Drop)]
pub struct LineArm {
    pub place: Place,
    pub condition: Expression,
    pub run: Items<Simple>,
}

/// A statement that stands in one line.
#[cycle(tree)]
#[derive(Drop)]
pub enum Simple {
    /// A target, the place of `=`, and the value.
    Assign(Target, Place, Expression),
    /// A target, the place of the sign, and the other operand.
    Update(Target, Place, UpdateSign, Expression),
    /// A target, and the place of the sign.
    Count(Target, Place, CountSign),
    /// A call, whose value is dropped.
    Call(Target),
    Print(Place, Items<PrintItem>),
    Return(Place, Option<Expression>),
    Exit(Place, LoopKind),
}

/// A separator or a value of a `print`.
#[cycle(tree)]
#[derive(Drop)]
pub enum PrintItem {
    Semicolon,
    Comma,
    Value(Expression),
}

/// A name with members, indexes and calls behind it: what is assigned to, or a call.
#[cycle(tree)]
#[derive(Drop)]
pub struct Target {
    pub name: Name,
    pub more: Items<Postfix>,
}

/// What stands behind a value, with the place of its dot or its opening bracket.
#[cycle(tree)]
#[derive(Drop)]
pub enum Postfix {
    Member(Place, Name),
    Index(Place, Expression),
    Arguments(Place, Items<Expression>),
}

/// A chain of `or`.
#[cycle(tree)]
#[derive(Drop)]
pub struct Expression {
    pub first: Conjunction,
    pub more: Items<OrPart>,
}

/// A further operand of a chain of `or`, with the place of the operator.
#[cycle(tree)]
#[derive(Drop)]
pub struct OrPart {
    pub place: Place,
    pub operand: Conjunction,
}

/// A chain of `and`.
#[cycle(tree)]
#[derive(Drop)]
pub struct Conjunction {
    pub first: Negation,
    pub more: Items<AndPart>,
}

/// A further operand of a chain of `and`, with the place of the operator.
#[cycle(tree)]
#[derive(Drop)]
pub struct AndPart {
    pub place: Place,
    pub operand: Negation,
}

/// `not` before an operand, or a comparison.
#[cycle(tree)]
#[derive(Drop)]
pub enum Negation {
    Not(Place, Boxed<Negation>),
    Plain(Comparison),
}

/// A chain of comparisons.
#[cycle(tree)]
#[derive(Drop)]
pub struct Comparison {
    pub first: Shift,
    pub more: Items<ComparisonPart>,
}

/// A further operand of a chain of comparisons, with its operator and the place of that.
#[cycle(tree)]
#[derive(Drop)]
pub struct ComparisonPart {
    pub place: Place,
    pub sign: ComparisonSign,
    pub operand: Shift,
}

/// A chain of `<<` and `>>`.
#[cycle(tree)]
#[derive(Drop)]
pub struct Shift {
    pub first: Sum,
    pub more: Items<ShiftPart>,
}

/// A further operand of a chain of `<<` and `>>`, with its operator and the place of that.
#[cycle(tree)]
#[derive(Drop)]
pub struct ShiftPart {
    pub place: Place,
    pub sign: ShiftSign,
    pub operand: Sum,
}

/// A chain of `+` and `-`.
#[cycle(tree)]
#[derive(Drop)]
pub struct Sum {
    pub first: Product,
    pub more: Items<SumPart>,
}

/// A further operand of a chain of `+` and `-`, with its operator and the place of that.
#[cycle(tree)]
#[derive(Drop)]
pub struct SumPart {
    pub place: Place,
    pub sign: SumSign,
    pub operand: Product,
}

/// A chain of `*`, `\` and `mod`.
#[cycle(tree)]
#[derive(Drop)]
pub struct Product {
    pub first: Minus,
    pub more: Items<ProductPart>,
}

/// A further operand of a chain of `*`, `\` and `mod`, with its operator and the place of that.
#[cycle(tree)]
#[derive(Drop)]
pub struct ProductPart {
    pub place: Place,
    pub sign: ProductSign,
    pub operand: Minus,
}

/// `-` before an operand, or a value.
#[cycle(tree)]
#[derive(Drop)]
pub enum Minus {
    Negative(Place, Boxed<Minus>),
    Positive(Value),
}

/// A primary expression with members, indexes and calls behind it.
#[cycle(tree)]
#[derive(Drop)]
pub struct Value {
    pub first: Primary,
    pub more: Items<Postfix>,
}

/// A primary expression.
#[cycle(tree)]
#[derive(Drop)]
pub enum Primary {
    /// The digits as written.
    Number(Place, Items<u8>),
    /// The text as written, with its quotes.
    Text(Place, Items<u8>),
    True(Place),
    False(Place),
    Invalid(Place),
    Variable(Name),
    Bracketed(Place, Boxed<Expression>),
    Array(Place, Items<Expression>),
    Pairs(Place, Items<Pair>),
    AnonymousFunction(Place, Rest),
    AnonymousSub(Place, Rest),
}

/// The key of a pair.
#[derive(Drop)]
pub enum Key {
    Word(Name),
    /// The text as written, with its quotes.
    Quoted(Place, Items<u8>),
}

/// A key and its value.
#[cycle(tree)]
#[derive(Drop)]
pub struct Pair {
    pub key: Key,
    pub value: Expression,
}
