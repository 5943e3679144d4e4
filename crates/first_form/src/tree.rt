//! The syntax tree of a source file of the first form: one `main` of assignments and prints.

use chan_values::Text;
use sqlite_items::Items;

/// The lines of `main` that aren't blank, in order.
#[derive(Drop)]
pub struct FirstMain {
    pub lines: Items<Line>,
}

/// A statement, which stands alone on its line.
#[derive(Drop)]
pub enum Line {
    /// A sum is given to a local, by its folded name.
    Assign(Text, Sum),
    /// Items are printed one after another, with nothing between them.
    Print(Items<PrintItem>),
}

/// What is printed.
#[derive(Drop)]
pub enum PrintItem {
    /// A text, without its quotes.
    Words(Text),
    /// A whole number.
    Sum(Sum),
}

/// Operands from left to right, with a sign before each but the first.
#[derive(Drop)]
pub struct Sum {
    pub first: Operand,
    pub more: Items<Term>,
}

/// An operand with the sign before it.
#[derive(Drop)]
pub struct Term {
    pub sign: Sign,
    pub operand: Operand,
}

/// Whether an operand is added or taken away.
#[derive(Clone, Copy, Debug, PartialEq, Eq)]
pub enum Sign {
    Plus,
    Minus,
}

/// What is added.
#[derive(Drop)]
pub enum Operand {
    /// A number from 0 to 2,147,483,647.
    Number(i32),
    /// A local, by its folded name.
    Name(Text),
}
