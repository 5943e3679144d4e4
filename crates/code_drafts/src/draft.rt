//! Instructions whose names are not yet in tables.

use brs_code::{Instr, Mark, ValueType};
use chan_values::Text;
use sqlite_items::Items;

/// An instruction with its line, and with what it names. The index of that is 0. A jump forward says how many instructions it passes
/// over, and one backward how many instructions it goes back.
#[derive(Drop)]
pub enum Draft {
    /// It names nothing.
    Plain(Instr, u32),
    /// It names a variable, by its folded name.
    Slot(Instr, u32, Items<u8>),
    /// It names a text or a member.
    Word(Instr, u32, Text),
    /// It names keys.
    Words(Instr, u32, Items<Text>),
    /// It names the marks of a `print`.
    Marks(Instr, u32, Items<Mark>),
    /// An anonymous function: its line, its parameters from the last to the first, how many arguments it needs, what its value has to be, how many instructions its
    /// body has with its end, and its code from the last instruction to the first.
    Function(u32, Items<DraftParameter>, usize, ValueType, usize, Items<Draft>),
}

/// A parameter.
#[derive(Drop)]
pub struct DraftParameter {
    /// Its folded name.
    pub name: Items<u8>,
    pub kind: ValueType,
    /// How many instructions stand from its entry on.
    pub after: usize,
}
