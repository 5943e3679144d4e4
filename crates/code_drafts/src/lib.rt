//! The code of a tree before its names stand in tables: jumps count instructions, and each instruction holds what it names.
//!
//! Code is made from its last instruction to its first, so that each jump forward knows how far it leads, and nothing is patched.
#![tactic(auto)]

mod buffer;
mod draft;
mod exits;
mod lists;
mod postfix;
mod shapes;
mod target;
mod words;

pub use buffer::Buffer;
pub use draft::{Draft, DraftParameter};
pub use exits::{exit_instr, farther, inside_for, inside_while, no_loops};
pub use lists::{count_values, keys, marks, needed};
pub use postfix::{call_draft, is_called, name_before};
pub use shapes::{and_operand, arm_blocks, each_loop, for_loop, or_operand, while_loop};
pub use target::{keep_draft, set_draft};
pub use words::{
    comparison_operator, count_operator, key_word, member_text, name_draft, number_instr,
    product_operator, shift_operator, slot_draft, sum, sum_operator, update_operator, value_type,
    word_draft,
};
