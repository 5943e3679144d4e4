//! What no clause says: the happy paths.
use brs_code::Instr;
use brs_grammar::tree::{Key, Name};
use brs_tokens::Place;
use chan_values::NoMemory;
use code_drafts::{
    Buffer, Draft, and_operand, arm_blocks, each_loop, for_loop, inside_for, key_word, keys, marks,
    no_loops, or_operand, set_draft, while_loop,
};
use sqlite_items::Items;
use std::alloc::Global;
use std::test::Fail;

fn one(alloc: Global) -> Result<Buffer, NoMemory> {
    let mut code = Buffer::new(alloc);
    code.push(Draft::Plain(Instr::Drop, 1))?;
    Ok(code)
}

/// The whole of each form, one instruction for each of its parts.
fn forms(alloc: Global, name: &Name) -> Result<usize, NoMemory> {
    let mut code = Buffer::new(alloc);
    or_operand(&mut code, 1, one(alloc)?)?;
    and_operand(&mut code, 1, one(alloc)?)?;
    arm_blocks(&mut code, 1, one(alloc)?)?;
    while_loop(&mut code, 1, one(alloc)?, one(alloc)?)?;
    for_loop(alloc, &mut code, 1, true, name, one(alloc)?)?;
    each_loop(alloc, &mut code, 1, name, one(alloc)?)?;
    code.push(set_draft(alloc, name, &[])?)?;
    Ok(code.len())
}

#[test]
fn forms_are_put_together(rt: HostRuntime) -> Result<(), Fail> {
    let alloc = rt.alloc();
    let name = Name {
        place: Place { line: 1, column: 1 },
        text: Items::from_slice(alloc, b"Count")?,
    };
    assert_eq!(rt; forms(alloc, &name)?, 3 + 3 + 3 + 5 + 4 + 3 + 1);
    assert_eq!(rt; inside_for(2, no_loops())?.while_keeps, 2);
    assert_eq!(rt; keys(alloc, &[])?.len(), 0);
    assert_eq!(rt; marks(alloc, &[])?.len(), 0);
    assert_eq!(rt; key_word(alloc, &Key::Word(name))?.as_str(), "count");
    Ok(())
}
