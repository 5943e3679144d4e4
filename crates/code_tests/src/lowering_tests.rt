//! What no clause says: the happy paths.
use brs_code::{Instr, Mark};
use chan_values::Text;
use lowering_parts::{Slots, Tables, at_place, operands_after, with_index};
use std::test::Fail;

#[test]
fn a_name_has_one_slot(rt: HostRuntime) -> Result<(), Fail> {
    let alloc = rt.alloc();
    let mut slots = Slots::new(alloc);
    assert_eq!(rt; slots.slot(alloc, b"count")?, 0);
    assert_eq!(rt; slots.slot(alloc, b"total")?, 1);
    assert_eq!(rt; slots.slot(alloc, b"count")?, 0);
    assert_eq!(rt; slots.names(alloc)?.len(), 2);
    Ok(())
}

#[test]
fn texts_and_marks_go_last(rt: HostRuntime) -> Result<(), Fail> {
    let alloc = rt.alloc();
    let mut tables = Tables::new(alloc);
    assert_eq!(rt; tables.slot(alloc, b"x")?, 0);
    assert_eq!(rt; tables.text(alloc, &Text::new(alloc))?, 0);
    assert_eq!(rt; tables.text(alloc, &Text::new(alloc))?, 1);
    assert_eq!(rt; tables.words(alloc, &[Text::new(alloc)])?, 2);
    assert_eq!(rt; tables.marks(alloc, &[Mark::Value, Mark::Comma])?, 0);
    assert_eq!(rt; tables.marks(alloc, &[])?, 2);
    Ok(())
}

#[test]
fn jumps_lead_to_places_and_operands_are_counted(rt: HostRuntime) -> Result<(), Fail> {
    assert_eq!(rt; at_place(4, Instr::Branch(2))?, Instr::Branch(7));
    assert_eq!(rt; at_place(4, Instr::Again(3))?, Instr::Again(1));
    assert_eq!(rt;
        with_index(5, Instr::CallMember(0, 2)),
        Instr::CallMember(5, 2)
    );
    assert_eq!(rt; operands_after(Instr::Call(2), 4)?, 2);
    assert_eq!(rt; operands_after(Instr::ForNext(0, 1), 2)?, 0);
    Ok(())
}
