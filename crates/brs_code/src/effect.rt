//! What an instruction does with the number of operands, and where it leads.
ghost use Rattle.std.specs.Prelude.{◌≡◌, ◌^◌, ◌≤◌, MatchOption};
ghost use Rattle.brs_code.specs.Instruction as spec;

use crate::Instr;

/// Where else an instruction may lead than to the next one, and how many operands it leaves there.
#[derive(Clone, Copy, Debug, PartialEq, Eq)]
pub struct Turn {
    pub to: usize,
    pub leaves: usize,
}

/// How many operands it takes, `None` where these are more than can stand on a stack.
pub(crate) fn pops(instr: Instr) -> Option<usize>
    ensures { MatchOption result (2 ^ 64 ≤ spec.pops instr) (λ count. count ≡ spec.pops instr) }
{
    match instr {
        Instr::MakeArray(count) => Some(count),
        Instr::MakePairs(_, count) => Some(count),
        Instr::Negate => Some(1),
        Instr::Not => Some(1),
        Instr::Binary(_) => Some(2),
        Instr::AndTest(_) => Some(1),
        Instr::OrTest(_) => Some(1),
        Instr::Member(_) => Some(1),
        Instr::Index => Some(2),
        Instr::CallMember(_, count) => count.checked_add(1),
        Instr::Call(count) => count.checked_add(1),
        Instr::Store(_) => Some(1),
        Instr::StoreMember(_) => Some(2),
        Instr::StoreIndex => Some(3),
        Instr::KeepMember(_) => Some(1),
        Instr::KeepIndex => Some(2),
        Instr::Drop => Some(1),
        Instr::Print(_, _, values) => Some(values),
        Instr::Return => Some(1),
        Instr::Branch(_) => Some(1),
        Instr::For(_) => Some(2),
        Instr::ForStep(_) => Some(3),
        Instr::ForTest(_, _) => Some(2),
        Instr::ForNext(_, _) => Some(2),
        Instr::ForEach(_) => Some(1),
        Instr::EachNext(_, _) => Some(1),
        Instr::Exit(count, _) => Some(count),
        Instr::Bind(_) => Some(1),
        _ => Some(0),
    }
}

/// How many operands it leaves where it goes on to the next instruction, `None` where it doesn't.
pub(crate) fn goes_on(instr: Instr) -> Option<usize>
    ensures { result ≡ spec.goes_on instr }
{
    match instr {
        Instr::Store(_) => Some(0),
        Instr::StoreMember(_) => Some(0),
        Instr::StoreIndex => Some(0),
        Instr::KeepMember(_) => Some(2),
        Instr::KeepIndex => Some(3),
        Instr::Drop => Some(0),
        Instr::Print(_, _, _) => Some(0),
        Instr::Return => None,
        Instr::ReturnInvalid => None,
        Instr::End => None,
        Instr::Branch(_) => Some(0),
        Instr::Jump(_) => None,
        Instr::While => Some(0),
        Instr::Again(_) => None,
        Instr::For(_) => Some(2),
        Instr::ForStep(_) => Some(2),
        Instr::ForTest(_, _) => Some(2),
        Instr::ForNext(_, _) => None,
        Instr::ForEach(_) => None,
        Instr::EachNext(_, _) => Some(0),
        Instr::Exit(_, _) => None,
        Instr::Bind(_) => Some(0),
        _ => Some(1),
    }
}

/// Where else it may lead.
pub(crate) fn turn_of(instr: Instr) -> Option<Turn>
    ensures { result ≡ spec.turn instr }
{
    match instr {
        Instr::AndTest(to) => Some(Turn { to, leaves: 1 }),
        Instr::OrTest(to) => Some(Turn { to, leaves: 1 }),
        Instr::Branch(to) => Some(Turn { to, leaves: 0 }),
        Instr::Jump(to) => Some(Turn { to, leaves: 0 }),
        Instr::Again(to) => Some(Turn { to, leaves: 0 }),
        Instr::ForTest(_, to) => Some(Turn { to, leaves: 0 }),
        Instr::ForNext(_, to) => Some(Turn { to, leaves: 2 }),
        Instr::ForEach(to) => Some(Turn { to, leaves: 1 }),
        Instr::EachNext(_, to) => Some(Turn { to, leaves: 1 }),
        Instr::Exit(_, to) => Some(Turn { to, leaves: 0 }),
        _ => None,
    }
}

/// Whether its turn takes no step.
pub(crate) fn is_free_turn(instr: Instr) -> bool
    ensures { result ≡ spec.is_free_turn instr }
{
    match instr {
        Instr::Jump(_) => true,
        _ => false,
    }
}
