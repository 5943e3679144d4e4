//! The steps of a function, counted by a walk over its code.
use brs_code::{Function, Instr};

/// Where an instruction may lead beside the next one.
fn other_way(instr: Instr) -> Option<usize> {
    match instr {
        Instr::AndTest(to) => Some(to),
        Instr::OrTest(to) => Some(to),
        Instr::Branch(to) => Some(to),
        Instr::ForTest(_, to) => Some(to),
        Instr::EachNext(_, to) => Some(to),
        _ => None,
    }
}

/// Where an instruction leads that never goes on to the next one.
fn only_way(instr: Instr) -> Option<usize> {
    match instr {
        Instr::Jump(to) => Some(to),
        Instr::Again(to) => Some(to),
        Instr::ForNext(_, to) => Some(to),
        Instr::ForEach(to) => Some(to),
        Instr::Exit(_, to) => Some(to),
        _ => None,
    }
}

fn is_last(instr: Instr) -> bool {
    match instr {
        Instr::Return => true,
        Instr::ReturnInvalid => true,
        Instr::End => true,
        _ => false,
    }
}

/// Whether an instruction takes a step: a jump takes none, nor does a test of `and` or `or` that decides nothing.
fn is_step(instr: Instr, turns: bool) -> bool {
    match instr {
        Instr::Jump(_) => false,
        Instr::AndTest(_) => turns,
        Instr::OrTest(_) => turns,
        _ => true,
    }
}

/// How many steps a call with all arguments takes, up to a return or its end, and at most a thousand. The letters say in turn of each
/// instruction that may lead to two places whether it goes on, `g`, or turns, `t`.
pub fn steps(function: &Function, ways: &str) -> usize {
    let code = function.code.as_slice();
    let mut letters = ways.as_bytes().iter();
    let mut at = function.start;
    let mut steps: usize = 0;
    for _ in 0..1_000 {
        let Some(placed) = code.get(at) else {
            return steps;
        };
        let turn = other_way(placed.instr);
        let turns = match turn {
            Some(_) => letters.next() == Some(&b't'),
            None => false,
        };
        if is_step(placed.instr, turns) {
            steps = steps.saturating_add(1);
        }
        if is_last(placed.instr) {
            return steps;
        }
        let ahead = only_way(placed.instr).unwrap_or(at.saturating_add(1));
        at = if turns { turn.unwrap_or(ahead) } else { ahead };
    }
    steps
}
