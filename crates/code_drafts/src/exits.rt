//! Where an `exit` leads.
ghost use Rattle.std.specs.Prelude.{◌≡◌, IfOk};
ghost use Rattle.code_relation.specs.Heads as heads;
ghost use Rattle.code_drafts.specs.DraftCode as drafts;

use crate::words::sum;
use brs_code::Instr;
use brs_grammar::tree::LoopKind;
use chan_values::NoMemory;
use code_relation::Exits;

/// At the end of a body.
pub fn no_loops() -> Exits
    ensures { result ≡ drafts.no_loops }
{
    Exits {
        for_to: 0,
        for_keeps: 0,
        while_to: 0,
        while_keeps: 0,
    }
}

/// Before this many instructions more.
pub fn farther(by: usize, exits: Exits) -> Result<Exits, NoMemory>
    ensures { IfOk result (λ x. x ≡ drafts.farther by exits) }
{
    Ok(Exits {
        for_to: sum(exits.for_to, by)?,
        for_keeps: exits.for_keeps,
        while_to: sum(exits.while_to, by)?,
        while_keeps: exits.while_keeps,
    })
}

/// At the end of the body of a `for` that keeps this many operands.
pub fn inside_for(keeps: usize, exits: Exits) -> Result<Exits, NoMemory>
    ensures { IfOk result (λ x. x ≡ drafts.inside_for keeps exits) }
{
    Ok(Exits {
        for_to: 1,
        for_keeps: keeps,
        while_to: sum(exits.while_to, 1)?,
        while_keeps: sum(exits.while_keeps, keeps)?,
    })
}

/// At the end of the body of a `while`.
pub fn inside_while(exits: Exits) -> Result<Exits, NoMemory>
    ensures { IfOk result (λ x. x ≡ drafts.inside_while exits) }
{
    Ok(Exits {
        for_to: sum(exits.for_to, 1)?,
        for_keeps: exits.for_keeps,
        while_to: 1,
        while_keeps: 0,
    })
}

/// The instruction of an `exit`.
pub fn exit_instr(exits: Exits, kind: LoopKind) -> Instr
    ensures { result ≡ heads.exit_instr exits kind }
{
    match kind {
        LoopKind::For => Instr::Exit(exits.for_keeps, exits.for_to),
        LoopKind::While => Instr::Exit(exits.while_keeps, exits.while_to),
    }
}
