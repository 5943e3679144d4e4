//! Code that keeps the rule, code that breaks each part of it alone, and the code of several files.
use brs_code::{
    Code, Function, Instr, Mark, Operator, Parameter, Placed, ScopeEntry, ScopeList, ValueType,
    verify,
};
use chan_values::{NoMemory, Place, Text};
use sqlite_items::Items;
use std::alloc::{AllocError, Global};
use std::test::Fail;

const MARKS: [Mark; 4] = [Mark::Semicolon, Mark::Value, Mark::Comma, Mark::Value];

/// Where a function's code begins, and the slot of its parameter.
#[derive(Clone, Copy)]
struct Begins {
    slot: usize,
    entry: usize,
    start: usize,
}

const FIRST: Begins = Begins {
    slot: 0,
    entry: 0,
    start: 0,
};

fn at(instr: Instr, operands: usize) -> Placed {
    Placed {
        instr,
        line: 1,
        operands,
    }
}

fn one_name(alloc: Global) -> Result<Items<Items<u8>>, AllocError> {
    let name = Items::from_slice(alloc, b"x")?;
    let mut names = Items::new(alloc);
    names.push(name)?;
    Ok(names)
}

fn two_texts(alloc: Global) -> Result<Items<Text>, AllocError> {
    let mut texts = Items::new(alloc);
    texts.push(Text::new(alloc))?;
    texts.push(Text::new(alloc))?;
    Ok(texts)
}

/// A function with one slot, two texts, four marks and one parameter.
fn function(alloc: Global, code: &[Placed], begins: Begins) -> Result<Function, AllocError> {
    let parameter = Parameter {
        slot: begins.slot,
        kind: ValueType::Any,
        entry: begins.entry,
    };
    let parameters = Items::from_slice(alloc, &[parameter])?;
    let names = one_name(alloc)?;
    let texts = two_texts(alloc)?;
    let marks = Items::from_slice(alloc, &MARKS)?;
    let code = Items::from_slice(alloc, code)?;
    Ok(Function {
        path: 0,
        line: 7,
        first: 0,
        parameters,
        needed: 0,
        value: ValueType::Any,
        names,
        texts,
        marks,
        start: begins.start,
        code,
    })
}

/// The code of a file with one named function and one anonymous one.
fn file(alloc: Global, code: &[Placed], begins: Begins) -> Result<Code, NoMemory> {
    let mut file = Code::new(alloc);
    let Ok(named) = function(alloc, code, begins) else {
        return Err(NoMemory);
    };
    file.named.push(named)?;
    let Ok(anonymous) = function(alloc, &[at(Instr::End, 0)], FIRST) else {
        return Err(NoMemory);
    };
    file.anonymous.push(anonymous)?;
    Ok(file)
}

/// A scope in which `x` is the function of this number.
fn scope(alloc: Global, function: u32) -> Result<ScopeList, NoMemory> {
    let mut name = Text::new(alloc);
    name.push('x')?;
    let mut scope = ScopeList::new(alloc);
    scope.push(ScopeEntry { name, function })?;
    Ok(scope)
}

/// What `verify` says of this code with a scope 0.
fn keeps_rule(alloc: Global, code: &[Placed], begins: Begins) -> Result<bool, NoMemory> {
    let mut file = file(alloc, code, begins)?;
    let scope = scope(alloc, 0)?;
    if file.scopes.len() > 9 {
        return Ok(false);
    }
    file.add_scope(alloc, &scope)?;
    Ok(verify(file).is_ok())
}

#[test]
fn the_rule_is_kept(rt: HostRuntime) -> Result<(), Fail> {
    let rows: [&[Placed]; 6] = [
        &[at(Instr::End, 0)],
        &[
            at(Instr::Invalid, 0),
            at(Instr::Store(0), 1),
            at(Instr::Load(0), 0),
            at(Instr::Text(1), 1),
            at(Instr::Print(0, 4, 2), 2),
            at(Instr::ReturnInvalid, 0),
        ],
        &[
            at(Instr::While, 0),
            at(Instr::Truth(true), 0),
            at(Instr::Branch(4), 1),
            at(Instr::Again(1), 0),
            at(Instr::End, 0),
        ],
        &[
            at(Instr::Truth(true), 0),
            at(Instr::AndTest(4), 1),
            at(Instr::Function(0), 1),
            at(Instr::Binary(Operator::And), 2),
            at(Instr::Return, 1),
        ],
        &[
            at(Instr::Integer(1), 0),
            at(Instr::Integer(3), 1),
            at(Instr::For(0), 2),
            at(Instr::ForTest(0, 6), 2),
            at(Instr::Exit(2, 6), 2),
            at(Instr::ForNext(0, 3), 2),
            at(Instr::End, 0),
        ],
        &[
            at(Instr::Text(0), 0),
            at(Instr::Text(1), 1),
            at(Instr::MakePairs(0, 2), 2),
            at(Instr::Bind(0), 1),
            at(Instr::Jump(5), 0),
            at(Instr::End, 0),
        ],
    ];
    for code in rows {
        assert!(rt; keeps_rule(rt.alloc(), code, FIRST)?, "{code:?}");
    }
    Ok(())
}

#[test]
fn code_that_breaks_one_part_is_handed_back(rt: HostRuntime) -> Result<(), Fail> {
    let rows: [&[Placed]; 15] = [
        // It runs off the end.
        &[at(Instr::Invalid, 0)],
        // A turn leads one past the end.
        &[
            at(Instr::Truth(true), 0),
            at(Instr::Branch(3), 1),
            at(Instr::End, 0),
        ],
        // An instruction takes an operand that isn't there.
        &[at(Instr::Drop, 0), at(Instr::End, 0)],
        // The next instruction begins with another number of operands than are left.
        &[at(Instr::Invalid, 0), at(Instr::End, 0)],
        // One way leads to the end with an operand and one without.
        &[
            at(Instr::Truth(true), 0),
            at(Instr::Branch(3), 1),
            at(Instr::Invalid, 0),
            at(Instr::End, 1),
        ],
        &[
            at(Instr::Truth(true), 0),
            at(Instr::Branch(3), 1),
            at(Instr::Invalid, 0),
            at(Instr::End, 0),
        ],
        // A turn that takes no step leads back, or to itself.
        &[at(Instr::While, 0), at(Instr::Jump(0), 0)],
        &[at(Instr::Jump(0), 0)],
        // There is no such slot, text, key, mark, function or parameter.
        &[at(Instr::Load(1), 0), at(Instr::Return, 1)],
        &[at(Instr::Text(2), 0), at(Instr::Return, 1)],
        &[
            at(Instr::Invalid, 0),
            at(Instr::Invalid, 1),
            at(Instr::MakePairs(1, 2), 2),
            at(Instr::Return, 1),
        ],
        &[at(Instr::Print(2, 3, 1), 0), at(Instr::End, 0)],
        // Two values are printed of one operand.
        &[
            at(Instr::Invalid, 0),
            at(Instr::Print(0, 4, 1), 1),
            at(Instr::End, 0),
        ],
        &[at(Instr::Function(1), 0), at(Instr::Return, 1)],
        &[
            at(Instr::Invalid, 0),
            at(Instr::Bind(1), 1),
            at(Instr::End, 0),
        ],
    ];
    for code in rows {
        assert!(rt; !keeps_rule(rt.alloc(), code, FIRST)?, "{code:?}");
    }
    Ok(())
}

#[test]
fn a_call_begins_at_an_instruction_with_no_operands(rt: HostRuntime) -> Result<(), Fail> {
    let code = [at(Instr::Invalid, 0), at(Instr::Return, 1)];
    for (slot, entry, start, is_kept) in [
        (0, 0, 0, true),
        (1, 0, 0, false),
        (0, 1, 0, false),
        (0, 2, 0, false),
        (0, 0, 1, false),
        (0, 0, 2, false),
    ] {
        let begins = Begins { slot, entry, start };
        assert!(rt;
            keeps_rule(rt.alloc(), &code, begins)? == is_kept,
            "{slot} {entry} {start}"
        );
    }
    Ok(())
}

const CALLED: [Placed; 2] = [
    Placed {
        instr: Instr::Function(0),
        line: 8,
        operands: 0,
    },
    Placed {
        instr: Instr::Return,
        line: 8,
        operands: 1,
    },
];

/// The number of the first function of a file that is joined, and nothing where there are many functions.
fn join(code: &mut Code, path: u32, file: Code) -> Result<Option<u32>, NoMemory> {
    if code.function_count() > 99 || file.function_count() > 99 {
        return Ok(None);
    }
    Ok(Some(code.join(path, file)?))
}

#[test]
fn files_are_joined(rt: HostRuntime) -> Result<(), Fail> {
    let alloc = rt.alloc();
    let mut code = Code::new(alloc);
    assert_eq!(rt; join(&mut code, 3, file(alloc, &CALLED, FIRST)?)?, Some(0));
    assert_eq!(rt; join(&mut code, 5, file(alloc, &CALLED, FIRST)?)?, Some(1));
    assert!(rt;
        matches!(code.named.as_slice(), [f, g] if f.path == 3 && f.first == 0 && g.path == 5 && g.first == 1)
    );
    assert!(rt;
        matches!(code.anonymous.as_slice(), [f, g] if f.path == 3 && f.first == 0 && g.path == 5 && g.first == 1)
    );
    Ok(())
}

/// Whether the code of a file whose only scope names the function of this number is kept, and the heading of its function 0.
fn heading(alloc: Global, function: u32) -> Result<Option<Place>, NoMemory> {
    let mut code = Code::new(alloc);
    join(&mut code, 5, file(alloc, &CALLED, FIRST)?)?;
    let scope = scope(alloc, function)?;
    if code.scopes.len() > 9 {
        return Ok(None);
    }
    code.add_scope(alloc, &scope)?;
    Ok(match verify(code) {
        Ok(code) => code.heading(0),
        Err(_) => None,
    })
}

#[test]
fn a_scope_names_functions_that_are_there(rt: HostRuntime) -> Result<(), Fail> {
    let alloc = rt.alloc();
    assert!(rt; verify(file(alloc, &CALLED, FIRST)?).is_err());
    assert_eq!(rt; heading(alloc, 0)?, Some(Place { path: 5, line: 7 }));
    assert_eq!(rt; heading(alloc, 1)?, None);
    Ok(())
}
