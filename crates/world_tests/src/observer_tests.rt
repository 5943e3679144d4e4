//! What no clause says: the happy paths.
use chan_values::{NoMemory, Text};
use field_observers::{ObserverList, Observers, Target};
use std::alloc::Global;
use std::test::Fail;

/// What a target in a table stands for: a port by its number, and a function by its home, with the name `changed`.
#[derive(Clone, Copy)]
enum To {
    Port(u32),
    Function(u32),
}

fn target_of(alloc: Global, to: To) -> Result<Target, NoMemory> {
    match to {
        To::Port(port) => Ok(Target::Port(port)),
        To::Function(home) => {
            let mut name = Text::new(alloc);
            name.push_str("onChanged")?;
            Ok(Target::Function { home, name })
        }
    }
}

/// The number of the target at a place: a port's, or a function's home and 100 more. 0 where none is there.
fn told(list: &ObserverList, at: usize) -> u32 {
    match list.get(at) {
        Some(Target::Port(port)) => *port,
        Some(Target::Function { home, name }) if *home < 100 && name.as_str() == "onChanged" =>
            *home + 100,
        _ => 0,
    }
}

/// The first four targets of a field, by their numbers.
fn observed(observers: &Observers, node: u32, field: &str) -> Result<[u32; 4], NoMemory> {
    let list = observers.snapshot(node, field.as_bytes())?;
    Ok([
        told(&list, 0),
        told(&list, 1),
        told(&list, 2),
        told(&list, 3),
    ])
}

/// Registrations of two fields of node 1 and one of node 2, in turn. Those of `text` at 1: 5, the function of home 2, which
/// is fixed, and 7.
fn registered(alloc: Global) -> Result<Observers, NoMemory> {
    let mut observers = Observers::new(alloc);
    for (node, field, to, fixed) in [
        (1, "text", To::Port(5), false),
        (1, "visible", To::Port(6), false),
        (1, "Text", To::Function(2), true),
        (2, "text", To::Port(8), false),
        (1, "TEXT", To::Port(7), false),
        (1, "visible", To::Function(3), false),
    ] {
        observers.add(node, field.as_bytes(), target_of(alloc, to)?, fixed)?;
    }
    Ok(observers)
}

#[test]
fn each_field_has_its_observers_in_order_of_registration(rt: HostRuntime) -> Result<(), Fail> {
    let observers = registered(rt.alloc())?;
    for (node, field, want) in [
        (1, "text", [5, 102, 7, 0]),
        (1, "tExT", [5, 102, 7, 0]),
        (1, "visible", [6, 103, 0, 0]),
        (2, "TEXT", [8, 0, 0, 0]),
        (2, "visible", [0, 0, 0, 0]),
        (3, "text", [0, 0, 0, 0]),
    ] {
        assert!(rt; observed(&observers, node, field)? == want);
    }
    assert_eq!(rt; observers.snapshot(1, b"text")?.len(), 3);
    assert!(rt; observers.snapshot(2, b"visible")?.is_empty());
    Ok(())
}

#[test]
fn what_came_with_the_node_stays(rt: HostRuntime) -> Result<(), Fail> {
    let alloc = rt.alloc();
    let mut observers = registered(alloc)?;
    observers.remove(1, b"tEXT");
    observers.remove(1, b"none");
    observers.remove(3, b"text");
    observers.remove(1, b"a name that is longer than all that were registered");
    observers.add(1, b"text", Target::Port(9), false)?;
    for (node, field, want) in [
        (1, "text", [102, 9, 0, 0]),
        (1, "visible", [6, 103, 0, 0]),
        (2, "text", [8, 0, 0, 0]),
    ] {
        assert!(rt; observed(&observers, node, field)? == want);
    }
    Ok(())
}

#[test]
fn a_thousand_registrations_elsewhere_change_nothing(rt: HostRuntime) -> Result<(), Fail> {
    let mut observers = registered(rt.alloc())?;
    for node in 10..1_010 {
        observers.add(node, b"text", Target::Port(node), false)?;
    }
    assert!(rt; observed(&observers, 1, "text")? == [5, 102, 7, 0]);
    assert!(rt; observed(&observers, 500, "text")? == [500, 0, 0, 0]);
    observers.remove(500, b"text");
    assert!(rt; observed(&observers, 500, "text")? == [0, 0, 0, 0]);
    assert!(rt; observed(&observers, 501, "text")? == [501, 0, 0, 0]);
    Ok(())
}
