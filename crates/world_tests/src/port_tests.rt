//! What no clause says: the happy paths.
use chan_values::{Message, NoMemory, Portable, Text};
use message_ports::{MAX_PORTS, PortFault, Ports};
use std::alloc::Global;
use std::test::Fail;

fn text_of(alloc: Global, t: &str) -> Result<Text, NoMemory> {
    let mut text = Text::new(alloc);
    text.push_str(t)?;
    Ok(text)
}

fn message_of(alloc: Global, node: u32, payload: i32) -> Result<Message, NoMemory> {
    Ok(Message {
        node,
        id: text_of(alloc, "title")?,
        field: text_of(alloc, "text")?,
        payload: Portable::Small(payload),
    })
}

fn send(alloc: Global, ports: &mut Ports, port: u32, node: u32) -> Result<(), NoMemory> {
    if port >= 1 && port <= ports.count() {
        ports.put(port, message_of(alloc, node, 1)?)?;
    }
    Ok(())
}

/// Whether a message waits, and the node that the first one tells of.
fn receive(ports: &mut Ports, port: u32) -> (bool, Option<u32>) {
    if port >= 1 && port <= ports.count() {
        return (ports.has_message(port), ports.take(port).map(|m| m.node));
    }
    (false, None)
}

#[test]
fn messages_leave_a_port_in_the_order_in_which_they_came(rt: HostRuntime) -> Result<(), Fail> {
    let alloc = rt.alloc();
    let mut ports = Ports::new(alloc);
    assert!(rt; matches!(ports.make(), Ok(1)));
    assert!(rt; matches!(ports.make(), Ok(2)));
    assert_eq!(rt; ports.count(), 2);
    for (port, node) in [(1, 5), (2, 6), (1, 7)] {
        send(alloc, &mut ports, port, node)?;
    }
    for (port, want) in [
        (1, Some(5)),
        (1, Some(7)),
        (1, None),
        (2, Some(6)),
        (2, None),
    ] {
        assert!(rt; receive(&mut ports, port) == (want.is_some(), want));
    }
    Ok(())
}

#[test]
fn the_last_port_is_number_65536(rt: HostRuntime) -> Result<(), Fail> {
    let mut ports = Ports::new(rt.alloc());
    for port in 0..MAX_PORTS {
        assert!(rt; ports.make() == Ok(port + 1));
    }
    assert!(rt; ports.make() == Err(PortFault::TooManyPorts));
    assert_eq!(rt; ports.count(), 65_536);
    Ok(())
}
