//! A door in memory through its trait: its connections one after another, whole and with calls that fail.
ghost use Rattle.std.specs.Prelude.{◌≡◌, ◌<◌, IfOk};
ghost use Rattle.outside.specs.declared.door.DoorState.TheVariants.{Closed, Listening, Open};

use chan_values::Bytes;
use outside::calls::Calls;
use outside::door::{Connection, Door, DoorState};
use outside::faults::Failed;
use outside::memory_door::MemoryDoor;
use std::alloc::{AllocError, Global};
use std::test::Fail;

const REPLY: &[u8; 4] = b"good";

fn calls_failing(alloc: Global, numbers: &[u64]) -> Result<Calls, AllocError> {
    Ok(Calls::new(Vec::from_slice(alloc, numbers)?))
}

// Reads the open connection, and answers whether it came to its end.
fn hear<D: Door>(door: &mut D, port: u16, heard: &mut Bytes) -> bool
    requires { D.state door.old ≡ Open port }
    ensures { D.state door.new ≡ Open port }
{
    let mut piece = [0u8; 4];
    for _ in 0..100 {
        match door.read(&mut piece) {
            Ok(0) => return true,
            Ok(count) => {
                if heard.push_slice(&piece[..count]).is_err() {
                    return false;
                }
            }
            Err(_) => return false,
        }
    }
    false
}

// Writes to the open connection until all is taken or a call fails.
fn answer<D: Door>(door: &mut D, port: u16, reply: &[u8])
    requires { D.state door.old ≡ Open port }
    ensures { D.state door.new ≡ Open port }
{
    let mut written = 0;
    while written < reply.len() {
        match door.write(&reply[written..]) {
            Ok(count) => written += count,
            Err(_) => return,
        }
    }
}

// Serves a connection, which gets a reply where all that it sent was read and ends in LF. Answers whether one came.
fn serve<D: Door>(door: &mut D, port: u16, heard: &mut Bytes) -> Result<bool, Failed>
    requires { D.state door.old ≡ Listening port }
    ensures { D.state door.new ≡ Listening port }
{
    if !door.accept()? {
        return Ok(false);
    }
    if hear(door, port, heard) && heard.as_slice().ends_with(b"\n") {
        answer(door, port, REPLY);
    }
    door.close();
    Ok(true)
}

// Serves all connections, and answers how often `accept` failed.
fn serve_all<D: Door>(door: &mut D, port: u16, heard: &mut Bytes) -> Result<u64, Failed>
    requires { D.state door.old ≡ Closed }
{
    let mut failed = 0;
    door.listen(port)?;
    for _ in 0..10u64 {
        match serve(door, port, heard) {
            Ok(true) => {}
            Ok(false) => break,
            Err(_) => failed += 1,
        }
    }
    Ok(failed)
}

/// A door with these connections, whose calls give and take at most so many bytes and fail where they are told.
fn door_of(
    alloc: Global,
    most: usize,
    connections: &[&str],
    failing: &[u64],
    failing_on_connections: &[u64],
) -> Result<MemoryDoor, Fail>
    requires { 0 < most }
    ensures { IfOk result (λ door. door.state ≡ Closed) }
{
    let mut door = MemoryDoor::new(
        alloc,
        calls_failing(alloc, failing)?,
        calls_failing(alloc, failing_on_connections)?,
    );
    for incoming in connections {
        let mut bytes = Bytes::new(alloc);
        bytes.push_slice(incoming.as_bytes())?;
        door.push(bytes)?;
    }
    door.most = most;
    Ok(door)
}

/// The calls that were made, and those that failed, at the door and on its connections.
fn counts(door: &MemoryDoor) -> (u64, u64, u64, u64) {
    let (calls, others) = (&door.calls, &door.connection_calls);
    (calls.made, calls.faults, others.made, others.faults)
}

/// How many bytes a connection has given, what it has taken, and behind how many bytes it failed first, if it failed.
type Row = (usize, &'static str, Option<usize>);

/// Whether the connections are these.
fn are_connections(connections: &[Connection], rows: &[Row]) -> bool {
    for (connection, (given, outgoing, failed_after)) in connections.iter().zip(rows) {
        if connection.given != *given
            || connection.outgoing.as_slice() != outgoing.as_bytes()
            || connection.failed_after != *failed_after
        {
            return false;
        }
    }
    connections.len() == rows.len()
}

/// Whether each connection was read to its end, and no call on it failed.
fn are_read(connections: &[Connection]) -> bool {
    for connection in connections {
        if connection.given != connection.incoming.len() || connection.failed_after.is_some() {
            return false;
        }
    }
    true
}

#[test]
fn each_call_on_a_connection_may_fail(rt: HostRuntime) -> Result<(), Fail> {
    let alloc = rt.alloc();
    let connections = ["PO", "GET / HTTP\n", "GET /x\n"];
    // `accept` fails first; the first connection ends before its head, a read fails on the second, and a write on the third
    let mut door = door_of(alloc, 3, &connections, &[1], &[3, 9])?;
    let mut heard = Bytes::new(alloc);
    assert!(rt; serve_all(&mut door, 80, &mut heard) == Ok(1));
    assert!(rt; heard.as_slice() == b"POGETGET /x\n".as_slice());
    let rows = [(2, "", None), (3, "", Some(3)), (7, "goo", Some(7))];
    assert!(rt; are_connections(&door.connections, &rows));
    assert!(rt; door.accepted == 3 && door.state == DoorState::Listening(80));
    assert!(rt; counts(&door) == (6, 1, 10, 2));
    Ok(())
}

/// Whether a door whose calls give and take at most so many bytes reads each connection to its end, and the first one gets
/// the reply.
fn are_read_in_pieces(alloc: Global, most: usize) -> Result<bool, Fail>
    requires { 0 < most }
{
    let connections = ["GET /a\n", "", "GET /bcd\n"];
    let mut door = door_of(alloc, most, &connections, &[], &[])?;
    let mut heard = Bytes::new(alloc);
    if serve_all(&mut door, 1, &mut heard) != Ok(0) || !are_read(&door.connections) {
        return Ok(false);
    }
    match door.connections.first() {
        Some(first) => Ok(
            first.outgoing.as_slice() == REPLY.as_slice()
                && heard.as_slice() == b"GET /a\nGET /bcd\n".as_slice(),
        ),
        None => Ok(false),
    }
}

#[test]
fn pieces_of_any_size_are_given_and_taken(rt: HostRuntime) -> Result<(), Fail> {
    for most in [1, 2, 3, 4, 5, 100] {
        assert!(rt; are_read_in_pieces(rt.alloc(), most)?, "{most}");
    }
    Ok(())
}

/// Whether a door without connections whose calls fail where they are told is in this state behind so many failed ones.
fn nobody_comes(
    alloc: Global,
    failing: &[u64],
    failed: u64,
    state: DoorState,
) -> Result<bool, Fail> {
    let mut door = door_of(alloc, 1, &[], failing, &[])?;
    let mut heard = Bytes::new(alloc);
    let is_served = match serve_all(&mut door, 80, &mut heard) {
        Ok(count) => count == failed,
        Err(_) => state == DoorState::Closed,
    };
    Ok(
        is_served
            && door.calls.faults == failed
            && door.connection_calls.made == 0
            && door.state == state,
    )
}

#[test]
fn nobody_comes_to_a_door_without_connections(rt: HostRuntime) -> Result<(), Fail> {
    let alloc = rt.alloc();
    assert!(rt; nobody_comes(alloc, &[], 0, DoorState::Listening(80))?);
    assert!(rt; nobody_comes(alloc, &[0], 1, DoorState::Closed)?);
    assert!(rt; nobody_comes(alloc, &[1], 1, DoorState::Listening(80))?);
    Ok(())
}
