//! What the bytes of a connection ask for.
ghost use Rattle.std.specs.Prelude.{◌≡◌, ◌↔◌, IsTrue};
ghost use Rattle.ecp_requests.specs.Answers as spec;
ghost use Rattle.ecp_requests.specs.Answers.{IsAnswer, IsOver};

use crate::empty_line::has_empty_line;
use crate::head::read_head;
use crate::target::head_request;
use chan_values::Key;

/// What the bytes of a connection ask for.
///
/// Source: External Control Protocol (ECP), "Keypress", "Keydown" and "Keyup" commands.
#[derive(Clone, Copy, Debug, PartialEq, Eq)]
pub enum Request {
    /// A key, and whether it is pressed and released.
    Keys {
        key: Key,
        press: bool,
        release: bool,
    },
    /// The home key, which ends the session.
    Leave,
    /// A key that the channel does not get.
    NoKey,
    /// Another target.
    NotFound,
    /// A good target with a method other than POST.
    BadMethod,
    /// No head, and an empty line or more than 4,096 bytes.
    BadHead,
    /// Neither a head nor an empty line yet.
    More,
}

/// The most bytes of a head.
const LONGEST_HEAD: usize = 4096;

/// The first 4,096 bytes, in which a head has to end.
fn head_room(bytes: &[u8]) -> &[u8]
    ensures { result.now ≡ spec.head_room bytes.now }
{
    if bytes.len() > LONGEST_HEAD {
        &bytes[..LONGEST_HEAD]
    } else {
        bytes
    }
}

/// Whether bytes that begin with no head can't be mended.
fn is_over(bytes: &[u8]) -> bool
    ensures { IsTrue result ↔ IsOver bytes.now }
{
    if bytes.len() > LONGEST_HEAD {
        return true;
    }
    has_empty_line(bytes)
}

/// What the bytes that have come on a connection ask for, which may be any front of all its bytes. Takes no memory.
pub fn read_request(bytes: &[u8]) -> Request
    ensures answer { IsAnswer bytes.now result }
    ensures only { (answer : Request) → IsAnswer bytes.now answer → result ≡ answer }
{
    match read_head(head_room(bytes)) {
        Some((method, target)) => head_request(method, target),
        None => {
            if is_over(bytes) {
                Request::BadHead
            } else {
                Request::More
            }
        }
    }
}
