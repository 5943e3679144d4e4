//! The target and the method of a request.
ghost use Rattle.std.specs.Prelude.{◌≡◌, ◌↔◌, IfSome, IsTrue, Some, codes};
ghost use Rattle.ecp_requests.specs.Targets as spec;
ghost use Rattle.ecp_requests.specs.Targets.{Asks, HeadAnswer, Names};
ghost use Rattle.ecp_requests.specs.declared.request.Request.{Request};

use crate::Request;
use crate::key_name::{KeyName, read_name};

/// What is asked for under a key name.
fn request_for(name: KeyName, press: bool, release: bool) -> Request
    ensures { result ≡ spec.request_for name press release }
{
    match name {
        KeyName::Key(key) => Request::Keys {
            key,
            press,
            release,
        },
        KeyName::Home => Request::Leave,
        KeyName::Backspace | KeyName::Search | KeyName::Enter => Request::NoKey,
    }
}

/// What a key name asks for.
fn named_request(text: &[u8], press: bool, release: bool) -> Option<Request>
    ensures asked { IfSome result (λ request. Names text.now press release request) }
    ensures found { (request : Request) → Names text.now press release request → result ≡ Some request }
{
    match read_name(text) {
        Some(name) => Some(request_for(name, press, release)),
        None => None,
    }
}

/// What a target asks for.
fn target_request(target: &[u8]) -> Option<Request>
    ensures asked { IfSome result (λ request. Asks target.now request) }
    ensures found { (request : Request) → Asks target.now request → result ≡ Some request }
{
    if let Some(name) = target.strip_prefix(b"/keypress/") {
        named_request(name, true, true)
    } else if let Some(name) = target.strip_prefix(b"/keydown/") {
        named_request(name, true, false)
    } else if let Some(name) = target.strip_prefix(b"/keyup/") {
        named_request(name, false, true)
    } else {
        None
    }
}

fn is_post(method: &[u8]) -> bool
    ensures { IsTrue result ↔ (method.now ≡ codes "POST") }
{
    method == b"POST".as_slice()
}

/// The answer to a head with this method and target.
pub(crate) fn head_request(method: &[u8], target: &[u8]) -> Request
    ensures answer { HeadAnswer method.now target.now result }
    ensures only { (answer : Request) → HeadAnswer method.now target.now answer → result ≡ answer }
{
    match target_request(target) {
        Some(request) => {
            if is_post(method) {
                request
            } else {
                Request::BadMethod
            }
        }
        None => Request::NotFound,
    }
}
