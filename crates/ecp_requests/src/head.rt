//! The head of a request, as `httparse` reads it.
ghost use Rattle.std.specs.Prelude.{◌≡◌, ◌≤◌, ◌<◌, List, ℕ, length, IfSome, IfNone};
ghost use Rattle.httparse.specs.Grammar.{ReadsRequest, RequestHead};
ghost use Rattle.ecp_requests.specs.Heads.{HasNoFront, IsFront};

use httparse::Status;
use httparse::spans::{EMPTY_HEADER_SPAN, parse_request};

/// The most header lines of a head.
const MOST_HEADERS: usize = 64;

/// The method and the target of the head with which the bytes begin.
pub(crate) fn read_head(bytes: &[u8]) -> Option<(&[u8], &[u8])>
    ensures head { IfSome result (λ parts. IsFront bytes.now parts.0.now parts.1.now) }
    ensures none { IfNone result (HasNoFront bytes.now) }
{
    let mut headers = [EMPTY_HEADER_SPAN; MOST_HEADERS];
    match parse_request(bytes, &mut headers) {
        Ok(Status::Complete(head)) => Some((head.method.of(bytes), head.path.of(bytes))),
        _ => None,
    }
}
