//! What a request is answered.
ghost use Rattle.std.specs.Prelude.{◌≡◌};
ghost use Rattle.ecp_requests.specs.Replies.{reply_text};

use crate::Request;

/// The bytes that a connection is answered, which are none where more bytes are wanted. Takes no memory.
pub fn reply(request: &Request) -> &'static [u8]
    ensures { result.now ≡ reply_text request.now }
{
    match request {
        Request::Keys { .. } | Request::Leave | Request::NoKey => {
            b"HTTP/1.1 200 OK\r\nContent-Length: 0\r\nConnection: close\r\n\r\n"
        }
        Request::BadHead => {
            b"HTTP/1.1 400 Bad Request\r\nContent-Length: 0\r\nConnection: close\r\n\r\n"
        }
        Request::NotFound => {
            b"HTTP/1.1 404 Not Found\r\nContent-Length: 0\r\nConnection: close\r\n\r\n"
        }
        Request::BadMethod => {
            b"HTTP/1.1 405 Method Not Allowed\r\nAllow: POST\r\nContent-Length: 0\r\nConnection: close\r\n\r\n"
        }
        Request::More => b"",
    }
}
