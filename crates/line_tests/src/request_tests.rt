//! What no clause says: requests in full, as tables.
use chan_values::Key;
use ecp_requests::{Request, read_request, reply, write_key_lines};
use std::alloc::{AllocError, Global};
use std::process::Abort;
use std::test::Fail;

fn head_of(alloc: Global, method: &str, target: &str) -> Result<String, AllocError> {
    format!(in alloc; "{method} {target} HTTP/1.1\r\nHost: tv\r\n\r\n")
}

fn tap(key: Key) -> Request {
    Request::Keys {
        key,
        press: true,
        release: true,
    }
}

/// A head that is cut at any place waits for more.
fn waits_for_its_end(rt: &impl Abort, head: &[u8]) {
    for cut in 0..head.len() {
        assert_eq!(rt; read_request(&head[..cut]), Request::More);
    }
}

#[test]
fn targets_ask_for_keys(rt: HostRuntime) -> Result<(), Fail> {
    let down = Request::Keys {
        key: Key::Up,
        press: true,
        release: false,
    };
    let up = Request::Keys {
        key: Key::Up,
        press: false,
        release: true,
    };
    let cases = [
        ("/keypress/Up", tap(Key::Up)),
        ("/keypress/uP", tap(Key::Up)),
        ("/keydown/UP", down),
        ("/keyup/up", up),
        ("/keypress/Down", tap(Key::Down)),
        ("/keypress/Left", tap(Key::Left)),
        ("/keypress/Right", tap(Key::Right)),
        ("/keypress/Back", tap(Key::Back)),
        ("/keypress/Play", tap(Key::Play)),
        ("/keypress/Select", tap(Key::Ok)),
        ("/keypress/Rev", tap(Key::Rewind)),
        ("/keypress/Fwd", tap(Key::FastForward)),
        ("/keypress/InstantReplay", tap(Key::Replay)),
        ("/keypress/Info", tap(Key::Options)),
        ("/keypress/Lit_a", tap(Key::Literal('a'))),
        ("/keypress/LIT_%61", tap(Key::Literal('a'))),
        ("/keypress/Lit_%", tap(Key::Literal('%'))),
        ("/keypress/Lit_?", tap(Key::Literal('?'))),
        ("/keypress/Lit_+", tap(Key::Literal('+'))),
        ("/keypress/Lit_%c3%A9", tap(Key::Literal('é'))),
        ("/keypress/Lit_é", tap(Key::Literal('é'))),
        ("/keypress/Lit_%E2%82%AC", tap(Key::Literal('€'))),
        ("/keypress/Lit_%F0%9F%8E%AC", tap(Key::Literal('🎬'))),
        ("/keypress/Home", Request::Leave),
        ("/keyup/home", Request::Leave),
        ("/keydown/Search", Request::NoKey),
        ("/keypress/Backspace", Request::NoKey),
        ("/keypress/Enter", Request::NoKey),
        ("/keypress/", Request::NotFound),
        ("/keypress/Up?x", Request::NotFound),
        ("/Keypress/Up", Request::NotFound),
        ("/launch/1", Request::NotFound),
        ("/query/apps", Request::NotFound),
        ("/keypress/Lit_", Request::NotFound),
        ("/keypress/Lit_ab", Request::NotFound),
        ("/keypress/Lit_%2", Request::NotFound),
        ("/keypress/Lit_%0A", Request::NotFound),
        ("/keypress/Lit_%7F", Request::NotFound),
        ("/keypress/Lit_%FF", Request::NotFound),
    ];
    for (target, want) in cases {
        let head = head_of(rt.alloc(), "POST", target)?;
        assert_eq!(rt; read_request(head.as_bytes()), want, "{target}");
        waits_for_its_end(&rt, head.as_bytes());
        let other = if want == Request::NotFound {
            Request::NotFound
        } else {
            Request::BadMethod
        };
        for method in ["GET", "HEAD"] {
            let head = head_of(rt.alloc(), method, target)?;
            assert_eq!(rt; read_request(head.as_bytes()), other, "{target}");
        }
    }
    Ok(())
}

/// The name with capitals where the bits of the number, from the last one on, are set.
fn spelled(alloc: Global, name: &str, number: u32) -> Result<String, AllocError> {
    let mut text = String::new(alloc);
    let mut bits = number;
    for letter in name.chars() {
        text.push(if bits % 2 == 1 {
            letter.to_ascii_uppercase()
        } else {
            letter
        })?;
        bits /= 2;
    }
    Ok(text)
}

/// How many spellings a name of so many letters has.
fn spellings(name: &str) -> u32 {
    let mut count: u32 = 1;
    for _ in name.chars() {
        count = count.wrapping_mul(2);
    }
    count
}

#[test]
fn names_of_keys_are_read_in_each_case_of_their_letters(rt: HostRuntime) -> Result<(), Fail> {
    let names = [
        ("up", Key::Up),
        ("down", Key::Down),
        ("left", Key::Left),
        ("right", Key::Right),
        ("back", Key::Back),
        ("play", Key::Play),
        ("select", Key::Ok),
        ("rev", Key::Rewind),
        ("fwd", Key::FastForward),
        ("instantreplay", Key::Replay),
        ("info", Key::Options),
    ];
    for (name, key) in names {
        for number in 0..spellings(name) {
            let name = spelled(rt.alloc(), name, number)?;
            for (command, press, release) in [
                ("keypress", true, true),
                ("keydown", true, false),
                ("keyup", false, true),
            ] {
                let target = format!(in rt.alloc(); "/{command}/{name}")?;
                let head = head_of(rt.alloc(), "POST", target.as_str())?;
                let want = Request::Keys {
                    key,
                    press,
                    release,
                };
                assert_eq!(rt; read_request(head.as_bytes()), want);
            }
        }
    }
    Ok(())
}

#[test]
fn a_head_decides_at_its_end(rt: HostRuntime) -> Result<(), Fail> {
    let head = head_of(rt.alloc(), "POST", "/keypress/Up")?;
    waits_for_its_end(&rt, head.as_bytes());
    assert_eq!(rt; read_request(head.as_bytes()), tap(Key::Up));
    let cases: [(&[u8], Request); 9] = [
        (b"", Request::More),
        (b"\r\n\n\r\n", Request::More),
        (b"\nPOST /keypress/Up HTTP/1.0\n\nmore", tap(Key::Up)),
        (b"POST /keypress/Up HTTP/1.1\r\n\n", tap(Key::Up)),
        (b"POST /keypress/Up HTTP/2.0\r\n", Request::More),
        (b"POST /keypress/Up HTTP/2.0\r\n\r\n", Request::BadHead),
        (b"POST /keypress/Up HTTP/2.0\n\n", Request::BadHead),
        (b"x\n\n", Request::BadHead),
        (b"x\r\r\n", Request::More),
    ];
    for (bytes, want) in cases {
        assert_eq!(rt; read_request(bytes), want);
    }
    Ok(())
}

fn long_head(alloc: Global, lines: usize, len: usize) -> Result<Vec<u8>, AllocError> {
    let mut head = b"POST /keypress/Up HTTP/1.1\r\n".to_vec(alloc)?;
    for _ in 0..lines {
        head.extend_from_slice(b"a: b\r\n")?;
    }
    head.extend_from_slice(b"c:")?;
    for _ in 0..len {
        head.push(b'd')?;
    }
    head.extend_from_slice(b"\r\n\r\n")?;
    Ok(head)
}

#[test]
fn a_head_has_its_bounds(rt: HostRuntime) -> Result<(), Fail> {
    assert_eq!(rt; read_request(&long_head(rt.alloc(), 63, 1)?), tap(Key::Up));
    assert_eq!(rt;
        read_request(&long_head(rt.alloc(), 64, 1)?),
        Request::BadHead
    );
    let head = long_head(rt.alloc(), 0, 4062)?;
    assert_eq!(rt; head.len(), 4096);
    assert_eq!(rt; read_request(&head), tap(Key::Up));
    let head = long_head(rt.alloc(), 0, 4063)?;
    assert_eq!(rt; head.len(), 4097);
    assert_eq!(rt; read_request(&head), Request::BadHead);
    Ok(())
}

#[test]
fn requests_are_answered(rt: HostRuntime) {
    let ok = "HTTP/1.1 200 OK\r\nContent-Length: 0\r\nConnection: close\r\n\r\n";
    let cases = [
        (tap(Key::Up), ok),
        (Request::Leave, ok),
        (Request::NoKey, ok),
        (
            Request::BadHead,
            "HTTP/1.1 400 Bad Request\r\nContent-Length: 0\r\nConnection: close\r\n\r\n",
        ),
        (
            Request::NotFound,
            "HTTP/1.1 404 Not Found\r\nContent-Length: 0\r\nConnection: close\r\n\r\n",
        ),
        (
            Request::BadMethod,
            "HTTP/1.1 405 Method Not Allowed\r\nAllow: POST\r\nContent-Length: 0\r\nConnection: close\r\n\r\n",
        ),
        (Request::More, ""),
    ];
    for (request, want) in cases {
        assert_eq!(rt; reply(&request), want.as_bytes());
    }
}

#[test]
fn keys_give_script_lines(rt: HostRuntime) -> Result<(), Fail> {
    let cases = [
        (tap(Key::Ok), "|key OK press\nkey OK release\n"),
        (
            Request::Keys {
                key: Key::Literal('é'),
                press: true,
                release: false,
            },
            "|key Lit_%C3%A9 press\n",
        ),
        (
            Request::Keys {
                key: Key::Up,
                press: false,
                release: true,
            },
            "|key up release\n",
        ),
        (Request::Leave, "|"),
        (Request::BadMethod, "|"),
    ];
    for (request, want) in cases {
        let mut out = b"|".to_vec(rt.alloc())?;
        assert!(rt; write_key_lines(rt.alloc(), &request, &mut out).is_ok());
        assert_eq!(rt; out.as_slice(), want.as_bytes());
    }
    Ok(())
}
