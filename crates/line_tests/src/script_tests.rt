//! What no clause says: lines that are read and written, as tables.
use chan_values::{Event, Key};
use script_text::{decoded_character, read_line, write_line};
use std::test::Fail;

const EVENTS: [(&[u8], Event); 20] = [
    (b"key up press", Event::Key(Key::Up, true)),
    (b"key down release", Event::Key(Key::Down, false)),
    (b"key left press", Event::Key(Key::Left, true)),
    (b"key right release", Event::Key(Key::Right, false)),
    (b"key back press", Event::Key(Key::Back, true)),
    (b"key play release", Event::Key(Key::Play, false)),
    (b"key OK press", Event::Key(Key::Ok, true)),
    (b"key rewind release", Event::Key(Key::Rewind, false)),
    (b"key fastforward press", Event::Key(Key::FastForward, true)),
    (b"key replay release", Event::Key(Key::Replay, false)),
    (b"key options press", Event::Key(Key::Options, true)),
    (b"key Lit_A press", Event::Key(Key::Literal('A'), true)),
    (b"key Lit_%00 press", Event::Key(Key::Literal('\0'), true)),
    (b"key Lit_%20 release", Event::Key(Key::Literal(' '), false)),
    (b"key Lit_%C3%A9 press", Event::Key(Key::Literal('é'), true)),
    (
        b"key Lit_%F0%9F%8E%AC press",
        Event::Key(Key::Literal('🎬'), true),
    ),
    (b"turn 0 4294967295", Event::Turn(0, 4_294_967_295)),
    (b"turn 12 5", Event::Turn(12, 5)),
    (b"round 4000", Event::Round(4000)),
    (b"expire 10", Event::Expire(10)),
];

#[test]
fn each_event_has_its_line(rt: HostRuntime) -> Result<(), Fail> {
    for (line, event) in EVENTS {
        assert_eq!(rt; read_line(line), Some(event));
        let mut out = b"|".to_vec(rt.alloc())?;
        assert!(rt; write_line(rt.alloc(), &event, &mut out).is_ok());
        let mut want = b"|".to_vec(rt.alloc())?;
        want.extend_from_slice(line)?;
        want.push(b'\n')?;
        assert_eq!(rt; out.as_slice(), want.as_slice());
    }
    Ok(())
}

#[test]
fn other_lines_say_nothing(rt: HostRuntime) -> Result<(), Fail> {
    let lines: [&[u8]; 42] = [
        b"",
        b"turn 01 5",
        b"turn 1 05",
        b"turn 1  5",
        b"turn  1 5",
        b"turn 1\t5",
        b"turn 1 5 ",
        b" turn 1 5",
        b"turn 1 5\r",
        b"turn 1 5\n",
        b"turn 1",
        b"turn 1 ",
        b"turn 1 5 6",
        b"Turn 1 5",
        b"turn +1 5",
        b"turn -1 5",
        b"turn 1 4294967296",
        b"turn 4294967296 1",
        b"round",
        b"round ",
        b"round 00",
        b"round 4294967296",
        b"round 18446744073709551617",
        b"expire",
        b"expire x",
        b"key up",
        b"key up press ",
        b"key Up press",
        b"key ok press",
        b"key up pressed",
        b"key  press",
        b"key Lit_ press",
        b"key lit_A press",
        b"key Lit_%41 press",
        b"key Lit_%c3%a9 press",
        b"key Lit_\xC3\xA9 press",
        b"key Lit_%C3 press",
        b"key Lit_%C0%80 press",
        b"key Lit_%ED%A0%80 press",
        b"key Lit_AB press",
        b"key Lit_  press",
        b"key Lit_%2 press",
    ];
    for line in lines {
        assert_eq!(rt; read_line(line), None);
    }
    Ok(())
}

#[test]
fn one_character_is_decoded(rt: HostRuntime) -> Result<(), Fail> {
    let cases: [(&[u8], Option<char>); 8] = [
        (b"%61", Some('a')),
        (b"%c3%A9", Some('é')),
        (b"\xC3%a9", Some('é')),
        (b"%", Some('%')),
        (b"%2", None),
        (b"", None),
        (b"%61b", None),
        (b"%F4%90%80%80", None),
    ];
    for (text, want) in cases {
        assert_eq!(rt; decoded_character(text), want);
    }
    Ok(())
}
