//! What no clause says: whole runs over the forms in memory, and what is called where a call fails.

use crate::outcomes::{Failing, MANIFEST, NONE, Row, comes_to, makes_calls, outcome_of};
use std::alloc::Global;
use std::test::Fail;
use std::thread::Threads;

const NODE: &str = "node 1 Node owner 0 parent none children none\n";

const EMPTY: &str = "sub main()\nend sub\n";

const SEVEN: &str = "sub main()\nx = 7\nprint \"x=\"; x; \" \"; x + 2\nend sub\n";

/// Whether a channel of this source writes this and the node line.
fn writes_transcript<R: Threads>(
    rt: &R,
    alloc: Global,
    source: &str,
    script: &str,
    words: &str,
    want: &str,
) -> Result<bool, Fail> {
    let contents = [MANIFEST, ("F/source/main.brs", source)];
    let text = format!(in alloc; "{want}{NODE}")?;
    comes_to(rt, alloc, words, &contents, script, (0, "", text.as_str()))
}

#[test]
fn a_first_form_writes_its_transcript(rt: HostRuntime) -> Result<(), Fail> {
    let alloc = rt.alloc();
    // the source, the script, the words, and what is written before the node line
    for (source, script, words, want) in [
        (EMPTY, "", "run|F|100", "end script\n"),
        (EMPTY, "turn 1 1", "run|F|100", "1 ended\nend main\n"),
        (EMPTY, "turn 1 1\n", "run|F|0", "end steps\n"),
        (EMPTY, "turn 1 0\n", "run|F|0", "end script\n"),
        (
            "sub main()\nend sub",
            "turn 1 0\nturn 1 4294967295\nturn 1 5",
            "run|F|4000000",
            "1 ended\nend main\n",
        ),
        (
            SEVEN,
            "turn 1 100\n",
            "run|F|100",
            "1 print x= 7  9\n1 ended\nend main\n",
        ),
        (
            SEVEN,
            "turn 1 100\n",
            "run|F|10",
            "1 print x= 7  9\n1 ended\nend main\n",
        ),
        (
            SEVEN,
            "turn 1 100\n",
            "run|F|9",
            "1 print x= 7  9\nend steps\n",
        ),
        (SEVEN, "turn 1 100\n", "run|F|8", "end steps\n"),
        (
            SEVEN,
            "turn 1 4\nturn 1 5\n",
            "run|F|100",
            "1 print x= 7  9\nend script\n",
        ),
        (SEVEN, "", "run|F|100", "end script\n"),
        (
            SEVEN,
            "round 100\n",
            "run|F|100",
            "1 print x= 7  9\n1 ended\nend main\n",
        ),
        (
            SEVEN,
            "turn 0 9\nturn 2 9\nexpire 1\nround 4\nexpire 0\nturn 1 5\n",
            "run|F|9",
            "1 print x= 7  9\nend script\n",
        ),
        (
            SEVEN,
            "turn 1 9\nround 0\nturn 0 1\nround 1\nround 1",
            "run|F|9",
            "1 print x= 7  9\nend steps\n",
        ),
        (
            "sub main()\nprint 2147483647 + 1\nend sub\n",
            "turn 1 100\n",
            "run|F|100",
            "1 print -2147483648\n1 ended\nend main\n",
        ),
        (
            "SUB Main()\r\n\tA_1 = 5 - 7 - 1\r\n\r\nPRINT a_1 ; \"a\" ; A_1 - 1 + 4\r\nEND sub",
            "turn 1 100\n",
            "run|F|100",
            "1 print -3a 0\n1 ended\nend main\n",
        ),
    ] {
        assert!(rt;
            writes_transcript(&rt, alloc, source, script, words, want)?,
            "{source} under {script}"
        );
    }
    Ok(())
}

const MAIN: Row<'static> = ("F/source/main.brs", EMPTY);

static OTHER_FOLDERS: [&[Row<'static>]; 4] = [
    &[MANIFEST, MAIN, ("F/source/x.brs", "")],
    &[
        ("F/components/a.xml", "<component name=\"A\"></component>"),
        MANIFEST,
        MAIN,
    ],
    &[
        MANIFEST,
        ("F/source/main.brs", "sub main()\nx = 1 * 2\nend sub\n"),
    ],
    &[
        MANIFEST,
        ("F/source/main.brs", "sub main()\nprint y\nend sub\n"),
    ],
];

#[test]
fn for_other_folders_without_a_fault_the_script_is_read_and_nothing_is_written(
    rt: HostRuntime,
) -> Result<(), Fail> {
    let alloc = rt.alloc();
    for contents in &OTHER_FOLDERS {
        for (script, status, text) in [
            ("", 9, "not yet"),
            ("turn 1 1\nkey up press\n", 9, "not yet"),
            ("key up press\nturn 1 1\n\n", 3, "bad script line 3"),
        ] {
            let want = (status, text, "");
            assert!(rt;
                comes_to(&rt, alloc, "run|F|9", contents, script, want)?,
                "{contents:?}"
            );
        }
    }
    Ok(())
}

#[test]
fn a_bad_line_or_a_key_ends_what_is_written(rt: HostRuntime) -> Result<(), Fail> {
    let alloc = rt.alloc();
    let contents = [MANIFEST, ("F/source/main.brs", SEVEN)];
    let print = "1 print x= 7  9\n";
    let ended = "1 print x= 7  9\n1 ended\n";
    // the script, how the command ends, and what is written
    for (script, status, text, want) in [
        ("turn 1 9\nturn x 1\n", 3, "bad script line 2", print),
        ("\n", 3, "bad script line 1", ""),
        ("turn 1 100\n\nturn 1 1", 3, "bad script line 2", ended),
        ("turn 01 1", 3, "bad script line 1", ""),
        ("turn 1 01", 3, "bad script line 1", ""),
        ("turn 1 4294967296", 3, "bad script line 1", ""),
        ("turn  1 1", 3, "bad script line 1", ""),
        ("turn 1 1 ", 3, "bad script line 1", ""),
        ("turn 1", 3, "bad script line 1", ""),
        ("turn 1 1\r\n", 3, "bad script line 1", ""),
        ("round 5 \n", 3, "bad script line 1", ""),
        ("round 9\nkey UP press\n", 3, "bad script line 2", print),
        ("round 9\nkey up press\n", 9, "not yet", print),
        ("round 9\nkey up press\nround 9\n", 9, "not yet", print),
        ("round 10\nkey Lit_%C3%A9 release\n", 9, "not yet", ended),
        ("key OK press", 9, "not yet", ""),
        (
            "round 9\nkey up press\nround 9\nx",
            3,
            "bad script line 4",
            print,
        ),
    ] {
        let want = (status, text, want);
        assert!(rt;
            comes_to(&rt, alloc, "run|F|100", &contents, script, want)?,
            "{script}"
        );
    }
    Ok(())
}

/// How a run ends whose source is filled up with spaces to so many bytes.
fn outcome_at<R: Threads>(rt: &R, alloc: Global, length: usize) -> Result<(u8, bool), Fail> {
    let mut source = String::from_str(alloc, EMPTY)?;
    for _ in source.len()..length {
        source.push(' ')?;
    }
    let contents = [MANIFEST, ("F/source/main.brs", source.as_str())];
    let outcome = outcome_of(rt, alloc, "run|F|9", &contents, "turn 1 1\n", NONE)?;
    let refused = outcome.written.as_slice() == b"refused F2 source/main.brs\n".as_slice();
    Ok((outcome.status, refused))
}

#[test]
fn a_file_of_1048576_bytes_runs_and_no_longer_one(rt: HostRuntime) -> Result<(), Fail> {
    let alloc = rt.alloc();
    assert!(rt; outcome_at(&rt, alloc, 1_048_576)? == (0, false));
    assert!(rt; outcome_at(&rt, alloc, 1_048_577)? == (1, true));
    Ok(())
}

#[test]
fn other_words_are_no_command(rt: HostRuntime) -> Result<(), Fail> {
    let alloc = rt.alloc();
    for words in [
        "",
        "run",
        "run|F",
        "run|F|1|1",
        "run||1",
        "run|F|",
        "run|F|4000001",
        "run|F|18446744073709551616",
        "run|F|01",
        "run|F|+1",
        "run|F|-1",
        "run|F|1 ",
        "Run|F|1",
        "check",
        "check|",
        "check|F|1",
        "Check|F",
        "|F",
    ] {
        let want = (7, "", (0, 0, 0));
        assert!(rt;
            makes_calls(&rt, alloc, words, &[MANIFEST, MAIN], NONE, want)?,
            "{words}"
        );
    }
    Ok(())
}

#[test]
fn after_a_failed_call_no_further_one_is_made(rt: HostRuntime) -> Result<(), Fail> {
    let alloc = rt.alloc();
    let print = "1 print x= 7  9\n";
    let ended = "1 print x= 7  9\n1 ended\n";
    let end = "1 print x= 7  9\n1 ended\nend main\n";
    // which call fails on the files, the input and the sink; the status, what the sink holds, and the calls made on each
    for (failing, status, written, calls) in [
        (
            Failing {
                files: Some(0),
                ..NONE
            },
            4,
            "",
            (1, 0, 0),
        ),
        (
            Failing {
                files: Some(1),
                ..NONE
            },
            4,
            "",
            (2, 0, 0),
        ),
        (
            Failing {
                files: Some(2),
                ..NONE
            },
            4,
            "",
            (3, 0, 0),
        ),
        (
            Failing {
                input: Some(0),
                ..NONE
            },
            4,
            "",
            (3, 1, 0),
        ),
        (
            Failing {
                input: Some(1),
                ..NONE
            },
            4,
            "",
            (3, 2, 0),
        ),
        (
            Failing {
                sink: Some(0),
                ..NONE
            },
            5,
            "",
            (3, 2, 1),
        ),
        (
            Failing {
                sink: Some(1),
                ..NONE
            },
            5,
            print,
            (3, 2, 2),
        ),
        (
            Failing {
                sink: Some(2),
                ..NONE
            },
            5,
            ended,
            (3, 2, 3),
        ),
        (
            Failing {
                sink: Some(3),
                ..NONE
            },
            5,
            end,
            (3, 2, 4),
        ),
    ] {
        let contents = [MANIFEST, ("F/source/main.brs", SEVEN)];
        let want = (status, written, calls);
        assert!(rt;
            makes_calls(&rt, alloc, "run|F|100", &contents, failing, want)?,
            "{status} {written}"
        );
    }
    Ok(())
}
