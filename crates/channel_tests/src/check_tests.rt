//! What no clause says: whole checks over the forms in memory, and that a run refuses what a check refuses.

use crate::outcomes::{Failing, MANIFEST, NONE, Row, comes_to, makes_calls};
use std::test::Fail;

const MAIN: Row<'static> = ("F/source/main.brs", "sub main()\nend sub\n");

const SCENE: Row<'static> = (
    "F/components/home.xml",
    "<?xml version=\"1.0\" encoding=\"utf-8\"?>\n<component name=\"Home\" extends=\"Scene\">\n<script uri=\"home.brs\"/>\n<interface>\n<field id=\"heading\" type=\"string\" value=\"News\" onChange=\"headingChanged\"/>\n</interface>\n<children>\n<Loader id=\"loader\"/>\n</children>\n</component>\n",
);

const SCENE_SCRIPT: Row<'static> = (
    "F/components/home.brs",
    "sub init()\nm.loader = m.top.findNode(\"loader\")\nm.loader.observeField(\"rows\", \"rowsChanged\")\nm.loader.control = \"RUN\"\nend sub\nsub headingChanged()\nprint m.top.heading\nend sub\nsub rowsChanged(event)\nprint event.getData()\nend sub\n",
);

const TASK: Row<'static> = (
    "F/components/loader.xml",
    "<component name=\"Loader\" extends=\"Task\">\n<script uri=\"pkg:/components/loader.brs\"/>\n<interface>\n<field id=\"rows\" type=\"integer\" value=\"0\"/>\n</interface>\n</component>\n",
);

const TASK_SCRIPT: Row<'static> = (
    "F/components/loader.brs",
    "sub init()\nm.top.functionName = \"load\"\nend sub\nsub load()\nfor i = 1 to 3\nm.top.rows = i\nend for\nend sub\n",
);

const START: Row<'static> = (
    "F/source/main.brs",
    "sub main()\nscreen = createObject(\"roSGScreen\")\nport = createObject(\"roMessagePort\")\nscreen.setMessagePort(port)\nscene = screen.createScene(\"Home\")\nscreen.show()\nmessage = wait(0, port)\nend sub\n",
);

static GOOD_FOLDERS: [&[Row<'static>]; 2] = [
    &[MANIFEST, MAIN],
    &[SCENE_SCRIPT, SCENE, TASK_SCRIPT, TASK, MANIFEST, START],
];

#[test]
fn a_folder_without_a_fault_is_good(rt: HostRuntime) -> Result<(), Fail> {
    let alloc = rt.alloc();
    for contents in &GOOD_FOLDERS {
        assert!(rt;
            comes_to(
                &rt,
                alloc,
                "check|F",
                contents,
                "no script",
                (0, "", "good\n")
            )?,
            "{contents:?}"
        );
    }
    Ok(())
}

static REFUSED_FOLDERS: [(&[Row<'static>], &str); 10] = [
    (&[], "refused F3\n"),
    (
        &[("F/manifest", "title\n"), MAIN],
        "refused F4 manifest:1\n",
    ),
    (&[MANIFEST], "refused F19\n"),
    (&[MANIFEST, ("F/source/main.brs", "")], "refused F19\n"),
    (
        &[
            MANIFEST,
            ("F/source/a.brs", "sub main()\n\n\n\n\n\n\n\na.b\nend sub\n"),
            ("F/source/b.brs", "/"),
        ],
        "refused F6 source/a.brs:9:4\n",
    ),
    (
        &[
            MANIFEST,
            ("F/source/main.brs", "sub main()\nx = 4 / 2\nend sub\n"),
        ],
        "refused F5 source/main.brs:2:7 Slash\n",
    ),
    (
        &[("F/components/a.xml", ""), MANIFEST, MAIN],
        "refused F8 components/a.xml:1\n",
    ),
    (
        &[
            ("F/components/a.xml", "<component name=\"A\"></component>"),
            ("F/components/b.xml", "<component name=\"A\"></component>"),
            MANIFEST,
            MAIN,
        ],
        "refused F9 components/b.xml:1 a\n",
    ),
    (
        &[
            (
                "F/components/a.xml",
                "<component name=\"A\" extends=\"Nope\"></component>",
            ),
            MANIFEST,
            MAIN,
        ],
        "refused F10 components/a.xml:1 nope\n",
    ),
    (
        &[
            (
                "F/components/home.brs",
                "sub headingChange()\n  print m.top.heading\nend sub\n",
            ),
            (
                "F/components/home.xml",
                "<component name=\"Home\" extends=\"Scene\">\n  <script uri=\"home.brs\" />\n  <interface>\n    <field id=\"heading\" type=\"string\" onChange=\"headingChanged\" />\n  </interface>\n</component>\n",
            ),
            MANIFEST,
            MAIN,
        ],
        "refused F17 components/home.xml:4 headingchanged\n",
    ),
];

#[test]
fn a_folder_with_a_fault_is_refused_by_both_commands(rt: HostRuntime) -> Result<(), Fail> {
    let alloc = rt.alloc();
    for (contents, line) in &REFUSED_FOLDERS {
        for words in ["check|F", "run|F|9"] {
            assert!(rt;
                comes_to(&rt, alloc, words, contents, "no script", (1, "", line))?,
                "{words} {line}"
            );
        }
    }
    Ok(())
}

#[test]
fn a_check_makes_no_call_behind_a_failed_one(rt: HostRuntime) -> Result<(), Fail> {
    let alloc = rt.alloc();
    let failing_files = |number| Failing {
        files: Some(number),
        ..NONE
    };
    let failing_sink = Failing {
        sink: Some(0),
        ..NONE
    };
    // the failing call, the status, what the sink holds, and the calls made on the files, the input and the sink
    for (failing, status, written, calls) in [
        (NONE, 0, "good\n", (3, 0, 1)),
        (failing_files(0), 4, "", (1, 0, 0)),
        (failing_files(2), 4, "", (3, 0, 0)),
        (failing_sink, 5, "", (3, 0, 1)),
    ] {
        let want = (status, written, calls);
        assert!(rt;
            makes_calls(&rt, alloc, "check|F", &[MANIFEST, MAIN], failing, want)?,
            "{status} {written}"
        );
    }
    Ok(())
}

#[test]
fn a_refused_run_reads_no_script(rt: HostRuntime) -> Result<(), Fail> {
    let want = (1, "refused F19\n", (2, 0, 1));
    assert!(rt; makes_calls(&rt, rt.alloc(), "run|F|9", &[MANIFEST], NONE, want)?);
    Ok(())
}
