//! What no clause says: with ample memory a folder is checked, and its first fault is found.
use crate::folders::{Row, entries, is_answered};
use std::test::Fail;

const MANIFEST: Row = ("manifest", "title=a\n");

const MAIN: Row = ("source/main.brs", "sub main()\nend sub\n");

#[test]
fn source_files_are_looked_at_in_order_behind_the_manifest(rt: HostRuntime) -> Result<(), Fail> {
    let rows: [(&[Row], &str); 8] = [
        (&[], "refused F3"),
        (&[MANIFEST], "refused F19"),
        (&[MANIFEST, ("source/main.brs", "")], "refused F19"),
        (&[MANIFEST, MAIN], "good"),
        (
            &[("manifest", "title=a\n=\n"), ("source/main.brs", "/")],
            "refused F4 manifest:2",
        ),
        (
            &[
                MANIFEST,
                (
                    "source/a.brs",
                    "sub main()\n\n\n\n\n\n\n\nx = 4/2\nend sub\n",
                ),
                ("source/b.brs", "/"),
            ],
            "refused F5 source/a.brs:9:6 Slash",
        ),
        (
            &[
                MANIFEST,
                ("source/a.brs", "sub main()\n\n\n\n\n\n\n\na.b\nend sub\n"),
                ("source/b.brs", "/"),
            ],
            "refused F6 source/a.brs:9:4",
        ),
        (
            &[
                MANIFEST,
                ("source/a.brs", "sub main()\nexit for\nend sub\n"),
                ("source/b.brs", "/"),
            ],
            "refused F7 source/a.brs:2:1 ExitOutsideLoop",
        ),
    ];
    for (files, want) in rows {
        assert!(rt; is_answered(&rt, rt.alloc(), files, want)?, "{want}");
    }
    Ok(())
}

#[test]
fn components_are_looked_at_behind_the_files(rt: HostRuntime) -> Result<(), Fail> {
    let rows: [(&[Row], &str); 6] = [
        (
            &[
                (
                    "components/base.brs",
                    "sub init()\nprint \"base\"; who()\nend sub\nfunction who()\nreturn \"B\"\nend function\n",
                ),
                (
                    "components/base.xml",
                    "<component name=\"Base\" extends=\"Group\"><script uri=\"base.brs\"/></component>",
                ),
                (
                    "components/derived.brs",
                    "sub init()\nprint \"derived\"\nend sub\nfunction who()\nreturn \"D\"\nend function\n",
                ),
                (
                    "components/derived.xml",
                    "<component name=\"Derived\" extends=\"Base\"><script uri=\"derived.brs\"/></component>",
                ),
                MANIFEST,
                (
                    "source/main.brs",
                    "sub main()\nn = createObject(\"roSGNode\", \"Derived\")\nend sub\n",
                ),
            ],
            "good",
        ),
        (
            &[
                ("components/a.xml", "<component name='A'>\n<b/></component>"),
                MANIFEST,
                ("source/main.brs", "/"),
            ],
            "refused F8 components/a.xml:2",
        ),
        (
            &[
                (
                    "components/a.xml",
                    "<component name='A'>\n<script><![CDATA[sub init()\na.b\nend sub]]></script></component>",
                ),
                MANIFEST,
                MAIN,
            ],
            "refused F6 components/a.xml:3:4",
        ),
        (
            &[
                ("components/a.xml", "<component name=\"A\"></component>"),
                ("components/b.xml", "<component name=\"A\"></component>"),
                MANIFEST,
                MAIN,
            ],
            "refused F9 components/b.xml:1 a",
        ),
        (
            &[
                (
                    "components/a.xml",
                    "<component name='A'><script uri='b.brs'/><interface><function name='go'/></interface></component>",
                ),
                ("components/b.brs", "sub Go()\nend sub\n"),
                MANIFEST,
                MAIN,
            ],
            "good",
        ),
        (
            &[
                (
                    "components/a.xml",
                    "<component name='A'><script><![CDATA[sub go()\nend sub]]></script><interface>\n<function name='main'/></interface></component>",
                ),
                MANIFEST,
                MAIN,
            ],
            "refused F17 components/a.xml:3 main",
        ),
    ];
    for (files, want) in rows {
        assert!(rt; is_answered(&rt, rt.alloc(), files, want)?, "{want}");
    }
    Ok(())
}

#[test]
fn each_half_enters_the_gate_once(rt: HostRuntime) -> Result<(), Fail> {
    let folders: [&[Row]; 5] = [
        &[],
        &[MANIFEST],
        &[MANIFEST, MAIN],
        &[MANIFEST, ("source/a.brs", "/"), ("source/b.brs", "/")],
        &[("manifest", "="), ("source/a.brs", "/")],
    ];
    for files in folders {
        let found = entries(&rt, rt.alloc(), files)?;
        assert!(rt; found == (1, 1), "{files:?}");
    }
    Ok(())
}
