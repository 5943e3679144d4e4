//! Each form of line, with texts that are escaped.
use chan_values::{EndReason, ErrorCode, Key, Portable, Text};
use std::test::Fail;
use trace_report::{EntryName, Observer, ReportLine, TraceLine, write_report, write_trace};

#[test]
fn transcript_lines_are_written_one_after_another(rt: HostRuntime) -> Result<(), Fail> {
    let alloc = rt.alloc();
    let rows = [
        (TraceLine::Print { actor: 1, text: "" }, "1 print \n"),
        (
            TraceLine::Print {
                actor: 4_294_967_295,
                text: "é\t\\ \n\u{7f}\u{0}~",
            },
            "4294967295 print é\\09\\5c \\0a\\7f\\00~\n",
        ),
        (
            TraceLine::Error {
                actor: 2,
                code: ErrorCode::E12,
                path: "source/a\\b\u{1f}.brs",
                line: 7,
            },
            "2 error 12 source/a\\5cb\\1f.brs:7\n",
        ),
        (
            TraceLine::Post {
                actor: 2,
                number: 10,
            },
            "2 post 10\n",
        ),
        (TraceLine::Begin(EntryName::Post(2, 1)), "0 begin 2.1\n"),
        (TraceLine::Begin(EntryName::Key(3)), "0 begin key.3\n"),
        (TraceLine::End(EntryName::Post(10, 20)), "0 end 10.20\n"),
        (
            TraceLine::End(EntryName::Key(18_446_744_073_709_551_615)),
            "0 end key.18446744073709551615\n",
        ),
        (
            TraceLine::Dropped {
                actor: 3,
                number: 2,
            },
            "0 drop 3.2\n",
        ),
        (TraceLine::Stop { actor: 3 }, "0 stop 3\n"),
        (TraceLine::Start { actor: 2, node: 5 }, "2 start 5\n"),
        (
            TraceLine::Notify {
                node: 5,
                field: "a\\\r",
                to: Observer::Function("oncontent"),
            },
            "0 notify 5.a\\5c\\0d oncontent\n",
        ),
        (
            TraceLine::Notify {
                node: 5,
                field: "content",
                to: Observer::Port(65_535),
            },
            "0 notify 5.content port.65535\n",
        ),
        (
            TraceLine::KeyVisit {
                key: Key::Ok,
                press: true,
                node: 2,
                handled: true,
            },
            "0 key OK press 2 true\n",
        ),
        (
            TraceLine::KeyVisit {
                key: Key::Literal('é'),
                press: false,
                node: 7,
                handled: false,
            },
            "0 key Lit_%C3%A9 release 7 false\n",
        ),
        (TraceLine::Ended { actor: 1 }, "1 ended\n"),
        (TraceLine::RunEnd(EndReason::Main), "end main\n"),
        (TraceLine::RunEnd(EndReason::Error), "end error\n"),
        (TraceLine::RunEnd(EndReason::Back), "end back\n"),
        (TraceLine::RunEnd(EndReason::Steps), "end steps\n"),
        (TraceLine::RunEnd(EndReason::Script), "end script\n"),
        (TraceLine::RunEnd(EndReason::Unbuilt), "end unbuilt\n"),
    ];
    let mut out = Vec::new(alloc);
    let mut want = String::new(alloc);
    for (line, text) in rows {
        write_trace(alloc, &line, &mut out)?;
        want.push_str(text)?;
        assert_eq!(rt; out.as_slice(), want.as_bytes());
    }
    Ok(())
}

#[test]
fn report_lines_are_written_one_after_another(rt: HostRuntime) -> Result<(), Fail> {
    let alloc = rt.alloc();
    let mut text = Text::new(alloc);
    text.push_str("a\"\n\\")?;
    let words = Portable::Words(text);
    let rows = [
        (
            ReportLine::Node {
                node: 1,
                kind: "Node",
                owner: 0,
                parent: None,
                children: &[],
            },
            "node 1 Node owner 0 parent none children none\n",
        ),
        (
            ReportLine::Node {
                node: 2,
                kind: "Home\\Scene\n",
                owner: 3,
                parent: Some(1),
                children: &[4, 30],
            },
            "node 2 Home\\5cScene\\0a owner 3 parent 1 children 4 30\n",
        ),
        (
            ReportLine::Field {
                node: 4,
                id: "a\\b",
                value: &Portable::Big(-9),
            },
            "field 4.a\\5cb -9&\n",
        ),
        (
            ReportLine::Field {
                node: 30,
                id: "text",
                value: &words,
            },
            "field 30.text \"a\"\"\\0a\\5c\"\n",
        ),
    ];
    let mut out = Vec::new(alloc);
    let mut want = String::new(alloc);
    for (line, text) in rows {
        write_report(alloc, &line, &mut out)?;
        want.push_str(text)?;
        assert_eq!(rt; out.as_slice(), want.as_bytes());
    }
    Ok(())
}
