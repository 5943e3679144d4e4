//! The made channel of a size, looked at as a reader would.

use channel_gen::make_channel;
use outside::files::FileBytes;
use outside::listing::Listing;
use std::process::Abort;
use std::test::Fail;

fn may_be_shared<T: Send + Sync>(_value: &T) {}

// The file at a place has this path and these bytes.
fn holds(rt: &impl Abort, file: Option<&FileBytes>, path: &str, text: &str) {
    match file {
        Some(file) => {
            assert_eq!(rt; file.path.as_str(), path);
            assert_eq!(rt; file.bytes.as_slice(), text.as_bytes());
        }
        None => assert!(rt; false, "{path}"),
    }
}

fn place_of(listing: &Listing, path: &str) -> Option<usize> {
    listing
        .as_slice()
        .iter()
        .position(|file| file.path.as_str() == path)
}

#[test]
fn a_made_channel_has_its_files_and_its_script(rt: HostRuntime) -> Result<(), Fail> {
    let alloc = rt.alloc();
    for size in [1, 3, 200] {
        let made = make_channel(alloc, size)?;
        may_be_shared(&made);
        assert_eq!(rt; made.listing.len(), 2 * size as usize + 2);
        holds(
            &rt,
            made.listing.get(0),
            "components/c1.xml",
            "<component name=\"C1\" extends=\"Scene\"><interface><field id=\"v1\" type=\"integer\"/></interface></component>\n",
        );
        holds(
            &rt,
            made.listing.get(size as usize),
            "manifest",
            "title=gen\n",
        );
        let mut main = format!(in alloc;
            "sub main()\nscene = createObject(\"roSGScreen\").createScene(\"C{size}\")\nx = 0\n"
        )?;
        for k in 1..=size {
            main.push_str(format!(in alloc;
                "y = f{k}(10)\nscene.v{k} = y\nx = x + y\n"
            )?.as_str())?;
        }
        main.push_str("print x\nend sub\n")?;
        let last = made.listing.len().saturating_sub(1);
        holds(
            &rt,
            made.listing.get(last),
            "source/main.brs",
            main.as_str(),
        );
        let lines = made.script.as_slice().split(|byte| *byte == b'\n');
        assert_eq!(rt; lines.count(), size as usize + 3);
        assert!(rt;
            made.script
                .as_slice()
                .starts_with(b"round 4000\nround 4000\n")
        );
        assert!(rt;
            made.script
                .as_slice()
                .ends_with(b"round 4000\nround 4000\n")
        );
        assert_eq!(rt; made.script.len(), 11 * (size as usize + 2));
    }
    Ok(())
}

#[test]
fn each_number_has_its_function_and_its_component(rt: HostRuntime) -> Result<(), Fail> {
    let alloc = rt.alloc();
    let made = make_channel(alloc, 200)?;
    for k in [1, 2, 10, 99, 100, 200] {
        let path = format!(in alloc; "source/f{k}.brs")?;
        let text = format!(in alloc;
            "function f{k}(n as integer) as integer\nt = 0\nfor i = 1 to n\nt = t + i * {k}\nnext\nreturn t\nend function\n"
        )?;
        match place_of(&made.listing, path.as_str()) {
            Some(at) => holds(&rt, made.listing.get(at), path.as_str(), text.as_str()),
            None => assert!(rt; false, "{path}"),
        }
    }
    for (path, text) in [
        (
            "components/c2.xml",
            "<component name=\"C2\" extends=\"C1\"><interface><field id=\"v2\" type=\"integer\"/></interface></component>\n",
        ),
        (
            "components/c200.xml",
            "<component name=\"C200\" extends=\"C199\"><interface><field id=\"v200\" type=\"integer\"/></interface></component>\n",
        ),
    ] {
        match place_of(&made.listing, path) {
            Some(at) => holds(&rt, made.listing.get(at), path, text),
            None => assert!(rt; false, "{path}"),
        }
    }
    Ok(())
}
