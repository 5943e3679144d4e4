//! What no clause says: with ample memory ids and texts for fields are checked, and the first fault is told apart from the others.
use crate::channels::{Found, add_chain, channel, is_answer};
use component_faults::kind_table;
use field_faults::{check_duplicate_fields, check_values};
use folder_rules::{PathedComponent, TablesAnswer};
use std::alloc::Global;

/// A kind of fault.
#[derive(Clone, Copy)]
enum Kind {
    Fields,
    Values,
}

fn check(alloc: Global, kind: Kind, components: &[PathedComponent]) -> Result<(), TablesAnswer> {
    let names = kind_table(alloc, components)?;
    match kind {
        Kind::Fields => check_duplicate_fields(alloc, &names, components),
        Kind::Values => check_values(alloc, &names, components),
    }
}

/// Whether a channel of two component files is answered so.
fn finds(alloc: Global, kind: Kind, a: &str, b: &str, found: Option<Found>) -> Option<bool> {
    let components = channel(alloc, a, b)?;
    let answer = check(alloc, kind, components.as_slice());
    Some(is_answer(&answer, found))
}

#[test]
fn ids_stand_once(rt: HostRuntime) {
    for (a, b, found) in [
        (
            "<component name='A' extends='b'><interface><field id='F' type='int'/></interface></component>",
            "<component name='B' extends='Label'><interface><field id='G' type='int'/><field id='Width' type='int'/></interface></component>",
            None,
        ),
        (
            "<component name='A' extends='b'><interface><field id='F' type='float'/></interface></component>",
            "<component name='B' extends='Label'><interface><field id='F' type='int'/>\n<field id='f' type='int'/><field id='Visible' type='int'/></interface></component>",
            Some((14, "a.xml", 1, "f")),
        ),
        (
            "<component name='A'><interface><field id='F' type='float'/></interface></component>",
            "<component name='B' extends='Poster'><interface>\n<field id='HEIGHT' type='int'/></interface></component>",
            Some((14, "b.xml", 2, "height")),
        ),
        (
            "<component name='A'><interface><field id='F' type='int'/></interface></component>",
            "<component name='B' extends='Task'><interface>\n<field id='g' type='int'/><field id='G' type='int'/><field id='State' type='int'/></interface></component>",
            Some((14, "b.xml", 2, "g")),
        ),
        (
            "<component name='A' extends='b'><interface><field id='focusedChild' type='int'/></interface></component>",
            "<component name='B' extends='A'><interface><field id='x' type='int'/></interface></component>",
            Some((14, "a.xml", 1, "focusedchild")),
        ),
        (
            "<component name='A'><interface><field id='x' type='int'/></interface></component>",
            "<component name='B' extends='B'><interface><field id='X' type='int'/></interface></component>",
            Some((14, "b.xml", 1, "x")),
        ),
    ] {
        assert!(rt;
            finds(rt.alloc(), Kind::Fields, a, b, found) == Some(true),
            "{a} {b}"
        );
    }
}

#[test]
fn texts_are_read_by_their_types(rt: HostRuntime) {
    for (a, b, found) in [
        (
            "<component name='A' extends='b'><interface><field id='F' type='int' value='-7'/><field id='L' type='node' value=''/></interface><children><Label text='x' opacity='y' VISIBLE='True'/></children></component>",
            "<component name='B'><interface><field id='G' type='float' value='x'/></interface><children><A f='+1' g='?'><Group/></A></children></component>",
            None,
        ),
        (
            "<component name='A'><interface><field id='F' type='int' value=''/></interface></component>",
            "<component name='B'><children><Label visible='yes'/></children></component>",
            Some((16, "a.xml", 1, "f")),
        ),
        (
            "<component name='A'><interface><field id='F' type='int' value='1'/></interface></component>",
            "<component name='B'><children>\n<Rectangle Width='1' HEIGHT='2147483648' visible='no'/></children></component>",
            Some((16, "b.xml", 2, "height")),
        ),
        (
            "<component name='A' extends='Poster'><children><A>\n<a visible=''/></A><A width='x'/></children></component>",
            "<component name='B'/>",
            Some((16, "a.xml", 2, "visible")),
        ),
        (
            "<component name='A'><children>\n<Label visible='x'/></children><interface>\n<field id='F' type='array' value='[]'/></interface></component>",
            "<component name='B'/>",
            Some((16, "a.xml", 2, "visible")),
        ),
        (
            "<component name='A'><children>\n\n<Label visible='x'/></children></component>",
            "<component name='B'><interface>\n<field id='F' type='bool' value='1'/></interface><interface><field id='G' type='bool' value='1'/></interface></component>",
            Some((16, "a.xml", 3, "visible")),
        ),
        (
            "<component name='A'/>",
            "<component name='B'><children><A Id='1' nope='x' focusedChild='x'/></children><interface><field id='F' type='bool' value='1'/></interface></component>",
            Some((16, "b.xml", 1, "focusedchild")),
        ),
        (
            "<component name='A'/>",
            "<component name='B'><interface><field id='F' type='bool' value='1'/></interface><children><Nope visible='x'/><A focusedChild='x'/></children></component>",
            Some((16, "b.xml", 1, "f")),
        ),
    ] {
        assert!(rt;
            finds(rt.alloc(), Kind::Values, a, b, found) == Some(true),
            "{a} {b}"
        );
    }
}

/// Whether a chain of so many components has no fault.
fn is_good_chain(alloc: Global, kind: Kind, count: u32) -> Option<bool> {
    let mut components = Vec::new(alloc);
    add_chain(alloc, &mut components, count, "Group")?;
    let answer = check(alloc, kind, components.as_slice());
    Some(is_answer(&answer, None))
}

#[test]
fn ids_of_long_chains_are_checked(rt: HostRuntime) {
    assert!(rt; is_good_chain(rt.alloc(), Kind::Fields, 4000) == Some(true));
}

#[test]
fn texts_of_long_chains_are_checked(rt: HostRuntime) {
    assert!(rt; is_good_chain(rt.alloc(), Kind::Values, 4000) == Some(true));
}
