//! Writing child elements.
ghost use Rattle.std.specs.Prelude.{◌≡◌, ◌++◌, OnOk};
ghost use Rattle.std.specs.List.{flat_map};
ghost use Rattle.xml_pieces.specs.Written.{Closing, spelled};
ghost use Rattle.component_files.specs.declared.element.ChildElement.{out-ChildElement};
ghost use Rattle.component_writer.specs.Spelling.{start_piece, end_piece, children_pieces};

use crate::tags::{put, put_attributes};
use chan_values::NoMemory;
use component_files::{ChildElement, ChildElementList};

#[tactic(auto, unfolding(crate::specs::Spelling::start_piece))]
fn put_start(out: &mut Vec<u8>, child: &ChildElement) -> Result<(), NoMemory>
    ensures { OnOk result (out.new.items ≡ out.old.items ++ spelled (start_piece child.now)) }
{
    put(out, b"<")?;
    put(out, child.kind.as_str().as_bytes())?;
    put_attributes(out, child.attributes.as_slice())?;
    put(out, b">")
}

#[tactic(auto, unfolding(crate::specs::Spelling::end_piece))]
fn put_end(out: &mut Vec<u8>, child: &ChildElement) -> Result<(), NoMemory>
    ensures { OnOk result (out.new.items ≡ out.old.items ++ spelled (end_piece child.now)) }
{
    put(out, b"</")?;
    put(out, child.kind.as_str().as_bytes())?;
    put(out, b">")
}

/// Adds child elements, one after another, with so many levels at most.
#[tactic(auto, using(crate::proofs::Joins::no_level))]
pub fn put_children(
    out: &mut Vec<u8>,
    levels: usize,
    children: &ChildElementList,
) -> Result<(), NoMemory>
    ensures { OnOk result (out.new.items ≡ out.old.items ++ flat_map spelled (children_pieces levels children.now)) }
{
    if levels == 0 {
        return Ok(());
    }
    let mut left = children.as_slice();
    while let [child, rest @ ..] = left {
        put_start(out, child)?;
        put_children(out, levels - 1, &child.children)?;
        put_end(out, child)?;
        left = rest;
    }
    Ok(())
}
