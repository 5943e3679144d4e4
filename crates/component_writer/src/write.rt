//! Writing a component file.
ghost use Rattle.std.specs.Prelude.{◌≡◌, ◌++◌, IfOk, OnOk};
ghost use Rattle.std.specs.List.{flat_map};
ghost use Rattle.xml_pieces.specs.Written.{spelled};
ghost use Rattle.component_writer.specs.Aside.{ReadsAs, CanBeRead};
ghost use Rattle.component_writer.specs.Spelling.{header_pieces, interface_pieces, children_part, file_pieces};

use crate::children::put_children;
use crate::elements::{put_fields, put_functions, put_scripts};
use crate::tags::{put, put_attribute};
use chan_values::NoMemory;
use component_files::{ChildElementList, ComponentFile};
use std::alloc::Global;

/// The most levels of child elements that a file has.
const MAX_LEVELS: usize = 64;

#[tactic(auto, unfolding(crate::specs::Spelling::header_pieces))]
fn put_header(out: &mut Vec<u8>, file: &ComponentFile) -> Result<(), NoMemory>
    ensures { OnOk result (out.new.items ≡ out.old.items ++ flat_map spelled (header_pieces file.now)) }
{
    put(out, b"<component")?;
    put_attribute(out, b"name", &file.name)?;
    put_attribute(out, b"extends", &file.extends)?;
    put(out, b">")
}

fn put_interface(out: &mut Vec<u8>, file: &ComponentFile) -> Result<(), NoMemory>
    ensures { OnOk result (out.new.items ≡ out.old.items ++ flat_map spelled (interface_pieces file.now)) }
{
    put(out, b"<interface>")?;
    put_fields(out, &file.fields)?;
    put_functions(out, &file.functions)?;
    put(out, b"</interface>")
}

#[tactic(auto, using(crate::proofs::Joins::join_children))]
fn put_children_part(out: &mut Vec<u8>, children: &ChildElementList) -> Result<(), NoMemory>
    ensures { OnOk result (out.new.items ≡ out.old.items ++ flat_map spelled (children_part children.now)) }
{
    put(out, b"<children>")?;
    put_children(out, MAX_LEVELS, children)?;
    put(out, b"</children>")
}

fn put_file(out: &mut Vec<u8>, file: &ComponentFile) -> Result<(), NoMemory>
    ensures { OnOk result (out.new.items ≡ out.old.items ++ flat_map spelled (file_pieces file.now)) }
{
    put_header(out, file)?;
    put_interface(out, file)?;
    put_scripts(out, &file.scripts)?;
    put_children_part(out, &file.children)?;
    put(out, b"</component>")
}

/// Writes a component file, in one line: what is written reads as the same file, its lines and columns aside. Each file that
/// was read can be written.
///
/// Source: SceneGraph XML Guide, "Component Definition".
pub fn write_component(alloc: Global, file: &ComponentFile) -> Result<Vec<u8>, NoMemory>
    requires { CanBeRead file.now }
    ensures reads { IfOk result (λ bytes. ReadsAs bytes.items file.now) }
    ensures spelling { IfOk result (λ bytes. bytes.items ≡ flat_map spelled (file_pieces file.now)) }
{
    let mut out = Vec::new(alloc);
    put_file(&mut out, file)?;
    Ok(out)
}
