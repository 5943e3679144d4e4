//! Writing tags and their attributes.
ghost use Rattle.std.specs.Prelude.{◌≡◌, ◌++◌, OnOk, map};
ghost use Rattle.std.specs.List.{flat_map};
ghost use Rattle.xml_pieces.specs.Written.{attribute, stretch};
ghost use Rattle.component_writer.specs.Spelling.{stretch_of, written_attribute, attribute_text, optional};

use chan_values::{NoMemory, Text};
use xml_pieces::AttributeText;

/// Adds bytes at the end.
pub fn put(out: &mut Vec<u8>, bytes: &[u8]) -> Result<(), NoMemory>
    ensures { OnOk result (out.new.items ≡ out.old.items ++ bytes.now) }
{
    match out.extend_from_slice(bytes) {
        Ok(()) => Ok(()),
        Err(_) => Err(NoMemory),
    }
}

/// Adds a byte of a value, as an entity where it does not stand for itself.
fn put_byte(out: &mut Vec<u8>, byte: u8) -> Result<(), NoMemory>
    ensures { OnOk result (out.new.items ≡ out.old.items ++ stretch (stretch_of byte)) }
{
    match byte {
        b'<' => put(out, b"&lt;"),
        b'&' => put(out, b"&amp;"),
        b'"' => put(out, b"&quot;"),
        _ => put(out, &[byte]),
    }
}

fn put_value(out: &mut Vec<u8>, mut value: &[u8]) -> Result<(), NoMemory>
    ensures { OnOk result (out.new.items ≡ out.old.items ++ flat_map stretch (map stretch_of value.entry.now)) }
{
    while let [byte, rest @ ..] = value {
        put_byte(out, *byte)?;
        value = rest;
    }
    Ok(())
}

/// Adds an attribute whose value has these bytes.
pub fn put_attribute_bytes(out: &mut Vec<u8>, name: &[u8], value: &[u8]) -> Result<(), NoMemory>
    ensures { OnOk result (out.new.items ≡ out.old.items ++ attribute (written_attribute (attribute_text name.now value.now))) }
{
    put(out, b" ")?;
    put(out, name)?;
    put(out, b"=\"")?;
    put_value(out, value)?;
    put(out, b"\"")
}

/// Adds an attribute.
pub fn put_attribute(out: &mut Vec<u8>, name: &[u8], value: &Text) -> Result<(), NoMemory>
    ensures { OnOk result (out.new.items ≡ out.old.items ++ attribute (written_attribute (attribute_text name.now value.now))) }
{
    put_attribute_bytes(out, name, value.as_str().as_bytes())
}

/// Adds an attribute where there is a value.
pub fn put_optional(out: &mut Vec<u8>, name: &[u8], value: &Option<Text>) -> Result<(), NoMemory>
    ensures { OnOk result (out.new.items ≡ out.old.items ++ flat_map attribute (map written_attribute (optional name.now value.now))) }
{
    match value {
        Some(value) => put_attribute(out, name, value),
        None => Ok(()),
    }
}

/// Adds attributes, one after another.
pub fn put_attributes(out: &mut Vec<u8>, mut all: &[AttributeText]) -> Result<(), NoMemory>
    ensures { OnOk result (out.new.items ≡ out.old.items ++ flat_map attribute (map written_attribute all.entry.now)) }
{
    while let [one, rest @ ..] = all {
        put_attribute(out, one.name.as_str().as_bytes(), &one.value)?;
        all = rest;
    }
    Ok(())
}
