//! Writing the members of an interface, and scripts.
ghost use Rattle.std.specs.Prelude.{◌≡◌, ◌++◌, OnOk, map};
ghost use Rattle.std.specs.List.{flat_map};
ghost use Rattle.xml_pieces.specs.Written.{attribute, spelled};
ghost use Rattle.component_writer.specs.Spelling.{written_attribute, attribute_text, truth_word, field_options, field_pieces, function_pieces, script_pieces, inline_pieces};

use crate::tags::{put, put_attribute, put_attribute_bytes, put_optional};
use chan_values::NoMemory;
use component_files::{
    FieldElement, FieldElementList, FunctionElement, FunctionElementList, InlineScript,
    ScriptElement, ScriptElementList,
};

fn truth_word(value: bool) -> &'static [u8]
    ensures { result.now ≡ truth_word value }
{
    if value { b"true" } else { b"false" }
}

/// Adds an attribute whose value is `true` or `false`.
fn put_truth(out: &mut Vec<u8>, name: &[u8], value: bool) -> Result<(), NoMemory>
    ensures { OnOk result (out.new.items ≡ out.old.items ++ attribute (written_attribute (attribute_text name.now (truth_word value)))) }
{
    put_attribute_bytes(out, name, truth_word(value))
}

/// Adds the attributes that a field need not have.
#[tactic(auto, using(crate::proofs::Joins::join_attributes))]
fn put_field_options(out: &mut Vec<u8>, field: &FieldElement) -> Result<(), NoMemory>
    ensures { OnOk result (out.new.items ≡ out.old.items ++ flat_map attribute (map written_attribute (field_options field.now))) }
{
    put_optional(out, b"value", &field.value)?;
    put_optional(out, b"onChange", &field.on_change)
}

#[tactic(auto, unfolding(crate::specs::Spelling::field_pieces))]
fn put_field(out: &mut Vec<u8>, field: &FieldElement) -> Result<(), NoMemory>
    ensures { OnOk result (out.new.items ≡ out.old.items ++ flat_map spelled (field_pieces field.now)) }
{
    put(out, b"<field")?;
    put_attribute(out, b"id", &field.id)?;
    put_attribute(out, b"type", &field.word)?;
    put_truth(out, b"alwaysNotify", field.always)?;
    put_field_options(out, field)?;
    put(out, b"/>")
}

/// Adds fields, one after another.
#[tactic(auto, using(crate::proofs::Joins::join))]
pub fn put_fields(out: &mut Vec<u8>, fields: &FieldElementList) -> Result<(), NoMemory>
    ensures { OnOk result (out.new.items ≡ out.old.items ++ flat_map spelled (flat_map field_pieces fields.now)) }
{
    let mut left = fields.as_slice();
    while let [field, rest @ ..] = left {
        put_field(out, field)?;
        left = rest;
    }
    Ok(())
}

#[tactic(auto, unfolding(crate::specs::Spelling::function_pieces))]
fn put_function(out: &mut Vec<u8>, function: &FunctionElement) -> Result<(), NoMemory>
    ensures { OnOk result (out.new.items ≡ out.old.items ++ flat_map spelled (function_pieces function.now)) }
{
    put(out, b"<function")?;
    put_attribute(out, b"name", &function.name)?;
    put(out, b"/>")
}

/// Adds functions, one after another.
#[tactic(auto, using(crate::proofs::Joins::join))]
pub fn put_functions(out: &mut Vec<u8>, functions: &FunctionElementList) -> Result<(), NoMemory>
    ensures { OnOk result (out.new.items ≡ out.old.items ++ flat_map spelled (flat_map function_pieces functions.now)) }
{
    let mut left = functions.as_slice();
    while let [function, rest @ ..] = left {
        put_function(out, function)?;
        left = rest;
    }
    Ok(())
}

fn put_inline(out: &mut Vec<u8>, inline: &Option<InlineScript>) -> Result<(), NoMemory>
    ensures { OnOk result (out.new.items ≡ out.old.items ++ flat_map spelled (inline_pieces inline.now)) }
{
    let Some(inline) = inline else {
        return Ok(());
    };
    put(out, b"<![CDATA[")?;
    put(out, inline.text.as_str().as_bytes())?;
    put(out, b"]]>")
}

#[tactic(auto, unfolding(crate::specs::Spelling::script_pieces))]
fn put_script(out: &mut Vec<u8>, script: &ScriptElement) -> Result<(), NoMemory>
    ensures { OnOk result (out.new.items ≡ out.old.items ++ flat_map spelled (script_pieces script.now)) }
{
    put(out, b"<script")?;
    put_optional(out, b"uri", &script.uri)?;
    put(out, b">")?;
    put_inline(out, &script.inline)?;
    put(out, b"</script>")
}

/// Adds scripts, one after another.
#[tactic(auto, using(crate::proofs::Joins::join))]
pub fn put_scripts(out: &mut Vec<u8>, scripts: &ScriptElementList) -> Result<(), NoMemory>
    ensures { OnOk result (out.new.items ≡ out.old.items ++ flat_map spelled (flat_map script_pieces scripts.now)) }
{
    let mut left = scripts.as_slice();
    while let [script, rest @ ..] = left {
        put_script(out, script)?;
        left = rest;
    }
    Ok(())
}
