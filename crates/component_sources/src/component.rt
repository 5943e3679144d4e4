//! A component file with the trees of its inline scripts, or its first fault.
ghost use Rattle.std.specs.Prelude.{◌≡◌, ◌++◌, ◌^◌, ◌<◌, ℕ, List, [], ◌∷◌, Some, Err, length, IfOk, OnOk};
ghost use Rattle.std.specs.Option.{option_to_list};
ghost use Rattle.component_files.specs.ComponentGrammar.{IsComponent};
ghost use Rattle.component_files.specs.declared.element.InlineScript.{InlineScript as Inline};
ghost use Rattle.component_sources.specs.Answers.{IsChecked, IsRefusedComponent};
ghost use Rattle.component_sources.specs.ComponentFaults.{AreGoodScripts, InlineFits, IsComponentFault, IsGoodComponent, IsScriptFault, ScriptsFit, inline_scripts};
ghost use Rattle.component_sources.specs.declared.component.CheckedComponent.{CheckedComponent as Checked};
ghost use Rattle.component_sources.specs.declared.component.ComponentFault.{ComponentFault as Fault};
ghost use Rattle.component_sources.specs.declared.component.ComponentFileAnswer;
ghost use Rattle.file_faults.specs.declared.source.SourceAnswer;
ghost use Rattle.file_faults.specs.declared.source.SourceFault.{SourceFault as OfSource};

use crate::laws::{never_both_of_components, one_component, one_component_fault};
use brs_parser::ParsedFile;
use component_files::{
    ComponentAnswer, ComponentFile, ComponentSyntax, InlineScript, ScriptElement, read_component,
};
use file_faults::{SourceAnswer, SourceFault, read_source};
use sqlite_items::Items;
use std::alloc::Global;

/// A component file whose inline scripts have no fault.
#[derive(Drop)]
pub struct CheckedComponent {
    pub file: ComponentFile,
    /// The inline scripts, in their order in the file.
    pub scripts: Items<ParsedFile>,
}

/// What is wrong with a component file: its first fault.
#[derive(Clone, Copy, Debug, PartialEq, Eq)]
pub enum ComponentFault {
    /// The bytes are no component file.
    Element(ComponentSyntax),
    /// The fault of an inline script. Its line is one of the component file, and in the script's first line columns are counted from
    /// the script's first byte.
    Script(SourceFault),
}

/// Why bytes give no component whose scripts may be compiled.
#[derive(Clone, Copy, Debug, PartialEq, Eq)]
pub enum ComponentFileAnswer {
    /// The first fault.
    Fault(ComponentFault),
    /// Memory ran out.
    NoMemory,
}

/// Adds a tree at the end.
fn add_tree(trees: &mut Items<ParsedFile>, tree: ParsedFile) -> Result<(), SourceAnswer>
    ensures ok { OnOk result (trees.new ≡ trees.old ++ tree ∷ []) }
    ensures fault { (fault : OfSource) → result ≡ Err (SourceAnswer.Fault fault) → ⊥ }
{
    match trees.push(tree) {
        Ok(()) => Ok(()),
        Err(_) => Err(SourceAnswer::NoMemory),
    }
}

/// Adds the tree of a script to those of the inline scripts before it, or gives the script's fault.
fn add_inline(
    alloc: Global,
    script: &InlineScript,
    trees: &mut Items<ParsedFile>,
) -> Result<(), SourceAnswer>
    requires fits { InlineFits 0xffff_ffff (Some script.now) }
    ensures good { OnOk result ((before : List Inline) → AreGoodScripts before trees.old → AreGoodScripts (before ++ script.now ∷ []) trees.new) }
    ensures fault { (fault : OfSource) (before after : List Inline) → result ≡ Err (SourceAnswer.Fault fault) → AreGoodScripts before trees.old → IsScriptFault (before ++ script.now ∷ after) fault }
{
    match read_source(alloc, script.text.as_str().as_bytes(), script.first_line) {
        Ok(tree) => add_tree(trees, tree),
        Err(answer) => Err(answer),
    }
}

/// The same, where the script stands in the component file.
fn add_script(
    alloc: Global,
    script: &ScriptElement,
    trees: &mut Items<ParsedFile>,
) -> Result<(), SourceAnswer>
    requires fits { InlineFits 0xffff_ffff script.now.inline }
    ensures good { OnOk result ((before : List Inline) → AreGoodScripts before trees.old → AreGoodScripts (before ++ option_to_list script.now.inline) trees.new) }
    ensures fault { (fault : OfSource) (before after : List Inline) → result ≡ Err (SourceAnswer.Fault fault) → AreGoodScripts before trees.old → IsScriptFault (before ++ (option_to_list script.now.inline ++ after)) fault }
{
    match &script.inline {
        Some(inline) => add_inline(alloc, inline, trees),
        None => Ok(()),
    }
}

/// The trees of the inline scripts, or the fault of the first that has one.
fn read_scripts(alloc: Global, scripts: &[ScriptElement]) -> Result<Items<ParsedFile>, SourceAnswer>
    requires fits { ScriptsFit 0xffff_ffff scripts.now }
    ensures good { IfOk result (λ trees. AreGoodScripts (inline_scripts scripts.now) trees) }
    ensures fault { (fault : OfSource) → result ≡ Err (SourceAnswer.Fault fault) → IsScriptFault (inline_scripts scripts.now) fault }
{
    let mut trees = Items::new(alloc);
    for script in scripts {
        match add_script(alloc, script, &mut trees) {
            Ok(()) => {}
            Err(answer) => return Err(answer),
        }
    }
    Ok(trees)
}

/// The component file, with the trees of its inline scripts.
fn checked(alloc: Global, file: ComponentFile) -> Result<CheckedComponent, ComponentFileAnswer>
    requires fits { ScriptsFit 0xffff_ffff file.scripts }
    ensures good { IfOk result (λ checked. (checked.file ≡ file) × AreGoodScripts (inline_scripts file.scripts) checked.scripts) }
    ensures fault { (fault : Fault) (bytes : List ℕ) → result ≡ Err (ComponentFileAnswer.Fault fault) → IsComponent bytes file → IsComponentFault bytes fault }
{
    match read_scripts(alloc, file.scripts.as_slice()) {
        Ok(scripts) => Ok(CheckedComponent { file, scripts }),
        Err(SourceAnswer::Fault(fault)) => {
            Err(ComponentFileAnswer::Fault(ComponentFault::Script(fault)))
        }
        Err(SourceAnswer::NoMemory) => Err(ComponentFileAnswer::NoMemory),
    }
}

/// The component file that the bytes are, with the trees of its inline scripts, or the first fault.
fn component_of(alloc: Global, bytes: &[u8]) -> Result<CheckedComponent, ComponentFileAnswer>
    requires { length bytes.now < 2 ^ 31 }
    ensures file { IfOk result (λ checked. IsGoodComponent bytes.now checked) }
    ensures fault { (fault : Fault) → result ≡ Err (ComponentFileAnswer.Fault fault) → IsComponentFault bytes.now fault }
{
    match read_component(alloc, bytes) {
        Ok(file) => checked(alloc, file),
        Err(ComponentAnswer::Fault(fault)) => {
            Err(ComponentFileAnswer::Fault(ComponentFault::Element(fault)))
        }
        Err(ComponentAnswer::NoMemory) => Err(ComponentFileAnswer::NoMemory),
    }
}

/// The component file that the bytes are, with the trees of its inline scripts, or the first fault: that of the component file, else
/// that of its first inline script which has one.
///
/// Takes time that grows with the number of bytes.
///
/// Source: SceneGraph XML Guide, "Component Definition".
pub fn read_component_file(
    alloc: Global,
    bytes: &[u8],
) -> Result<CheckedComponent, ComponentFileAnswer>
    requires { length bytes.now < 2 ^ 31 }
    // What is answered is right.
    ensures file { IfOk result (λ checked. IsGoodComponent bytes.now checked) }
    ensures fault { (fault : Fault) → result ≡ Err (ComponentFileAnswer.Fault fault) → IsComponentFault bytes.now fault }
    // What is right is answered, unless memory runs out.
    ensures all { (checked : Checked) → IsGoodComponent bytes.now checked → IsChecked checked result }
    ensures first { (fault : Fault) → IsComponentFault bytes.now fault → IsRefusedComponent fault result }
{
    one_component();
    one_component_fault();
    never_both_of_components();
    component_of(alloc, bytes)
}
