//! SceneGraph component files: from the bytes to the file.
//!
//! `xml_pieces` cuts the bytes into pieces. A machine with a stack goes from piece to piece, and the grammar, a relation between the marks that
//! the pieces leave and the file, says what its answer is worth.
//!
//! Source: SceneGraph XML Guide, "Component Definition".
#![tactic(auto)]

mod attributes;
mod children;
mod element;
mod elements;
mod laws;
mod place;
mod read;
mod stack;
mod state;

pub use element::{
    AttributeTextList, ChildElement, ChildElementList, ComponentFile, FieldElement,
    FieldElementList, FunctionElement, FunctionElementList, InlineScript, ScriptElement,
    ScriptElementList,
};
pub use laws::{file_or_fault, never_both, one_fault, one_file};
pub use read::{ComponentAnswer, ComponentSyntax, read_component};
pub use xml_pieces::AttributeText;
