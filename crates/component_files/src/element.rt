//! What a component file has.
//!
//! Texts are as written, and in the values of attributes each reference is read. A line and a column are those of the element's tag, counted from
//! 1, the column in bytes. Each list is in the file's order.

use chan_values::Text;
use sqlite_items::Items;
use xml_pieces::AttributeText;

/// The fields of a component.
pub type FieldElementList = Items<FieldElement>;

/// The functions of a component's interface.
pub type FunctionElementList = Items<FunctionElement>;

/// The scripts of a component.
pub type ScriptElementList = Items<ScriptElement>;

/// Child elements.
pub type ChildElementList = Items<ChildElement>;

/// The attributes of a child element.
pub type AttributeTextList = Items<AttributeText>;

/// A component.
///
/// Source: SceneGraph XML Guide, "component".
pub struct ComponentFile {
    pub name: Text,
    /// The component that it extends, `Group` where the file names none.
    pub extends: Text,
    pub fields: FieldElementList,
    pub functions: FunctionElementList,
    pub scripts: ScriptElementList,
    pub children: ChildElementList,
    pub line: u32,
    pub column: u32,
}

// A derived drop is written out at each exit of a function that holds a component; this one is a call.
impl Drop for ComponentFile {
    fn drop(self) {
        let ComponentFile {
            name: _name,
            extends: _extends,
            fields: _fields,
            functions: _functions,
            scripts: _scripts,
            children: _children,
            line: _line,
            column: _column,
        } = self;
    }
}

/// A field of the interface.
///
/// Source: SceneGraph XML Guide, "interface".
#[derive(Drop)]
pub struct FieldElement {
    pub id: Text,
    /// The type word.
    pub word: Text,
    /// The value at the start, as text.
    pub value: Option<Text>,
    /// Whether an assignment of an equal value counts as a change.
    pub always: bool,
    /// The function to call at a change.
    pub on_change: Option<Text>,
    pub line: u32,
    pub column: u32,
}

/// A function of the interface.
///
/// Source: SceneGraph XML Guide, "interface".
#[derive(Drop)]
pub struct FunctionElement {
    pub name: Text,
    pub line: u32,
    pub column: u32,
}

/// A script, with a file's address, a text of its own, or both.
///
/// Source: SceneGraph XML Guide, "script".
#[derive(Drop)]
pub struct ScriptElement {
    pub uri: Option<Text>,
    pub inline: Option<InlineScript>,
    pub line: u32,
    pub column: u32,
}

/// What the CDATA section of a script holds.
#[derive(Drop)]
pub struct InlineScript {
    pub text: Text,
    /// The line on which the text begins.
    pub first_line: u32,
}

/// A child element: a node to make, with its fields' texts and its own children.
///
/// Source: SceneGraph XML Guide, "children".
#[derive(Drop)]
pub struct ChildElement {
    /// The node's kind.
    pub kind: Text,
    /// The attributes without those whose names have a colon.
    pub attributes: AttributeTextList,
    pub children: ChildElementList,
    pub line: u32,
    pub column: u32,
}
