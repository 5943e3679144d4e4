//! The types of fields and their words.
ghost use Rattle.std.specs.Prelude.{◌≡◌, map};
ghost use Rattle.chan_values.specs.View.{tree_of};
ghost use Rattle.field_types.specs.Words as spec;
ghost use Rattle.field_types.specs.Opening.{opening_of};

use chan_values::{ItemList, Portable, Text};
use std::alloc::Global;

/// The type of a field.
///
/// Source: SceneGraph XML Reference, "interface", its table of field types.
#[derive(Clone, Copy, Debug, PartialEq, Eq)]
pub enum FieldType {
    /// `integer` or `int`.
    Integer,
    /// `longinteger` or `long`.
    LongInteger,
    /// `boolean` or `bool`.
    Boolean,
    /// `string`, `str`, `uri` or `color`.
    String,
    /// `node`: a node or `invalid`.
    Node,
    /// `assocarray`: an associative array or `invalid`.
    AssocArray,
    /// `array`: an array or `invalid`.
    Array,
    /// `stringarray`: an array of Strings or `invalid`.
    StringArray,
    /// `intarray`: an array of Integers or `invalid`.
    IntArray,
    /// `boolarray`: an array of Booleans or `invalid`.
    BoolArray,
    /// `nodearray`: an array of nodes or `invalid`.
    NodeArray,
}

const WORDS: [(&[u8], FieldType); 17] = [
    (b"integer", FieldType::Integer),
    (b"int", FieldType::Integer),
    (b"longinteger", FieldType::LongInteger),
    (b"long", FieldType::LongInteger),
    (b"boolean", FieldType::Boolean),
    (b"bool", FieldType::Boolean),
    (b"string", FieldType::String),
    (b"str", FieldType::String),
    (b"uri", FieldType::String),
    (b"color", FieldType::String),
    (b"node", FieldType::Node),
    (b"assocarray", FieldType::AssocArray),
    (b"array", FieldType::Array),
    (b"stringarray", FieldType::StringArray),
    (b"intarray", FieldType::IntArray),
    (b"boolarray", FieldType::BoolArray),
    (b"nodearray", FieldType::NodeArray),
];

#[tactic(auto, unfolding(crate::specs::Words::is_alike))]
pub(crate) fn is_alike(a: &[u8], b: &[u8]) -> bool
    ensures { result ≡ spec.is_alike a.now b.now }
{
    a.eq_ignore_ascii_case(b)
}

/// The type beside a word in a table, whatever the case of the word's letters.
fn type_beside(mut rows: &[(&[u8], FieldType)], word: &[u8]) -> Option<FieldType>
    ensures { result ≡ spec.type_beside (map (λ row. (row.0.now, row.1)) rows.entry.now) word.now }
{
    while let [row, rest @ ..] = rows {
        if is_alike(row.0, word) {
            return Some(row.1);
        }
        rows = rest;
    }
    None
}

/// The type that a word names, in any case of its letters, `None` exactly for another word. Takes no memory.
pub fn field_type(word: &[u8]) -> Option<FieldType>
    ensures { result ≡ spec.type_beside spec.type_words word.now }
{
    type_beside(&WORDS, word)
}

/// The value that a field of the type has before anything is set. Takes no memory.
pub fn opening(alloc: Global, t: FieldType) -> Portable
    ensures { tree_of result ≡ opening_of t }
{
    match t {
        FieldType::Integer => Portable::Small(0),
        FieldType::LongInteger => Portable::Big(0),
        FieldType::Boolean => Portable::Truth(false),
        FieldType::String => Portable::Words(Text::new(alloc)),
        FieldType::Node | FieldType::AssocArray => Portable::Nothing,
        FieldType::Array
        | FieldType::StringArray
        | FieldType::IntArray
        | FieldType::BoolArray
        | FieldType::NodeArray => Portable::Items(ItemList::new(alloc)),
    }
}
