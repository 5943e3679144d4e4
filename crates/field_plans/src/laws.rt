//! The law of the values of texts.
ghost use Rattle.std.specs.Prelude.{◌≡◌, ◌↔◌, ℕ, List, Some};
ghost use Rattle.chan_values.specs.Tree.{Tree};
ghost use Rattle.field_types.specs.Attribute.{Reads};
ghost use Rattle.field_types.specs.declared.types.FieldType.{FieldType as Holds};
ghost use Rattle.field_plans.specs.Values.{value_read};

/// A text has a value for a type exactly where the type reads the text, and then the value that it reads.
pub fn a_value_is_what_the_type_reads()
    ensures { (holds : Holds) (text : List ℕ) (value : Tree) → (value_read holds text ≡ Some value) ↔ Reads holds text value }
{}
