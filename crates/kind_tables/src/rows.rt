//! A kind of a channel.
use chan_values::Text;
use ordered_names::OrderedNames;

/// What is a kind's own, and where its base stands.
#[derive(Drop)]
pub struct KindRow {
    /// The place of its base, `None` where there is none, or no kind of its name.
    pub(crate) base: Option<usize>,
    /// The name of its base, folded.
    pub(crate) base_name: Option<Text>,
    /// The functions of its own scripts with their numbers.
    pub(crate) functions: OrderedNames<u32>,
    /// The fields of its own with the functions that they call at their change.
    pub(crate) handlers: OrderedNames<Option<Text>>,
    /// The functions of its own interface.
    pub(crate) interface: OrderedNames<()>,
}
