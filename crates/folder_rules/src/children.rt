//! The child elements of a component file, one after another.
ghost use Rattle.std.specs.Prelude.{◌≡◌, ◌++◌, OnOk};
ghost use Rattle.folder_rules.specs.Children.{child_tags, own_tags, tags_of};

use chan_values::NoMemory;
use component_files::ChildElement;

/// Adds these elements and all elements in them, in the order in which they begin.
#[cycle(children)]
pub fn push_children<'a>(
    children: &'a [ChildElement],
    elements: &mut Vec<&'a ChildElement>,
) -> Result<(), NoMemory>
    ensures { OnOk result (own_tags elements.new.items ≡ own_tags elements.old.items ++ child_tags children.now) }
{
    for child in children {
        push_child(child, elements)?;
    }
    Ok(())
}

#[cycle(children)]
fn push_child<'a>(
    child: &'a ChildElement,
    elements: &mut Vec<&'a ChildElement>,
) -> Result<(), NoMemory>
    ensures { OnOk result (own_tags elements.new.items ≡ own_tags elements.old.items ++ tags_of child.now) }
{
    match elements.push(child) {
        Ok(()) => push_children(child.children.as_slice(), elements),
        Err(_) => Err(NoMemory),
    }
}
