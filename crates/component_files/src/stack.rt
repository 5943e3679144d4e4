//! The child elements that are open.
ghost use Rattle.std.specs.Prelude.{◌≡◌, [], ◌∷◌, length, OnOk, MatchOption};
ghost use Rattle.component_files.specs.Elements.{child};

use crate::element::{AttributeTextList, ChildElement, ChildElementList};
use chan_values::Text;
use sqlite_items::Items;
use std::alloc::{AllocError, Global};
use std::marker::Model;

/// A child element whose end tag is not read yet, with the children that are.
pub(crate) struct OpenChild {
    pub(crate) kind: Text,
    pub(crate) attributes: AttributeTextList,
    pub(crate) children: ChildElementList,
    pub(crate) line: u32,
    pub(crate) column: u32,
}

impl Drop for OpenChild {
    fn drop(self) {
        let OpenChild {
            kind: _kind,
            attributes: _attributes,
            children: _children,
            line: _line,
            column: _column,
        } = self;
    }
}

impl OpenChild {
    /// The child element, whose end has come.
    pub(crate) fn close(self) -> ChildElement
        ensures { result ≡ child self self.children }
    {
        let OpenChild {
            kind,
            attributes,
            children,
            line,
            column,
        } = self;
        ChildElement {
            kind,
            attributes,
            children,
            line,
            column,
        }
    }
}

/// Open child elements, which contracts see as their list from the innermost on.
pub(crate) struct Stack {
    open: Items<OpenChild>,
}

// A derived drop is written out at each exit; this one is a call.
impl Drop for Stack {
    fn drop(self) {
        let Stack { open: _open } = self;
    }
}

impl Model for Stack {
    ghost use Rattle.std.specs.Prelude.{List, reverse};
    ghost use Rattle.component_files.specs.declared.stack.OpenChild.{OpenChild};
    ghost use Rattle.std.specs.Coded.{codes};
    ghost use Rattle.component_files.specs.contracts.element.ChildElement as e;

    ghost Value = { List OpenChild };

    ghost coded = { Prim.hlevel (codes, e.the_row.coded) };

    ghost view = { λ s. reverse s.open };
}

impl Stack {
    /// No open child. Takes no memory.
    pub(crate) fn new(alloc: Global) -> Stack
        ensures { result ≡ [] }
    {
        Stack {
            open: Items::new(alloc),
        }
    }

    /// How many child elements are open.
    pub(crate) fn len(&self) -> usize
        ensures { result ≡ length self.now }
    {
        self.open.len()
    }

    /// Opens a child in the innermost one.
    pub(crate) fn push(&mut self, opened: OpenChild) -> Result<(), AllocError>
        ensures { OnOk result (self.new ≡ opened ∷ self.old) }
    {
        self.open.push(opened)
    }

    /// Takes the innermost child, if one is open.
    pub(crate) fn pop(&mut self) -> Option<OpenChild>
        ensures { MatchOption result ((self.old ≡ []) × (self.new ≡ [])) (λ top. self.old ≡ top ∷ self.new) }
    {
        self.open.pop()
    }
}
