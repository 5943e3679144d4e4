//! The lines of a report.
ghost use Rattle.std.specs.Prelude.{◌≡◌, ◌++◌, Some, IfOk, OnOk, OnErr};
ghost use Rattle.std.specs.String.{string_bytes};
ghost use Rattle.chan_values.specs.Escape.{escaped};
ghost use Rattle.chan_values.specs.ValueText.{value_text};
ghost use Rattle.chan_values.specs.View.{tree_of};
ghost use Rattle.trace_report.specs.ReportText.{report_text, parent_text, children_text};

use crate::escapes::escaped;
use chan_values::{NoMemory, Portable, Text, write_value};
use std::alloc::{AllocError, Global};
use std::fmt;

/// A line of a report. Nodes and actors are given by their numbers; texts are given as they are, and escaped where the line is
/// written.
#[derive(Clone, Copy, Debug)]
pub enum ReportLine<'a> {
    /// `node n KIND owner a parent p children c1 c2`: a node with its kind as declared, its owner, and its parent and children,
    /// `none` where it has none.
    Node {
        node: u32,
        kind: &'a str,
        owner: u32,
        parent: Option<u32>,
        children: &'a [u32],
    },
    /// `field n.id VALUE`: a field of a node, by its folded id, with its value.
    Field {
        node: u32,
        id: &'a str,
        value: &'a Portable,
    },
}

fn value_text(alloc: Global, value: &Portable) -> Result<Text, AllocError>
    ensures { IfOk result (λ text. text ≡ escaped (value_text (tree_of value.now))) }
{
    let mut text = Text::new(alloc);
    match write_value(alloc, value, &mut text) {
        Ok(()) => Ok(text),
        Err(_) => Err(AllocError),
    }
}

#[derive(Clone, Copy)]
struct Parent(Option<u32>);

impl fmt::Display for Parent {
    ghost output = { λ parent. Some (parent_text parent.0) };

    fn fmt<W: fmt::Write>(&self, f: &mut fmt::Formatter<W>) -> fmt::Result {
        match self.0 {
            Some(node) => write!(f, "{node}"),
            None => write!(f, "none"),
        }
    }
}

#[derive(Clone, Copy)]
struct Children<'a>(&'a [u32]);

impl fmt::Display for Children<'_> {
    ghost output = { λ children. Some (children_text children.0.now) };

    fn fmt<W: fmt::Write>(&self, f: &mut fmt::Formatter<W>) -> fmt::Result {
        if self.0.is_empty() {
            return write!(f, " none");
        }
        for child in self.0 {
            write!(f, " {child}")?;
        }
        Ok(())
    }
}

fn line_text(alloc: Global, line: &ReportLine<'_>) -> Result<String, AllocError>
    ensures { IfOk result (λ text. string_bytes text ≡ report_text line.now) }
{
    match line {
        ReportLine::Node {
            node,
            kind,
            owner,
            parent,
            children,
        } => {
            let kind = escaped(alloc, kind)?;
            let (parent, children) = (Parent(*parent), Children(children));
            format!(in alloc;
                "node {node} {} owner {owner} parent {parent} children{children}\n",
                kind.as_str()
            )
        }
        ReportLine::Field { node, id, value } => {
            let id = escaped(alloc, id)?;
            let value = value_text(alloc, value)?;
            format!(in alloc; "field {node}.{} {}\n", id.as_str(), value.as_str())
        }
    }
}

/// Writes a line at the end, with the LF that ends it. After an `Err` nothing has changed.
pub fn write_report(alloc: Global, line: &ReportLine<'_>, out: &mut Vec<u8>) -> Result<(), NoMemory>
    ensures ok { OnOk result (out.new.items ≡ out.old.items ++ report_text line.now) }
    ensures err { OnErr result (out.new.items ≡ out.old.items) }
{
    let Ok(text) = line_text(alloc, line) else {
        return Err(NoMemory);
    };
    match out.extend_from_slice(text.as_bytes()) {
        Ok(()) => Ok(()),
        Err(_) => Err(NoMemory),
    }
}
