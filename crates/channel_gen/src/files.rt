//! The files of the made channel.
ghost use Rattle.std.specs.Prelude.{◌≡◌, ◌++◌, ◌≤◌, Some, IfOk, OnOk, flat_map};
ghost use Rattle.std.specs.String.{string_bytes};
ghost use Rattle.channel_gen.specs.MadeChannel.{numbers_to, base_name, call_text, main_text, function_text, component_text, function_file, component_file, main_file, manifest, with_file};

use chan_values::NoMemory;
use outside::listing::Listing;
use std::alloc::Global;
use std::fmt;
use std::fmt::Write;

// The name of the base of a component: the component before it, or `Scene` for the first one.
#[derive(Clone, Copy)]
struct Base {
    number: u32,
}

impl fmt::Display for Base {
    ghost output = { λ base. Some (base_name base.number) };

    fn fmt<W: fmt::Write>(&self, f: &mut fmt::Formatter<W>) -> fmt::Result {
        if self.number == 1 {
            write!(f, "Scene")
        } else {
            write!(f, "C{}", self.number.saturating_sub(1))
        }
    }
}

/// Adds the manifest.
pub fn add_manifest(alloc: Global, listing: &mut Listing) -> Result<(), NoMemory>
    ensures { OnOk result (listing.new ≡ with_file listing.old manifest) }
{
    listing.append(alloc, "manifest", b"title=gen\n")
}

fn function_text(alloc: Global, number: u32) -> Result<String, NoMemory>
    ensures { IfOk result (λ text. string_bytes text ≡ function_text number) }
{
    match format!(in alloc;
        "function f{number}(n as integer) as integer\nt = 0\nfor i = 1 to n\nt = t + i * {number}\nnext\nreturn t\nend function\n"
    ) {
        Ok(text) => Ok(text),
        Err(_) => Err(NoMemory),
    }
}

/// Adds the source file of a number's function.
pub fn add_function(alloc: Global, listing: &mut Listing, number: u32) -> Result<(), NoMemory>
    ensures { OnOk result (listing.new ≡ with_file listing.old (function_file number)) }
{
    let Ok(path) = format!(in alloc; "source/f{number}.brs") else {
        return Err(NoMemory);
    };
    let text = function_text(alloc, number)?;
    listing.append(alloc, path.as_str(), text.as_bytes())
}

fn component_text(alloc: Global, number: u32) -> Result<String, NoMemory>
    ensures { IfOk result (λ text. string_bytes text ≡ component_text number) }
{
    let base = Base { number };
    match format!(in alloc;
        "<component name=\"C{number}\" extends=\"{base}\"><interface><field id=\"v{number}\" type=\"integer\"/></interface></component>\n"
    ) {
        Ok(text) => Ok(text),
        Err(_) => Err(NoMemory),
    }
}

/// Adds the component file of a number.
pub fn add_component(alloc: Global, listing: &mut Listing, number: u32) -> Result<(), NoMemory>
    ensures { OnOk result (listing.new ≡ with_file listing.old (component_file number)) }
{
    let Ok(path) = format!(in alloc; "components/c{number}.xml") else {
        return Err(NoMemory);
    };
    let text = component_text(alloc, number)?;
    listing.append(alloc, path.as_str(), text.as_bytes())
}

// What main does with a number.
fn push_call(text: &mut String, number: u32) -> Result<(), NoMemory>
    ensures { OnOk result (string_bytes text.new ≡ string_bytes text.old ++ call_text number) }
{
    match write!(text, "y = f{number}(10)\nscene.v{number} = y\nx = x + y\n") {
        Ok(()) => Ok(()),
        Err(_) => Err(NoMemory),
    }
}

fn push_calls(text: &mut String, size: u32) -> Result<(), NoMemory>
    requires { size ≤ 200 }
    ensures { OnOk result (string_bytes text.new ≡ string_bytes text.old ++ flat_map call_text (numbers_to size)) }
{
    for number in 1..size + 1 {
        push_call(text, number)?;
    }
    Ok(())
}

fn main_text(alloc: Global, size: u32) -> Result<String, NoMemory>
    requires { size ≤ 200 }
    ensures { IfOk result (λ text. string_bytes text ≡ main_text size) }
{
    let Ok(mut text) = format!(in alloc;
        "sub main()\nscene = createObject(\"roSGScreen\").createScene(\"C{size}\")\nx = 0\n"
    ) else {
        return Err(NoMemory);
    };
    push_calls(&mut text, size)?;
    match text.push_str("print x\nend sub\n") {
        Ok(()) => Ok(text),
        Err(_) => Err(NoMemory),
    }
}

/// Adds main.
pub fn add_main(alloc: Global, listing: &mut Listing, size: u32) -> Result<(), NoMemory>
    requires { size ≤ 200 }
    ensures { OnOk result (listing.new ≡ with_file listing.old (main_file size)) }
{
    let text = main_text(alloc, size)?;
    listing.append(alloc, "source/main.brs", text.as_bytes())
}
