//! The made channel whole.
ghost use Rattle.std.specs.Prelude.{◌≡◌, ◌≤◌, IfOk, OnOk, fold, flat_map};
ghost use Rattle.channel_gen.specs.MadeChannel.{numbers_to, made_files, made_script, files_of, with_file};

use crate::files::{add_component, add_function, add_main, add_manifest};
use chan_values::{Bytes, NoMemory};
use outside::listing::Listing;
use std::alloc::Global;

/// A channel folder and a script.
#[derive(Debug, Drop)]
pub struct Made {
    /// The files of the folder, with paths below it.
    pub listing: Listing,
    /// The script.
    pub script: Bytes,
}

// Adds the files of each number up to the size.
fn add_numbered(alloc: Global, listing: &mut Listing, size: u32) -> Result<(), NoMemory>
    requires { size ≤ 200 }
    ensures { OnOk result (listing.new ≡ fold with_file listing.old (flat_map files_of (numbers_to size))) }
{
    for number in 1..size + 1 {
        add_function(alloc, listing, number)?;
        add_component(alloc, listing, number)?;
    }
    Ok(())
}

#[tactic(auto, using(crate::proofs::Numbers::whole_folder))]
fn listing_of(alloc: Global, size: u32) -> Result<Listing, NoMemory>
    requires { size ≤ 200 }
    ensures { IfOk result (λ listing. listing ≡ made_files size) }
{
    let mut listing = Listing::new(alloc);
    add_manifest(alloc, &mut listing)?;
    add_numbered(alloc, &mut listing, size)?;
    add_main(alloc, &mut listing, size)?;
    Ok(listing)
}

fn script_of(alloc: Global, size: u32) -> Result<Bytes, NoMemory>
    requires { size ≤ 200 }
    ensures { IfOk result (λ script. script ≡ made_script size) }
{
    let mut script = Bytes::new(alloc);
    for _ in 0..size + 2 {
        script.push_slice(b"round 4000\n")?;
    }
    Ok(script)
}

/// The made channel of a size from 1 to 200.
///
/// The folder has a manifest; for each number k up to the size the function `fk` in `source/fk.brs`, which adds k times the numbers
/// up to its argument, and the component `Ck` in `components/ck.xml`, which has the field `vk` and extends the component before
/// it, the first one `Scene`; and `source/main.brs`, which makes the last component the scene, calls each function, sets each
/// field and prints the sum. The script has two rounds more than the size.
pub fn make_channel(alloc: Global, size: u32) -> Result<Made, NoMemory>
    requires some { 1 ≤ size }
    requires most { size ≤ 200 }
    ensures listing { IfOk result (λ made. made.listing ≡ made_files size) }
    ensures script { IfOk result (λ made. made.script ≡ made_script size) }
{
    Ok(Made {
        listing: listing_of(alloc, size)?,
        script: script_of(alloc, size)?,
    })
}
