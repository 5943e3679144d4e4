//! The checks of scripts and functions in their order.
ghost use Rattle.std.specs.Prelude.{◌≡◌, ◌<◌, nat_lt};
ghost use Rattle.script_faults.specs.Sources.{function_count};

use component_faults::kind_table;
use folder_rules::{PathedComponent, SourceFunctions, TablesAnswer};
use script_faults::{check_duplicate_functions, check_functions, check_scripts, source_table};
use std::alloc::Global;

/// Whether the source texts have fewer than 2^32 functions in all.
pub fn are_few(sources: &[SourceFunctions]) -> bool
    ensures { result ≡ nat_lt (function_count sources.now) 4294967296 }
{
    let mut left: usize = 4_294_967_295;
    for source in sources {
        let count = source.functions.len();
        if left < count {
            return false;
        }
        left -= count;
    }
    true
}

/// The first fault of scripts and functions.
pub fn check_all(
    alloc: Global,
    components: &[PathedComponent],
    sources: &[SourceFunctions],
) -> Result<(), TablesAnswer>
    requires { function_count sources.now < 4294967296 }
{
    let names = kind_table(alloc, components)?;
    let table = source_table(alloc, sources)?;
    check_scripts(alloc, &table, components)?;
    check_duplicate_functions(alloc, &table, components)?;
    check_functions(alloc, &table, &names, components)
}
